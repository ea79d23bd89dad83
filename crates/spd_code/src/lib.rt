//! The code of a program: its tree with each name as a number. What it means, by places, is what the
//! program means by its own names: definitions and lemmas, and no function.
#![tactic(auto)]

mod expr;
mod stmt;
mod tree;

pub use expr::{CodeExpr, CodeExprs, CodeParts, CodePrintPart};
pub use stmt::{CodeBlock, CodeStmt, CodeStmtKind, CodeStmts};
pub use tree::{CodeItem, CodeItems, CodeTree};
