//! Program texts: their tokens, and the trees that they spell.
#![tactic(auto)]

mod counts;
mod fault;
mod laws;
mod lexing;
mod operators;
mod spelled;
mod token;
mod tree;

pub use counts::{Counts, NameRole};
pub use fault::{ParseFault, ParseKind};
pub use laws::{expressions_are_the_page, lets_are_the_page};
pub use lexing::{LexFault, LexKind, lex};
pub use operators::{OPERATORS, is_operator, row_of};
pub use token::{MARKS, Mark, Token, TokenKind, Tokens, WORDS, Word};
pub use tree::{
    BinOp, Block, Collect, Expr, Exprs, Item, ItemKind, Items, Lit, Name, Names, Parts, PrintPart,
    Program, Stmt, StmtKind, UnOp,
};
