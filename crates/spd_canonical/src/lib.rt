//! The canonical text of a program.
//!
//! `specs/Canonical.antt` folds a tree to symbols without lines, and `specs/Layout.antt` lays symbols out by what stands
//! beside each other. `print_program` pushes the symbols onto a page, in one pass.
#![tactic(auto)]

mod page;
mod print_expressions;
mod print_statements;
mod printing;

pub use printing::print_program;
