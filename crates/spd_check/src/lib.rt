//! The checks of a program, and its code: the tree with each name as a number.
#![tactic(auto)]

mod coded;
mod coding;
mod declared;
mod expressions;
mod faults;
mod items;
mod names;
mod place;
mod program;
mod returning;
mod spaces;
mod statements;
mod tree;
mod values;

pub use faults::{CheckFault, CheckKind};
pub use program::{Code, check};
