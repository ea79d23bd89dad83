//! The columns of data files: what is read by a program over them.
#![tactic(auto)]

mod column;
mod texts;

pub use column::{Column, Data, Ints};
pub use texts::Texts;
