//! Reading with one token ahead: single tokens, and expressions.
//!
//! A function answers what `reads_at` (`specs/Reading.antt`) gives of the shape of the grammar that has its name: the value
//! with the tokens that are left, or the tokens from the faulty one on.
#![tactic(auto)]

mod expressions;
mod held;
mod literals;
mod operators;
mod reading;
mod tokens;

pub use expressions::{behind_name, behind_operand, expression, nameless_expression};
pub use held::Held;
pub use reading::{Read, ReadError, StopKind};
pub use tokens::{deeper, lit, mark, name, name_and_line, next, next_is, word};
