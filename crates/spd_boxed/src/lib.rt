//! Bodies behind a pointer, so that a slot of a table is one word, however large a body is.
#![tactic(auto)]

mod boxed_body;
mod parts;

pub use boxed_body::BoxedBody;
