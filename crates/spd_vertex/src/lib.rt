//! Bodies in the slots of vertices, and the start of a vertex: the very body that was put comes out.
#![tactic(auto)]

mod slots;
pub mod starting;
mod vertex;

pub use slots::put_body;
pub use vertex::start;
