//! The outside of a program: files that are read by name, and sinks for bytes. Contracts see what
//! each of them tells and how often it failed.
#![tactic(auto)]

mod calls;
mod files;
mod mem_shelf;
mod mem_sink;
mod shelf;
mod sink;
mod still;

pub use files::note_failure;
pub use mem_shelf::MemShelf;
pub use mem_sink::MemSink;
pub use shelf::{Shelf, ShelfFault};
pub use sink::{Sink, SinkFault, Stopped, write_all_of};
pub use still::{StillShelf, StillSink};

#[cfg(test)]
mod tests;
