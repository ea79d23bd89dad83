//! The program as a function of its words, its files and its sinks.
#![tactic(auto)]

mod building;
mod coins;
mod command;
mod counts;
mod data;
mod job_shelf;
mod loaded;
mod on_workers;
mod programs;
mod serving;
mod status;
mod telling;
mod words;

pub use building::{BuildError, build, read};
pub use command::serve_arguments;
pub use on_workers::serve;
pub use serving::serve_still;
pub use words::{SerialCommand, Words};
