//! Tasks: jobs that are cut into events, and what runs them as regions on one thread.
#![tactic(auto)]

mod body;
mod parts;
mod plain_regions;
mod task;

pub use plain_regions::PlainRegions;
pub use task::Task;
