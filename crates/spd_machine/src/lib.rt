//! The machine that runs code: a level with the finishes that run inside it, and the serial elision.
#![tactic(auto)]

mod elide;
mod job;
mod machine;
mod regions;

pub use elide::elide_body;
pub use job::{Job, JobBody, level_of_job};
pub use machine::{Inside, Machine, Met, with_end};
pub use regions::{ElideRegions, Regions};
