//! Jobs and main by workers: each job over a field of its own, whose end goes into a log.
#![tactic(auto)]

mod jobs;
mod mains;

pub use jobs::run_job_on_workers;
pub use mains::run_main_on_workers;
