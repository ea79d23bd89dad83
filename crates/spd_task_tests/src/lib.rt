//! Tests of tasks over codes that are made by hand: all ways to run a job, and its events.
#![tactic(auto)]

mod events;

pub use events::{Met, events_of, region_of};

#[cfg(test)]
mod codes;
#[cfg(test)]
mod jobs;
#[cfg(test)]
mod resumes;
#[cfg(test)]
mod ways;
