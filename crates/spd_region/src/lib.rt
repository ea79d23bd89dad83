//! Regions on one thread: a finish and all that is inside it, over any body.
#![tactic(auto)]

mod dag;
mod finish;
mod outer;
mod region;

pub use region::{Region, run_within};
