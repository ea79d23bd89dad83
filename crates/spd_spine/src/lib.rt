//! Main: its lines go to a sink as they come, and each finish and each call that it meets is given
//! away as a job, one after the other.
#![tactic(auto)]

mod run;
mod spine;
mod turn;
mod walk;

pub use run::run_main;
pub use spine::{Spine, Standing};
pub use turn::{End, RunError, SpineTurn};
