//! A body that follows a script, for the tests of what runs bodies.
#![tactic(auto)]

mod script;
mod steps;
mod sum;
mod text;

pub use script::Script;
pub use steps::Steps;
pub use text::steps_of;

#[cfg(test)]
mod tests;
