//! Tests of regions on several workers: what they give, who starts what, and that workers run at once.
#![tactic(auto)]

mod starving;

pub use starving::{Hunger, Starving};

#[cfg(test)]
mod gates;
#[cfg(test)]
mod meetings;
#[cfg(test)]
mod rows;
#[cfg(test)]
mod running;
#[cfg(test)]
mod starts;
