//! Regions driven over one table, a turn at a time, beside a plain model of what each turn must answer
//! and of what each vertex's word must say after it.
#![tactic(auto)]

mod crew;
mod deeds;
mod model;
mod picks;
mod playing;

pub use crew::Crew;
pub use deeds::{Answer, Deed, Forks};
pub use model::Model;
pub use picks::{Path, Picks};

#[cfg(test)]
mod explorer;
#[cfg(test)]
mod tests;
#[cfg(test)]
mod threads;
