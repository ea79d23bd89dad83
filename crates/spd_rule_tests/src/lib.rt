//! Shares of a table driven by hand, one step at a time: each step of `spd_rule` as a move of a player that
//! knows at run time when the step may be taken, and tests that play whole schedules and look at the words.
#![tactic(auto)]

mod books;
mod notes;
mod payments;
mod player;
mod seats;
mod signals;
mod stores;
mod stub;
mod turns;

pub use player::Player;
pub use stub::Stub;
pub use turns::Turn;

#[cfg(test)]
mod tests;
