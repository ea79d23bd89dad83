//! Make, chain, spawn and signal over a table under its rule, turn by turn: one atomic step a turn.
//!
//! The dag and its in-counters: Acar, Ben-David, Rainey, PPoPP 2017. README.md beside this folder has
//! the protocol told.
#![tactic(auto)]

mod chain;
mod drawing;
mod handle;
mod kind;
mod making;
mod signal;
mod spawn;
mod telling;

pub use chain::{ChainCall, ChainTurn};
pub use making::make;
pub use signal::{SignalCall, SignalTurn};
pub use spawn::{SpawnCall, SpawnTurn};
