//! Arrivals and departures at the nodes of in-counters, turn by turn: one atomic step a turn.
//!
//! A counter is a SNZI tree (Ellen, Lev, Luchangco, Moir, PODC 2007). With flat counters each node is a
//! root, and either call takes one turn.
#![tactic(auto)]

mod arrive;
mod depart;
mod path;

pub use arrive::{ArriveCall, ArriveTurn};
pub use depart::{DepartCall, DepartTurn};
pub use path::Path;
