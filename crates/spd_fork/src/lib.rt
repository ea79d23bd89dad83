//! A fork-join scheduler made by hand on `spd_dag`: a worker that knows at run time which call it may
//! make, and a loop that works until a region ends. README.md beside this folder says how to read it.
#![tactic(auto)]

mod calls;
mod piece;
mod schedule;
mod seats;
mod stage;
mod turns;
mod worker;

pub use calls::Began;
pub use piece::{Piece, PieceStage};
pub use schedule::{Job, work};
pub use turns::Turned;
pub use worker::Worker;
