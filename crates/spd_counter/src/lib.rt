//! In-counters: the claim of a handle, and an increment, turn by turn (Acar, Ben-David, Rainey, PPoPP
//! 2017).
#![tactic(auto)]

mod claiming;
mod increment;
mod receipt;

pub use claiming::claim;
pub use increment::{IncrementCall, IncrementTurn};
pub use receipt::Receipt;
