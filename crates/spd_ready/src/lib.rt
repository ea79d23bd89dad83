//! The vertices that are ready to be started, as the workers of a region hand them to one another.
//!
//! What holds of the vertices is kept by the table, whoever hands them around: no clause here says which
//! vertex is given, and a vertex may be given to whoever asks first.
#![tactic(auto)]

mod lane;
mod locked;
mod pile;
mod ready;

pub use lane::{Lane, Take, take_from};
pub use locked::{LockedList, LockedReady};
pub use pile::Pile;
pub use ready::Ready;
