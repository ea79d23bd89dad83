//! The table of a region under its rule: a field of words and slots, the shares that take steps on
//! it, and one call for each kind of step.
//!
//! The rule holds between any two steps of any interleaving: a state is the words, the bodies at home
//! and each share's view, and each access to a word is one step of one share, in one order (every
//! access is sequentially consistent). A step is allowed where, from every state under the rule in
//! which the share has its view, it leads to a state under the rule. The clause `rule` of each step
//! names the states around it; `Field::new` shows the first, `Field::close` the last. README.md beside
//! this folder has the argument in full, and the story of the claimed pair.
#![tactic(auto)]

mod beside;
mod closed;
mod ends;
mod field;
mod looks;
mod moves;
mod opening;
mod payments;
mod reading;
mod rule;
mod seats;
mod steps;
mod table;
mod told;
mod wakes;

pub use closed::Closed;
pub use ends::{see_done, see_fault, see_sum, set_done};
pub use field::{Field, Share};
pub use looks::{see_moves, see_vertex};
pub use moves::{draw_move, set_pair, set_root, set_vertex};
pub use payments::{add_sum, lower_fault, raise_best};
pub use steps::{add_root, claim, start_vertex, sub_root};
pub use told::Told;
pub use wakes::wake_vertex;
