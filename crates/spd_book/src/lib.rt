//! The books of a finish: what its vertices offer, the least code of their faults, and both collected.
//!
//! An offer is one fetch on a word that all shares of the finish use, and nobody waits. At each moment
//! the word, joined with what all unfinished vertices still owe, is what the finish is to give; so once
//! nobody owes anything the word is the gift. README.md beside this folder tells the story of one sum.
#![tactic(auto)]

mod collecting;
mod offering;
mod word;

pub use collecting::{Collected, collect};
pub use offering::{fault, offer};
