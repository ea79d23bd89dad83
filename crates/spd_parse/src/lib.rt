//! Program texts read by the grammar: from the tokens of a text to the program that they spell, or to their first fault.
//!
//! Each function has the name of a shape of the grammar (`spd_syntax/specs/Grammar.antt`) and its parts in the order of
//! that line, and answers what reading by that shape gives. That such reading finds what is spelled, all of it, and stops
//! at the first fault is proved once for all shapes (`proofs/Lib.antt` is the map).
//!
//! A new statement is its line in the grammar with a row of the dispatch there, a function with an arm here, its name in
//! `spd_syntax/proofs/OneToken.antt`, and a measure where it holds a block. It needs no proof.
#![tactic(auto)]

mod calls;
mod counting;
mod items;
mod laws;
mod lets;
mod parsing;
mod printing;
mod statements;

pub use laws::spelled_once;
pub use parsing::{MAX_DEPTH, parse};
