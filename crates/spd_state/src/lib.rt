//! What the shares of a table know, the rule between their knowledge and the words, and what each
//! step changes of both: definitions and lemmas, and no function.
#![tactic(auto)]

mod promise;
mod trees;
mod view;

pub use promise::{Expected, Owed, Whole};
pub use trees::{Half, Known, Link, Sprout};
pub use view::{Draw, Flight, Running, Shown, View};
