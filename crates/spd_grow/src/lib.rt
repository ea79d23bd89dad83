//! Coins, and how an increment has grown its counter.
//!
//! A counter grows where a coin falls heads (Acar, Ben-David, Rainey, PPoPP 2017). With flat counters no
//! coin is flipped and nothing grows.
#![tactic(auto)]

mod coin;
mod grown;
mod listed;
mod pcg;
mod steady;

pub use coin::Coin;
pub use grown::{Grown, How};
pub use listed::ListCoin;
pub use pcg::PcgCoin;
pub use steady::{Heads, Tails};
