// A coin that follows a list.

ghost use Rattle.std.specs.Prelude.{◌≡◌, IfOk, drop, true, false};
ghost use Rattle.spd_count.specs.Counts.{Raised};
ghost use Rattle.spd_grow.specs.Tosses.{ListCoinState, next_side};

use crate::coin::Coin;
use std::alloc::{AllocError, Global};
use std::collections::VecDeque;
use std::marker::Model;

/// A coin that falls as a list says, and tails from its end on.
#[derive(Drop)]
pub struct ListCoin {
    coming: VecDeque<bool>,
    tails: u64,
    heads: u64,
}

impl Model for ListCoin {
    ghost use Rattle.spd_grow.specs.Tosses.{ListCoinState};

    ghost Value = { ListCoinState };

    ghost view = { λ coin. record { coming = coin.coming.items; tails = coin.tails; heads = coin.heads } };
}

impl ListCoin {
    /// A coin that hasn't been flipped yet; true is heads. `AllocError` where memory runs out.
    pub fn new(alloc: Global, flips: &[bool]) -> Result<ListCoin, AllocError>
        ensures { IfOk result (λ coin. coin ≡ record { coming = flips.now; tails = 0; heads = 0 }) }
    {
        Ok(ListCoin {
            coming: VecDeque::from(flips.to_vec(alloc)?),
            tails: 0,
            heads: 0,
        })
    }
}

impl Coin for ListCoin {
    ghost tails = { λ coin. coin.tails };

    ghost heads = { λ coin. coin.heads };

    /// The next side of the list, or tails where none is left.
    fn flip(&mut self) -> bool
        ensures side { result ≡ next_side self.old.coming }
        ensures next { self.new.coming ≡ drop 1 self.old.coming }
        ensures tails_rise { result ≡ false → Raised self.old.tails self.new.tails }
        ensures heads_stay { result ≡ false → self.new.heads ≡ self.old.heads }
        ensures heads_rise { result ≡ true → Raised self.old.heads self.new.heads }
        ensures tails_stay { result ≡ true → self.new.tails ≡ self.old.tails }
    {
        let heads = self.coming.pop_front().unwrap_or(false);
        if heads {
            self.heads = self.heads.saturating_add(1);
        } else {
            self.tails = self.tails.saturating_add(1);
        }
        heads
    }
}
