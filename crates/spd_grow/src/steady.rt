// Coins that always fall on the same side.

ghost use Rattle.std.specs.Prelude.{◌≡◌, true, false};

use crate::coin::Coin;

/// A coin that always falls heads.
#[derive(Drop)]
pub struct Heads {
    heads: u64,
}

/// A coin that always falls tails.
#[derive(Drop)]
pub struct Tails {
    tails: u64,
}

impl Heads {
    ghost use Rattle.spd_grow.specs.Steady.{heads_fallen};

    /// A coin that hasn't been flipped yet.
    pub fn new() -> Heads
        ensures { heads_fallen result ≡ 0 }
    {
        Heads { heads: 0 }
    }
}

impl Tails {
    ghost use Rattle.spd_grow.specs.Steady.{tails_fallen};

    /// A coin that hasn't been flipped yet.
    pub fn new() -> Tails
        ensures { tails_fallen result ≡ 0 }
    {
        Tails { tails: 0 }
    }
}

impl Coin for Heads {
    ghost use Rattle.spd_count.specs.Counts.{Raised};
    ghost use Rattle.spd_grow.specs.Steady.{heads_fallen};

    ghost tails = { λ _. 0 };

    ghost heads = { heads_fallen };

    /// Heads.
    fn flip(&mut self) -> bool
        ensures side { result ≡ true }
        ensures counts { Raised (heads_fallen self.old) (heads_fallen self.new) }
    {
        self.heads = self.heads.saturating_add(1);
        true
    }
}

impl Coin for Tails {
    ghost use Rattle.spd_count.specs.Counts.{Raised};
    ghost use Rattle.spd_grow.specs.Steady.{tails_fallen};

    ghost tails = { tails_fallen };

    ghost heads = { λ _. 0 };

    /// Tails.
    fn flip(&mut self) -> bool
        ensures side { result ≡ false }
        ensures counts { Raised (tails_fallen self.old) (tails_fallen self.new) }
    {
        self.tails = self.tails.saturating_add(1);
        false
    }
}
