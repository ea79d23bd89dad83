// A coin over the generator PCG32.

ghost use Rattle.std.specs.Prelude.{◌≡◌, ◌<◌, ◌%◌, ◌^◌, ◌↔◌, IsTrue, true, false};
ghost use Rattle.rand_pcg.specs.Lcg.{started, increment_of};
ghost use Rattle.rand_pcg.specs.Pcg.{multiplier_64, pcg32};
ghost use Rattle.spd_count.specs.Counts.{Raised};
ghost use Rattle.spd_grow.specs.Tosses.{PcgCoinState};

use crate::coin::Coin;
use rand_core::utils::NextWord;
use rand_pcg::Lcg64Xsh32;
use std::marker::Model;

/// A coin over PCG32 (O'Neill), heads in `chance` of 65,536 cases: never at 0, always from 65,536 on.
#[derive(Drop)]
pub struct PcgCoin {
    generator: Lcg64Xsh32,
    chance: u32,
    tails: u64,
    heads: u64,
}

impl Model for PcgCoin {
    ghost use Rattle.spd_grow.specs.Tosses.{PcgCoinState};

    ghost Value = { PcgCoinState };

    ghost view = { λ coin. record { generator = coin.generator; chance = coin.chance; tails = coin.tails; heads = coin.heads } };
}

impl PcgCoin {
    /// A coin that hasn't been flipped yet. Its generator begins with a seed, on the stream of a worker.
    pub fn new(seed: u32, worker: u32, chance: u32) -> PcgCoin
        ensures generator { result.generator ≡ started 64 multiplier_64 seed (increment_of 64 worker) }
        ensures chance { result.chance ≡ chance }
        ensures unflipped { (result.tails ≡ 0) × (result.heads ≡ 0) }
    {
        PcgCoin {
            generator: Lcg64Xsh32::new(u64::from(seed), u64::from(worker)),
            chance,
            tails: 0,
            heads: 0,
        }
    }

    /// True for heads: exactly where the low 16 bits of the generator's next word are below the chance. One
    /// word is taken, and the side is counted.
    pub fn toss(&mut self) -> bool
        ensures side { IsTrue result ↔ ((pcg32 self.old.generator).0 % 2 ^ 16 < self.old.chance) }
        ensures next { self.new.generator ≡ (pcg32 self.old.generator).1 }
        ensures chance { self.new.chance ≡ self.old.chance }
        ensures tails_rise { result ≡ false → Raised self.old.tails self.new.tails }
        ensures heads_stay { result ≡ false → self.new.heads ≡ self.old.heads }
        ensures heads_rise { result ≡ true → Raised self.old.heads self.new.heads }
        ensures tails_stay { result ≡ true → self.new.tails ≡ self.old.tails }
    {
        let low = self.generator.next_word() % 65_536;
        let heads = low < self.chance;
        if heads {
            self.heads = self.heads.saturating_add(1);
        } else {
            self.tails = self.tails.saturating_add(1);
        }
        heads
    }
}

impl Coin for PcgCoin {
    ghost tails = { λ coin. coin.tails };

    ghost heads = { λ coin. coin.heads };

    /// One toss.
    fn flip(&mut self) -> bool
        ensures side { IsTrue result ↔ ((pcg32 self.old.generator).0 % 2 ^ 16 < self.old.chance) }
        ensures next { self.new.generator ≡ (pcg32 self.old.generator).1 }
        ensures chance { self.new.chance ≡ self.old.chance }
        ensures tails_rise { result ≡ false → Raised self.old.tails self.new.tails }
        ensures heads_stay { result ≡ false → self.new.heads ≡ self.old.heads }
        ensures heads_rise { result ≡ true → Raised self.old.heads self.new.heads }
        ensures tails_stay { result ≡ true → self.new.tails ≡ self.old.tails }
    {
        self.toss()
    }
}
