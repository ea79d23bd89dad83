// What a coin is.

/// What decides whether a counter grows. A coin counts how often it fell tails and how often heads; which
/// side falls isn't promised.
pub trait Coin: Send {
    ghost use Rattle.std.specs.Prelude.{◌≡◌, ℕ, true, false};
    ghost use Rattle.spd_count.specs.Counts.{Raised};

    ghost tails: { Self → ℕ };

    ghost heads: { Self → ℕ };

    /// True for heads. The number of the side that fell is raised, or stands at its last value, 2^64 - 1;
    /// that of the other stays.
    fn flip(&mut self) -> bool
        ensures tails_rise { result ≡ false → Raised (tails self.old) (tails self.new) }
        ensures heads_stay { result ≡ false → heads self.new ≡ heads self.old }
        ensures heads_rise { result ≡ true → Raised (heads self.old) (heads self.new) }
        ensures tails_stay { result ≡ true → tails self.new ≡ tails self.old };
}
