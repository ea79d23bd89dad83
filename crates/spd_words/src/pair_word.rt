// The word of a pair of handles.

ghost use Rattle.std.specs.Prelude.{◌≡◌};
ghost use Rattle.spd_words.specs.Words.{PairFits, pair_with, pack_pair, pair_of};

/// The word of a pair of handles, of which each is a node that a vertex may depart from once.
pub struct PairWord {}

impl PairWord {
    /// The word of a pair: how many of its handles were claimed (0 to 2), how many it has (1 for a make
    /// or a chain, 2 for a spawn), the kind of the finish that its move opens (0 plain or none, 1 sum,
    /// 2 least, 3 greatest), and the nodes of the first and the second handle, below 2^20.
    pub fn pack(claims: u32, total: u32, kind: u32, first: u32, second: u32) -> u64
        requires { PairFits (pair_with claims total kind first second) }
        ensures word { result ≡ pack_pair (pair_with claims total kind first second) }
        ensures read { pair_of result ≡ pair_with claims total kind first second }
    {
        u64::from(claims)
            + 4 * u64::from(total)
            + 16 * u64::from(kind)
            + 64 * u64::from(first)
            + 67_108_864 * u64::from(second)
    }

    /// How many of its handles were claimed.
    pub fn claims(word: u64) -> u32
        ensures { result ≡ (pair_of word).claims }
    {
        (word % 4) as u32
    }

    /// How many handles it has.
    pub fn total(word: u64) -> u32
        ensures { result ≡ (pair_of word).total }
    {
        (word / 4 % 4) as u32
    }

    /// The kind of the finish that its move opens.
    pub fn kind(word: u64) -> u32
        ensures { result ≡ (pair_of word).kind }
    {
        (word / 16 % 4) as u32
    }

    /// The node of its first handle.
    pub fn first(word: u64) -> u32
        ensures { result ≡ (pair_of word).first }
    {
        (word / 64 % 1_048_576) as u32
    }

    /// The node of its second handle.
    pub fn second(word: u64) -> u32
        ensures { result ≡ (pair_of word).second }
    {
        (word / 67_108_864 % 1_048_576) as u32
    }
}
