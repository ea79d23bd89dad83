// How an increment has grown its counter.

/// Why a counter has grown, or hasn't.
#[derive(Clone, Copy)]
pub enum How {
    /// Its node had children.
    Had,
    /// The increment has made them.
    Made,
    /// Another share has made them first.
    Lost,
    /// The scheme doesn't grow.
    Still,
    /// The coin fell tails.
    Tails,
    /// There was no grown node left: so many were drawn.
    Full { drawn: u64 },
}

/// How an increment has grown its counter, with the two children of its node; where it has none, both
/// numbers are the node's own.
#[derive(Clone, Copy)]
pub struct Grown {
    pub how: How,
    pub left: u32,
    pub right: u32,
}
