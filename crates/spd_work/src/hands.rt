// What a worker runs vertices with.

use spd_rule::Share;

/// A worker's share of the table, and its handle on the ready vertices.
#[derive(Drop)]
pub(crate) struct Hands<B, Q> {
    pub share: Share<B>,
    pub ready: Q,
    /// It has spawned, so that two vertices were ready at once.
    pub spawned: bool,
}
