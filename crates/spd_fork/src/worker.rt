// A worker: a share of a region's field that knows which call it may make next.

use crate::piece::Piece;
use crate::stage::Stage;
use spd_rule::Share;

/// A share of a field, and what it is about. Each of its calls answers `None` or `false`, and does nothing,
/// where the worker may not make it.
#[derive(Drop)]
pub struct Worker {
    pub(crate) share: Share<Piece>,
    pub(crate) stage: Stage,
    pub(crate) seats: u64,
}
