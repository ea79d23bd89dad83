// What a region leaves.

use spd_rule::Closed;

/// What a region gives, and its field at the end.
#[derive(Drop)]
pub struct RegionEnd<B> {
    pub gift: i64,
    pub fault: u64,
    pub closed: Closed<B>,
}
