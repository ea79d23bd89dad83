// What an increment tells when it is done.

use spd_grow::Grown;

/// How the counter has grown, the node at which the increment has arrived, and the node of the handle
/// that it has claimed.
#[derive(Clone, Copy)]
pub struct Receipt {
    pub grown: Grown,
    pub arrived: u32,
    pub claimed: u32,
}
