// A finish outside the innermost one.

use crate::finish::Finish;

/// A finish outside, with its vertex that waits for the finish that is next inside.
#[derive(Drop)]
pub(crate) struct Outer<B> {
    pub(crate) finish: Finish,
    pub(crate) waiting: B,
}
