// The answers of a start.

/// How the start of a vertex ends.
#[derive(Drop)]
pub enum Start<B> {
    /// The share runs the vertex, which isn't vertex 1, and this is the body that lay in its slot.
    Ours(B),
    /// The share runs vertex 1, which has no body.
    End,
    /// One of the two steps saw this state, which isn't 2: the share runs nothing.
    Taken { state: u32 },
}
