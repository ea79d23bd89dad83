// What is told of each start.

/// It is called after each start of a vertex, by the worker of this number. It changes nothing that is
/// claimed, but may wait, so that a test decides who starts what.
pub trait Gate: Sync {
    fn started(&self, worker: u32, vertex: u32);
}

/// A gate that does nothing.
pub struct Open;

impl Gate for Open {
    fn started(&self, _worker: u32, _vertex: u32) {}
}
