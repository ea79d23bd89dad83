// How the in-counter of a finish may grow.

/// How the tree of SNZI nodes of each finish may grow below its root.
#[derive(Clone, Copy, PartialEq, Eq, Debug)]
pub enum Scheme {
    /// It is its root alone.
    Flat,
    /// Each root has two children from the start.
    Level,
    /// It grows while workers arrive, by the toss of a coin (Acar, Ben-David, Rainey, PPoPP 2017).
    Grow,
}
