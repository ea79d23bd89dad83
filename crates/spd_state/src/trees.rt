// What a share knows of the trees of nodes.

/// A half that the share owns at a grown node, with the version that it left there.
#[derive(Clone, Copy)]
pub struct Half {
    pub node: u32,
    pub version: u32,
}

/// A node that steps have shown, and the root above it.
#[derive(Clone, Copy)]
pub struct Known {
    pub node: u32,
    pub top: u32,
}

/// A grown node that stands in a tree, and its parent.
#[derive(Clone, Copy)]
pub struct Link {
    pub node: u32,
    pub parent: u32,
}

/// A drawn pair of grown nodes that isn't published: its left node, and the parents that were set.
#[derive(Clone, Copy)]
pub struct Sprout {
    pub left: u32,
    pub first: Option<u32>,
    pub second: Option<u32>,
}
