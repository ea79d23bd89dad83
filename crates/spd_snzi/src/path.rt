// The room that an arrival needs on its way up.

ghost use Rattle.std.specs.Prelude.{◌≡◌, ◌+◌, ◌/◌, ℕ, IfOk};
ghost use Rattle.spd_snzi.specs.Paths.{path_plan, path_room};

use spd_words::Plan;
use std::alloc::{AllocError, Global};

/// Room for the nodes at which an arrival stands on its way up a tree of the plan. It is made once, so
/// that no turn takes memory.
#[derive(Drop)]
pub struct Path {
    pub(crate) plan: Plan,
    pub(crate) nodes: Vec<u32>,
}

impl Path {
    /// A path for counters of this plan: with G grown nodes it has room for G/2 + 2 nodes.
    ///
    /// The error comes where there is no memory for them.
    pub fn new(alloc: Global, plan: &Plan) -> Result<Path, AllocError>
        ensures plan { IfOk result (λ path. path_plan path ≡ plan.now) }
        ensures room { IfOk result (λ path. path_room path ≡ plan.now.grown / 2 + 2) }
    {
        let nodes = Vec::with_capacity(alloc, plan.grown() as usize / 2 + 2)?;
        Ok(Path { plan: *plan, nodes })
    }
}
