// A region: a finish and all that is inside it, run on one thread.

ghost use Rattle.std.specs.Prelude.{◌≡◌, ◌+◌, ◌<◌, min, IfOk};
ghost use Rattle.spd_words.specs.Total.{settle};
ghost use Rattle.spd_region.specs.Dag.{MayRun, promised_total};

use crate::dag::Dag;
use spd_words::{Body, FinishKind, Given};
use std::alloc::{AllocError, Global};

/// What a region has at its end.
#[derive(Clone, Copy, PartialEq, Eq, Debug)]
pub struct Region {
    /// What its finish gives.
    pub given: Given,
    /// The number of moves that were drawn, the region's own among them, from 1 to the bound.
    pub moves: u64,
}

/// Runs a finish of this kind, whose first vertex runs this body, and all that is inside it.
///
/// At most `moves` moves are drawn: one for the region itself, and one for each async and each
/// finish; from then on these run inside the vertex that came to them. `AllocError` comes where
/// memory runs out, here or in a body.
pub fn run_within<B: Body>(
    alloc: Global,
    kind: FinishKind,
    body: B,
    moves: u64,
) -> Result<Region, AllocError>
    requires body { MayRun kind (B.view body) }
    requires moves { 0 < moves }
    ensures gift { IfOk result (λ region. region.given.gift ≡ (settle (promised_total (B.view body))).gift) }
    ensures fault { IfOk result (λ region. region.given.fault ≡ (settle (promised_total (B.view body))).fault) }
    ensures moves { IfOk result (λ region. region.moves ≡ min ((B.view body).means.promise.moves + 1) moves) }
{
    let mut dag = Dag::new(alloc, kind, body, moves)?;
    loop {
        if let Some(region) = dag.turn(alloc)? {
            return Ok(region);
        }
    }
}
