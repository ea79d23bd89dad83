// What a worker is about.

use crate::piece::Piece;
use spd_dag::{ChainCall, SignalCall, SpawnCall};

/// Between which of its turns a worker stands.
#[derive(Drop)]
pub(crate) enum Stage {
    /// It runs no vertex.
    Rests,
    /// It runs a vertex, with which it may chain, spawn or signal.
    Works,
    Chains(ChainCall<Piece>),
    Spawns(SpawnCall<Piece>),
    Signals(SignalCall),
    /// It runs vertex 1: the region is over.
    Ends,
    /// It runs a vertex whose piece waited for a finish that gave want of memory.
    Lost,
}
