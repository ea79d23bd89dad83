// The next turn of each call, and the stage that a worker comes to by it.

ghost use Rattle.spd_rule.specs.Shares.{IsOf, IsSame};
ghost use Rattle.spd_dag.specs.Chains.{ChainMayGo};
ghost use Rattle.spd_dag.specs.Signals.{SignalMayGo};
ghost use Rattle.spd_dag.specs.Spawns.{SpawnMayGo};
ghost use Rattle.spd_fork.specs.Pieces.{piece_view};
ghost use Rattle.spd_fork.specs.Workers.{StaysFit};
ghost use Rattle.spd_fork.specs.declared.stage.Stage.TheVariants as stage;

use crate::piece::Piece;
use crate::stage::Stage;
use spd_dag::{ChainCall, ChainTurn, SignalCall, SignalTurn, SpawnCall, SpawnTurn};
use spd_rule::{Field, Share};

/// What a turn of a worker's call answers.
#[derive(Clone, Copy, Debug, PartialEq, Eq)]
pub enum Turned {
    /// There is another turn.
    More,
    /// The vertex `body` is ready, and `rest` waits for its finish. The worker rests.
    Chained {
        body: u32,
        rest: u32,
    },
    /// Both vertices are ready. The worker rests.
    Spawned {
        left: u32,
        right: u32,
    },
    /// So many moves were drawn, and none is left. The pieces come back, and the worker still runs its vertex.
    Full {
        drawn: u64,
        body: Piece,
        rest: Piece,
    },
    /// The vertex has ended, and the worker rests. It was the last of its finish where it woke a vertex.
    Signalled {
        woke: Option<u32>,
    },
}

/// Takes the next turn of a chain.
pub(crate) fn turn_chain(
    field: &Field<Piece>,
    share: &mut Share<Piece>,
    mut call: ChainCall<Piece>,
) -> (Stage, Turned)
    requires of { IsOf field.now share.old }
    requires goes { ChainMayGo piece_view field.now call share.old }
    ensures same { IsSame share.old share.new }
    ensures fits { StaysFit field.now (stage.Chains call) share.old share.new result.0 }
{
    match call.turn(field, share) {
        ChainTurn::More => (Stage::Chains(call), Turned::More),
        ChainTurn::Done { body, rest } => (Stage::Rests, Turned::Chained { body, rest }),
        ChainTurn::Full { drawn, body, rest } => {
            let Piece { low, high, .. } = rest;
            let rest = Piece::new(low, high);
            (Stage::Works, Turned::Full { drawn, body, rest })
        }
    }
}

/// Takes the next turn of a spawn.
pub(crate) fn turn_spawn(
    field: &Field<Piece>,
    share: &mut Share<Piece>,
    mut call: SpawnCall<Piece>,
) -> (Stage, Turned)
    requires of { IsOf field.now share.old }
    requires goes { SpawnMayGo piece_view field.now call share.old }
    ensures same { IsSame share.old share.new }
    ensures fits { StaysFit field.now (stage.Spawns call) share.old share.new result.0 }
{
    match call.turn(field, share) {
        SpawnTurn::More => (Stage::Spawns(call), Turned::More),
        SpawnTurn::Done { left, right } => (Stage::Rests, Turned::Spawned { left, right }),
        SpawnTurn::Full { drawn, body, rest } => (Stage::Works, Turned::Full { drawn, body, rest }),
    }
}

/// Takes the next turn of a signal.
pub(crate) fn turn_signal(
    field: &Field<Piece>,
    share: &mut Share<Piece>,
    mut call: SignalCall,
) -> (Stage, Turned)
    requires of { IsOf field.now share.old }
    requires goes { SignalMayGo field.now call share.old }
    ensures same { IsSame share.old share.new }
    ensures fits { StaysFit field.now (stage.Signals call) share.old share.new result.0 }
{
    match call.turn(field, share) {
        SignalTurn::More => (Stage::Signals(call), Turned::More),
        SignalTurn::Done { woke } => (Stage::Rests, Turned::Signalled { woke }),
    }
}
