// The calls of the dag that go turn by turn, driven to their end.

ghost use Rattle.std.specs.Prelude.{◌≡◌};
ghost use Rattle.spd_state.specs.declared.view.Running.{Running};
ghost use Rattle.spd_rule.specs.Shares.{IsOf, IsSame, share_view};
ghost use Rattle.spd_dag.specs.Acts.{MayChain, MaySpawn, MaySignal};
ghost use Rattle.spd_work.specs.Turns.{HasSpawned, HasChained, HasSignalled};

use spd_dag::{ChainCall, ChainTurn, SignalCall, SignalTurn, SpawnCall, SpawnTurn};
use spd_rule::{Field, Share};
use spd_words::{Body, FinishKind};

/// What became of a spawn.
#[derive(Drop)]
pub(crate) enum Spawned<B> {
    /// Both vertices are ready, and the share runs nothing.
    Two { left: u32, right: u32 },
    /// No move is left: the bodies come back, and the share still runs its vertex.
    Full { body: B, rest: B },
}

/// What became of a chain.
#[derive(Drop)]
pub(crate) enum Chained<B> {
    /// The first vertex of the finish is ready, and the share runs nothing.
    Opened { body: u32 },
    /// No move is left: the bodies come back, and the share still runs its vertex.
    Full { body: B, rest: B },
}

/// Spawns, whatever other shares do meanwhile: with flat counters each turn is a step forward.
pub(crate) fn spawn<B: Body>(field: &Field<B>, share: &mut Share<B>, body: B, rest: B) -> Spawned<B>
    requires of { IsOf field.now share.old }
    requires may { (r : Running) × MaySpawn (share_view share.old) r (B.view body) (B.view rest) }
    ensures same { IsSame share.old share.new }
    ensures spawned { HasSpawned field.now body rest share.old share.new result }
{
    let mut call = SpawnCall::new(body, rest);
    loop {
        match call.turn(field, share) {
            SpawnTurn::More => {}
            SpawnTurn::Done { left, right } => return Spawned::Two { left, right },
            SpawnTurn::Full {
                drawn: _,
                body,
                rest,
            } => return Spawned::Full { body, rest },
        }
    }
}

/// Chains, in at most five turns.
pub(crate) fn chain<B: Body>(
    field: &Field<B>,
    share: &mut Share<B>,
    kind: FinishKind,
    body: B,
    rest: B,
) -> Chained<B>
    requires of { IsOf field.now share.old }
    requires may { (r : Running) × MayChain (share_view share.old) r kind (B.view body) (B.view rest) }
    ensures same { IsSame share.old share.new }
    ensures chained { HasChained field.now body rest share.old share.new result }
{
    let mut call = ChainCall::new(kind, body, rest);
    loop {
        match call.turn(field, share) {
            ChainTurn::More => {}
            ChainTurn::Done { body, rest: _ } => return Chained::Opened { body },
            ChainTurn::Full {
                drawn: _,
                body,
                rest,
            } => return Chained::Full { body, rest },
        }
    }
}

/// Signals, in at most three turns. A vertex that it answers is ready now.
pub(crate) fn signal<B: Body>(field: &Field<B>, share: &mut Share<B>) -> Option<u32>
    requires of { IsOf field.now share.old }
    requires may { (r : Running) × MaySignal (share_view share.old) r }
    ensures same { IsSame share.old share.new }
    ensures signalled { HasSignalled field.now share.old share.new result }
{
    let mut call = SignalCall::new();
    loop {
        match call.turn(field, share) {
            SignalTurn::More => {}
            SignalTurn::Done { woke } => return woke,
        }
    }
}
