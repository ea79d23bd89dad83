// What a worker does: it starts a vertex, and then chains, spawns or signals, turn by turn.

ghost use Rattle.std.specs.Prelude.{◌≡◌, ◌<◌, ◌*◌, [], IfSome, true};
ghost use Rattle.spd_state.specs.Seats.{first_view};
ghost use Rattle.spd_rule.specs.Kept.{IsFit};
ghost use Rattle.spd_rule.specs.Shares.{IsOf, IsSame, field_plan, share_known, share_view};
ghost use Rattle.spd_fork.specs.declared.stage.Stage.TheVariants as stage;
ghost use Rattle.spd_fork.specs.Pieces.{piece_view};
ghost use Rattle.spd_fork.specs.Places.{IsAt, StaysAt};
ghost use Rattle.spd_fork.specs.Workers.{PieceGoesOn};

use crate::piece::Piece;
use crate::stage::Stage;
use crate::turns::{Turned, turn_chain, turn_signal, turn_spawn};
use crate::worker::Worker;
use spd_dag::{ChainCall, SignalCall, SpawnCall, make};
use spd_rule::{Field, Share, see_fault, see_vertex};
use spd_vertex::start;
use spd_vertex::starting::Start;
use spd_words::{Body, FinishKind, VertexWord};
use std::mem;

/// How the start of a vertex ends.
#[derive(Clone, Copy, Debug, PartialEq, Eq)]
pub enum Began {
    /// The worker runs the vertex, in whose slot this piece lay. Where it waited, it is resumed.
    Piece(Piece),
    /// The worker runs the vertex, whose piece waited for a finish that gave want of memory, which no
    /// worker puts. It can't go on.
    Lost,
    /// The worker runs vertex 1: the region is over.
    End,
    /// The vertex was in this state, which isn't 2.
    Taken { state: u32 },
}

impl Worker {
    /// The worker of a new field's share, which makes a region of this piece: vertex 0 is ready. `None` where the
    /// piece isn't ready.
    pub fn first(field: &Field<Piece>, share: Share<Piece>, piece: Piece) -> Option<Worker>
        requires of { IsOf field.now share }
        requires new { share_known share ≡ (first_view, []) }
        ensures { IfSome result (λ w. IsAt field.now w) }
    {
        if !piece.is_ready() {
            return None;
        }
        let mut share = share;
        make(field, &mut share, FinishKind::Plain, piece);
        Some(Worker {
            share,
            stage: Stage::Rests,
            seats: 1,
        })
    }

    /// Whether it runs nothing.
    pub fn rests(&self) -> bool
        ensures { result ≡ true → self.now.stage ≡ stage.Rests }
    {
        matches!(self.stage, Stage::Rests)
    }

    /// Whether it runs a vertex and has no call under way.
    pub fn works(&self) -> bool
        ensures { result ≡ true → self.now.stage ≡ stage.Works }
    {
        matches!(self.stage, Stage::Works)
    }

    /// Whether it runs vertex 1.
    pub fn ends(&self) -> bool
        ensures { result ≡ true → self.now.stage ≡ stage.Ends }
    {
        matches!(self.stage, Stage::Ends)
    }

    /// The vertex that it runs.
    pub fn vertex(&self) -> Option<u32> {
        self.share.running()
    }

    /// Starts the vertex, and collects what its piece waits for. `None` where there is no such one, or the
    /// worker doesn't rest.
    pub fn start(&mut self, field: &Field<Piece>, vertex: u32) -> Option<Began>
        requires { IsAt field.now self.old }
        ensures { IsAt field.now self.new }
    {
        if !self.rests() || vertex / 2 >= field.plan().moves() {
            return None;
        }
        match start(field, &mut self.share, vertex) {
            Start::Ours(piece) => match resumed(field, &mut self.share, vertex, piece) {
                Some(piece) => {
                    self.stage = Stage::Works;
                    Some(Began::Piece(piece))
                }
                None => {
                    self.stage = Stage::Lost;
                    Some(Began::Lost)
                }
            },
            Start::End => {
                self.stage = Stage::Ends;
                Some(Began::End)
            }
            Start::Taken { state } => Some(Began::Taken { state }),
        }
    }

    /// Looks at the vertex, and gives its state: 0 where it isn't stored, and else 1 while it waits, 2 once it is
    /// ready, and 3 once it is started. `None` where there is no such one, or the worker doesn't rest.
    pub fn look(&mut self, field: &Field<Piece>, vertex: u32) -> Option<u32>
        requires { IsAt field.now self.old }
        ensures { IsAt field.now self.new }
    {
        if !self.rests() || vertex / 2 >= field.plan().moves() {
            return None;
        }
        Some(VertexWord::state(see_vertex(field, &mut self.share, vertex)))
    }

    /// Begins a chain by the vertex that it runs: `rest` waits for a finish that `body` begins. Both are to be ready.
    pub fn chain(&mut self, body: Piece, rest: Piece) -> bool
        ensures { StaysAt self.old self.new }
    {
        if !self.works() || !body.is_ready() || !rest.is_ready() {
            return false;
        }
        let rest = rest.waiting();
        self.stage = Stage::Chains(ChainCall::new(FinishKind::Plain, body, rest));
        true
    }

    /// Begins a spawn by the vertex that it runs: `body` may run beside `rest`. Both are to be ready.
    pub fn spawn(&mut self, body: Piece, rest: Piece) -> bool
        ensures { StaysAt self.old self.new }
    {
        if !self.works() || !body.is_ready() || !rest.is_ready() {
            return false;
        }
        self.stage = Stage::Spawns(SpawnCall::new(body, rest));
        true
    }

    /// Begins the signal of the vertex that it runs, which ends with it.
    pub fn signal(&mut self) -> bool
        ensures { StaysAt self.old self.new }
    {
        if !self.works() {
            return false;
        }
        self.stage = Stage::Signals(SignalCall::new());
        true
    }

    /// Takes the next turn of the call under way, which is one step on one word. `None` where there is no call.
    pub fn turn(&mut self, field: &Field<Piece>) -> Option<Turned>
        requires { IsAt field.now self.old }
        ensures { IsAt field.now self.new }
    {
        let stage = mem::replace(&mut self.stage, Stage::Rests);
        match stage {
            Stage::Chains(call) => {
                let (stage, turned) = turn_chain(field, &mut self.share, call);
                self.stage = stage;
                Some(turned)
            }
            Stage::Spawns(call) => {
                let (stage, turned) = turn_spawn(field, &mut self.share, call);
                self.stage = stage;
                Some(turned)
            }
            Stage::Signals(call) => {
                let (stage, turned) = turn_signal(field, &mut self.share, call);
                self.stage = stage;
                Some(turned)
            }
            other => {
                self.stage = other;
                None
            }
        }
    }
}

/// The piece of a vertex that was just started. Where it waited, it is resumed with what its finish has
/// collected: a plain one gives nothing, but may have the code of a fault. `None` where that is 0; the
/// vertices for which a finish is collected are odd.
fn resumed(
    field: &Field<Piece>,
    share: &mut Share<Piece>,
    vertex: u32,
    mut piece: Piece,
) -> Option<Piece>
    requires of { IsOf field.now share.old }
    requires inside { vertex < 2 * (field_plan field.now).moves }
    requires fit { IsFit (piece_view piece) }
    ensures same { IsSame share.old share.new }
    ensures goes { PieceGoesOn vertex piece (share_view share.old) (share_view share.new) result }
{
    if piece.waits().is_none() {
        return Some(piece);
    }
    let fault = see_fault(field, share, vertex / 2);
    if fault == 0 || vertex % 2 == 0 {
        return None;
    }
    piece.resume(0, fault);
    Some(piece)
}
