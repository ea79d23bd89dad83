// An increment of the in-counter of the running vertex's finish.

ghost use Rattle.std.specs.Prelude.{◌≡◌, ℕ};
ghost use Rattle.spd_rule.specs.Shares.{IsOf, IsSame, share_view, share_bodies, field_plan};
ghost use Rattle.spd_snzi.specs.Paths.{IsPathOf};
ghost use Rattle.spd_counter.specs.Receipts.{RunsSome, inc_in, still_at};
ghost use Rattle.spd_counter.specs.Arriving.{MayIncrement, ArrivesAtRoot};

use crate::claiming::claim;
use crate::receipt::Receipt;
use spd_grow::{Coin, Grown, How};
use spd_rule::{Field, Share};
use spd_snzi::{ArriveCall, ArriveTurn, Path};
use spd_words::Body;

/// What an increment steps on next: the root of the finish, or the pair of the running vertex, with the
/// node at which it has arrived.
#[derive(Clone, Copy)]
pub(crate) enum IncrementStage {
    Arrive,
    Claim(u32),
}

/// An increment under way: an arrival in the tree of the running vertex's finish, and a claim of a handle
/// of its pair. With flat counters it takes two turns.
#[derive(Drop)]
pub struct IncrementCall {
    pub(crate) stage: IncrementStage,
}

/// What a turn of an increment answers.
#[derive(Drop)]
pub enum IncrementTurn {
    /// There is another turn.
    More,
    /// The share holds one unit more and has claimed a handle, as the receipt says.
    Done(Receipt),
}

impl IncrementCall {
    ghost use Rattle.spd_counter.specs.Increments.{IncrementBegins, IncrementMayGo, IncrementPlays};

    /// An increment by a share that runs a vertex with its right and holds fewer than 64 units.
    pub fn new() -> IncrementCall
        ensures { IncrementBegins result }
    {
        IncrementCall {
            stage: IncrementStage::Arrive,
        }
    }

    /// Takes the step of the call's stage. With flat counters no coin is flipped, and the receipt says
    /// `Still`, with the vertex's own node in the place of children.
    pub fn turn<B: Body, C: Coin>(
        &mut self,
        field: &Field<B>,
        share: &mut Share<B>,
        path: &mut Path,
        coin: &mut C,
    ) -> IncrementTurn
        requires of { IsOf field.now share.old }
        requires path { IsPathOf field.now path.old }
        requires goes { IncrementMayGo field.now self.old share.old }
        ensures same { IsSame share.old share.new }
        ensures path { IsPathOf field.now path.new }
        ensures coin { coin.new ≡ coin.old }
        ensures bodies { share_bodies share.new ≡ share_bodies share.old }
        ensures turned { IncrementPlays field.now self.old self.new share.old share.new result }
    {
        let _ = coin;
        match self.stage {
            IncrementStage::Arrive => {
                self.stage = IncrementStage::Claim(arrive(field, share, path));
                IncrementTurn::More
            }
            IncrementStage::Claim(arrived) => {
                let grown = stands_still(share);
                let claimed = claim(field, share);
                IncrementTurn::Done(Receipt {
                    grown,
                    arrived,
                    claimed,
                })
            }
        }
    }
}

// Arrives at the root of the running vertex's finish.
fn arrive<B: Body>(field: &Field<B>, share: &mut Share<B>, path: &mut Path) -> u32
    requires of { IsOf field.now share.old }
    requires path { IsPathOf field.now path.old }
    requires may { MayIncrement (field_plan field.now) (share_view share.old) }
    ensures same { IsSame share.old share.new }
    ensures path { IsPathOf field.now path.new }
    ensures bodies { share_bodies share.new ≡ share_bodies share.old }
    ensures arrives { ArrivesAtRoot field.now result share.old share.new }
{
    let Some(running) = share.runs() else {
        unreachable!()
    };
    let mut call = ArriveCall::new(running.finish);
    match call.turn(field, share, path) {
        ArriveTurn::Done { unit } => unit,
        ArriveTurn::More => unreachable!(),
    }
}

// The counter stays as it is at the running vertex's node.
fn stands_still<B>(share: &Share<B>) -> Grown
    requires { RunsSome (share_view share.now) }
    ensures { result ≡ still_at (inc_in (share_view share.now).running) }
{
    let Some(running) = share.runs() else {
        unreachable!()
    };
    Grown {
        how: How::Still,
        left: running.inc,
        right: running.inc,
    }
}
