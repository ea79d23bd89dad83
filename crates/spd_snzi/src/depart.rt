// A departure from a node.

ghost use Rattle.std.specs.Prelude.{◌≡◌, ℕ};
ghost use Rattle.spd_words.specs.Words.{node_of};
ghost use Rattle.spd_rule.specs.Shares.{IsOf, IsSame};
ghost use Rattle.spd_snzi.specs.Told.{told_by};

use spd_rule::{Field, Share, sub_root};
use spd_words::{Body, NodeWord};

/// What a departure steps on next.
#[derive(Clone, Copy)]
pub(crate) enum DepartStage {
    SubRoot,
}

/// A departure under way, with a unit at a node. From a root it takes one turn.
#[derive(Drop)]
pub struct DepartCall {
    pub(crate) unit: u32,
    pub(crate) stage: DepartStage,
}

/// What a turn of a departure answers.
#[derive(Drop)]
pub enum DepartTurn {
    /// There is another turn.
    More,
    /// The unit has left. `told` is the finish whose root this turn took from 1 to 0, if it did.
    Done { told: Option<u32> },
}

impl DepartCall {
    ghost use Rattle.spd_snzi.specs.Departures.{DepartBegins, DepartMayGo, DepartPlays};

    /// A departure with a unit at this node, which is a root of the plan, by a share that holds it there.
    pub fn new(unit: u32) -> DepartCall
        ensures { DepartBegins unit result }
    {
        DepartCall {
            unit,
            stage: DepartStage::SubRoot,
        }
    }

    /// Takes the step of the call's stage. At `Done` one unit at the node has left; the share is told the
    /// finish f exactly where this turn took root f from 1 to 0.
    pub fn turn<B: Body>(&mut self, field: &Field<B>, share: &mut Share<B>) -> DepartTurn
        requires of { IsOf field.now share.old }
        requires goes { DepartMayGo field.now self.old share.old }
        ensures same { IsSame share.old share.new }
        ensures turned { DepartPlays field.now self.old self.new share.old share.new result }
    {
        match self.stage {
            DepartStage::SubRoot => {
                let old = sub_root(field, share, self.unit);
                let told = told_at(self.unit, old);
                DepartTurn::Done { told }
            }
        }
    }
}

// The finish that is told where a unit of the root d left a word that was `old`.
fn told_at(d: u32, old: u64) -> Option<u32>
    ensures { result ≡ told_by d (node_of old) }
{
    if NodeWord::twice(old) == 2 {
        Some(d)
    } else {
        None
    }
}
