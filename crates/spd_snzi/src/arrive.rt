// An arrival at a node.

ghost use Rattle.std.specs.Prelude.{◌≡◌, ℕ};
ghost use Rattle.spd_rule.specs.Shares.{IsOf, IsSame, share_bodies};
ghost use Rattle.spd_snzi.specs.Paths.{IsPathOf};

use crate::path::Path;
use spd_rule::{Field, Share, add_root};
use spd_words::Body;

/// What an arrival steps on next.
#[derive(Clone, Copy)]
pub(crate) enum ArriveStage {
    AddRoot,
}

/// An arrival under way at a node. At a root it takes one turn.
#[derive(Drop)]
pub struct ArriveCall {
    pub(crate) node: u32,
    pub(crate) stage: ArriveStage,
}

/// What a turn of an arrival answers.
#[derive(Drop)]
pub enum ArriveTurn {
    /// There is another turn.
    More,
    /// The share holds one unit more, at this node.
    Done { unit: u32 },
}

impl ArriveCall {
    ghost use Rattle.spd_snzi.specs.Arrivals.{ArriveBegins, ArriveMayGo, ArrivePlays};

    /// An arrival at this node, which is a root of the plan, by a share that has a right in its tree and
    /// holds fewer than 64 units.
    pub fn new(node: u32) -> ArriveCall
        ensures { ArriveBegins node result }
    {
        ArriveCall {
            node,
            stage: ArriveStage::AddRoot,
        }
    }

    /// Takes the step of the call's stage. At `Done` the share holds exactly one unit more than where the
    /// call began, at the node that was asked for.
    pub fn turn<B: Body>(
        &mut self,
        field: &Field<B>,
        share: &mut Share<B>,
        path: &mut Path,
    ) -> ArriveTurn
        requires of { IsOf field.now share.old }
        requires path { IsPathOf field.now path.old }
        requires goes { ArriveMayGo field.now self.old share.old }
        ensures same { IsSame share.old share.new }
        ensures path { IsPathOf field.now path.new }
        ensures bodies { share_bodies share.new ≡ share_bodies share.old }
        ensures turned { ArrivePlays field.now self.old self.new share.old share.new result }
    {
        let _ = path;
        match self.stage {
            ArriveStage::AddRoot => {
                add_root(field, share, self.node);
                ArriveTurn::Done { unit: self.node }
            }
        }
    }
}
