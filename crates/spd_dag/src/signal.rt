// A signal: the running vertex ends, and departs from the counter of its finish.

ghost use Rattle.std.specs.Prelude.{◌≡◌, ◌==◌};
ghost use Rattle.spd_words.specs.Words.{node_of};
ghost use Rattle.spd_rule.specs.Shares.{IsOf, IsSame};

use crate::handle::next_of;
use spd_rule::{Field, Share, claim, sub_root, wake_vertex};
use spd_words::{Body, NodeWord};

/// What a signal steps on next: the pair of the running vertex, the node whose handle it has claimed,
/// or the vertex that waits for the finish which it has emptied.
#[derive(Clone, Copy)]
pub(crate) enum SignalStage {
    Claim,
    Depart(u32),
    Wake(u32),
}

/// A signal under way: the running vertex has ended, and departs from its finish with a handle of its
/// pair. The one that leaves the finish empty wakes what waits for it. It takes at most three turns.
#[derive(Drop)]
pub struct SignalCall {
    pub(crate) stage: SignalStage,
}

/// What a turn of a signal answers.
#[derive(Drop)]
pub enum SignalTurn {
    /// There is another turn.
    More,
    /// The vertex is over, and the share runs nothing. `woke` is the vertex 2f + 1 where this call took
    /// the root f from 1 to 0: it is ready now.
    Done { woke: Option<u32> },
}

impl SignalCall {
    ghost use Rattle.spd_dag.specs.Signals.{SignalBegins, SignalMayGo, SignalPlays};
    ghost use Rattle.spd_dag.specs.declared.signal.SignalStage.TheVariants as stage;

    /// A signal by the share's running vertex.
    pub fn new() -> SignalCall
        ensures { SignalBegins result }
    {
        SignalCall {
            stage: SignalStage::Claim,
        }
    }

    /// Takes the next step: at most three turns come, of which each makes one access to one word.
    pub fn turn<B: Body>(&mut self, field: &Field<B>, share: &mut Share<B>) -> SignalTurn
        requires of { IsOf field.now share.old }
        requires goes { SignalMayGo field.now self.old share.old }
        ensures same { IsSame share.old share.new }
        ensures turned { SignalPlays field.now self.old self.new share.old share.new result }
    {
        match self.stage {
            SignalStage::Claim => self.claim(field, share),
            SignalStage::Depart(node) => self.depart(field, share, node),
            SignalStage::Wake(finish) => self.wake(field, share, finish),
        }
    }

    /// Claims a handle of the pair: the first for whoever comes first.
    fn claim<B: Body>(&mut self, field: &Field<B>, share: &mut Share<B>) -> SignalTurn
        requires of { IsOf field.now share.old }
        requires stage { self.old.stage ≡ stage.Claim }
        requires goes { SignalMayGo field.now self.old share.old }
        ensures same { IsSame share.old share.new }
        ensures turned { SignalPlays field.now self.old self.new share.old share.new result }
    {
        let pair = claim(field, share);
        self.stage = SignalStage::Depart(next_of(pair));
        SignalTurn::More
    }

    /// Departs from the node with its unit.
    fn depart<B: Body>(&mut self, field: &Field<B>, share: &mut Share<B>, node: u32) -> SignalTurn
        requires of { IsOf field.now share.old }
        requires stage { self.old.stage ≡ stage.Depart node }
        requires goes { SignalMayGo field.now self.old share.old }
        ensures same { IsSame share.old share.new }
        ensures turned { SignalPlays field.now self.old self.new share.old share.new result }
    {
        let root = sub_root(field, share, node);
        let last = was_last(root);
        if last {
            self.stage = SignalStage::Wake(node);
            return SignalTurn::More;
        }
        SignalTurn::Done { woke: None }
    }

    /// Wakes the vertex that waits for the finish.
    fn wake<B: Body>(&mut self, field: &Field<B>, share: &mut Share<B>, finish: u32) -> SignalTurn
        requires of { IsOf field.now share.old }
        requires stage { self.old.stage ≡ stage.Wake finish }
        requires goes { SignalMayGo field.now self.old share.old }
        ensures same { IsSame share.old share.new }
        ensures turned { SignalPlays field.now self.old self.new share.old share.new result }
    {
        wake_vertex(field, share, finish);
        SignalTurn::Done {
            woke: Some(2 * finish + 1),
        }
    }
}

/// Whether a departure that found this word at a root took its last unit: the count was 1.
fn was_last(root: u64) -> bool
    ensures { result ≡ ((node_of root).twice == 2) }
{
    NodeWord::twice(root) == 2
}
