// A chain: the running vertex becomes a finish's first vertex and the vertex that waits for it.

ghost use Rattle.std.specs.Prelude.{◌≡◌};
ghost use Rattle.spd_rule.specs.Shares.{IsOf, IsSame};

use crate::drawing::draw_or_see;
use crate::kind::kind_number;
use crate::telling::set_root_of;
use spd_rule::{Field, Share, set_pair, set_vertex};
use spd_state::Draw;
use spd_words::{Body, FinishKind};
use std::marker::Brand;

/// What a chain steps on next, with the number of its move: the number of moves, the root, the pair,
/// the vertex that waits, and the body's vertex.
#[derive(Clone, Copy)]
pub(crate) enum ChainStage {
    Draw,
    Root(u32),
    Pair(u32),
    Rest(u32),
    Body(u32),
}

/// A chain under way: the running vertex becomes the first vertex of a finish, and the vertex that
/// waits for that finish and has the place of the running one. It takes at most five turns.
#[derive(Drop)]
pub struct ChainCall<B> {
    pub(crate) kind: FinishKind,
    pub(crate) body: Option<B>,
    pub(crate) rest: Option<B>,
    pub(crate) stage: ChainStage,
}

/// What a turn of a chain answers.
#[derive(Drop)]
pub enum ChainTurn<B> {
    /// There is another turn.
    More,
    /// The vertex `body` is ready, and `rest` waits for its finish. The share runs nothing.
    Done { body: u32, rest: u32 },
    /// `drawn` moves were drawn, at least those of the plan. The bodies come back, and the share still
    /// runs its vertex.
    Full { drawn: u64, body: B, rest: B },
}

impl<B: Body> ChainCall<B> {
    ghost use Rattle.spd_dag.specs.Chains.{ChainBegins, ChainMayGo, ChainPlays};
    ghost use Rattle.spd_dag.specs.declared.chain.ChainStage.TheVariants as stage;

    /// A chain by the share's running vertex: `body` is what the finish of this kind runs first, and
    /// `rest` waits for that finish.
    pub fn new(kind: FinishKind, body: B, rest: B) -> ChainCall<B>
        ensures { ChainBegins B.view kind body rest result }
    {
        ChainCall {
            kind,
            body: Some(body),
            rest: Some(rest),
            stage: ChainStage::Draw,
        }
    }

    /// Takes the next step: at most five turns come, of which each makes one access to one word.
    pub fn turn(&mut self, field: &Field<B>, share: &mut Share<B>) -> ChainTurn<B>
        requires of { IsOf field.now share.old }
        requires goes { ChainMayGo B.view field.now self.old share.old }
        ensures same { IsSame share.old share.new }
        ensures turned { ChainPlays B.view field.now self.old self.new share.old share.new result }
    {
        match self.stage {
            ChainStage::Draw => self.draw(field, share),
            ChainStage::Root(d) => self.open(field, share, d),
            ChainStage::Pair(d) => self.hand(field, share, d),
            ChainStage::Rest(d) => self.store_rest(field, share, d),
            ChainStage::Body(d) => self.store_body(field, share, d),
        }
    }

    /// Draws the move. Where none is left, the bodies go back.
    fn draw(&mut self, field: &Field<B>, share: &mut Share<B>) -> ChainTurn<B>
        requires of { IsOf field.now share.old }
        requires stage { self.old.stage ≡ stage.Draw }
        requires goes { ChainMayGo B.view field.now self.old share.old }
        ensures same { IsSame share.old share.new }
        ensures turned { ChainPlays B.view field.now self.old self.new share.old share.new result }
    {
        let drawn = draw_or_see(field, share, Draw::Chain);
        if drawn < u64::from(field.plan().moves()) {
            self.stage = ChainStage::Root(drawn as u32);
            return ChainTurn::More;
        }
        let Some(body) = self.body.take() else {
            unreachable!()
        };
        let Some(rest) = self.rest.take() else {
            unreachable!()
        };
        ChainTurn::Full { drawn, body, rest }
    }

    /// Opens the finish d, whose root has one unit.
    fn open(&mut self, field: &Field<B>, share: &mut Share<B>, d: u32) -> ChainTurn<B>
        requires of { IsOf field.now share.old }
        requires stage { self.old.stage ≡ stage.Root d }
        requires goes { ChainMayGo B.view field.now self.old share.old }
        ensures same { IsSame share.old share.new }
        ensures turned { ChainPlays B.view field.now self.old self.new share.old share.new result }
    {
        let Some(body) = &self.body else {
            unreachable!()
        };
        set_root_of::<B, Brand>(field, share, d, body);
        self.stage = ChainStage::Pair(d);
        ChainTurn::More
    }

    /// Hands the root's unit over to the pair of the body.
    fn hand(&mut self, field: &Field<B>, share: &mut Share<B>, d: u32) -> ChainTurn<B>
        requires of { IsOf field.now share.old }
        requires stage { self.old.stage ≡ stage.Pair d }
        requires goes { ChainMayGo B.view field.now self.old share.old }
        ensures same { IsSame share.old share.new }
        ensures turned { ChainPlays B.view field.now self.old self.new share.old share.new result }
    {
        let kind = kind_number(self.kind);
        set_pair::<B, Brand, Brand>(field, share, d, 1, kind, d, 0);
        self.stage = ChainStage::Rest(d);
        ChainTurn::More
    }

    /// Stores the vertex that waits, in the running one's place.
    fn store_rest(&mut self, field: &Field<B>, share: &mut Share<B>, d: u32) -> ChainTurn<B>
        requires of { IsOf field.now share.old }
        requires stage { self.old.stage ≡ stage.Rest d }
        requires goes { ChainMayGo B.view field.now self.old share.old }
        ensures same { IsSame share.old share.new }
        ensures turned { ChainPlays B.view field.now self.old self.new share.old share.new result }
    {
        let Some(r) = share.runs() else {
            unreachable!()
        };
        drop(field.trade(share, self.rest.take()));
        set_vertex(field, share, 2 * d + 1, 1, r.side, r.pair, r.finish, r.inc);
        self.stage = ChainStage::Body(d);
        ChainTurn::More
    }

    /// Makes the body's vertex ready, after which the share runs nothing.
    fn store_body(&mut self, field: &Field<B>, share: &mut Share<B>, d: u32) -> ChainTurn<B>
        requires of { IsOf field.now share.old }
        requires stage { self.old.stage ≡ stage.Body d }
        requires goes { ChainMayGo B.view field.now self.old share.old }
        ensures same { IsSame share.old share.new }
        ensures turned { ChainPlays B.view field.now self.old self.new share.old share.new result }
    {
        drop(field.trade(share, self.body.take()));
        set_vertex(field, share, 2 * d, 2, 0, d, d, d);
        ChainTurn::Done {
            body: 2 * d,
            rest: 2 * d + 1,
        }
    }
}
