// A spawn: the running vertex becomes two that are ready.

ghost use Rattle.std.specs.Prelude.{◌≡◌};
ghost use Rattle.spd_rule.specs.Shares.{IsOf, IsSame};

use crate::drawing::draw_or_see;
use crate::handle::next_of;
use crate::telling::set_pair_of;
use spd_rule::{Field, Share, add_root, claim, set_vertex};
use spd_state::Draw;
use spd_words::Body;
use std::marker::Brand;

/// What a spawn steps on next, with the number of its move: the number of moves, the root where it
/// arrives, the running vertex's pair, the move's pair (with the claimed handle), and the two vertices.
#[derive(Clone, Copy)]
pub(crate) enum SpawnStage {
    Draw,
    Arrive(u32),
    Claim(u32),
    Pair(u32, u32),
    Left(u32),
    Right(u32),
}

/// A spawn under way: the running vertex becomes two of its finish, which go on beside each other. With
/// flat counters it takes at most six turns.
#[derive(Drop)]
pub struct SpawnCall<B> {
    pub(crate) body: Option<B>,
    pub(crate) rest: Option<B>,
    pub(crate) stage: SpawnStage,
}

/// What a turn of a spawn answers.
#[derive(Drop)]
pub enum SpawnTurn<B> {
    /// There is another turn.
    More,
    /// The vertices `left`, with the body, and `right`, with the rest, are ready. The share runs nothing.
    Done { left: u32, right: u32 },
    /// `drawn` moves were drawn, at least those of the plan. The bodies come back, and the share still
    /// runs its vertex.
    Full { drawn: u64, body: B, rest: B },
}

impl<B: Body> SpawnCall<B> {
    ghost use Rattle.spd_dag.specs.Spawns.{SpawnBegins, SpawnMayGo, SpawnPlays};
    ghost use Rattle.spd_dag.specs.declared.spawn.SpawnStage.TheVariants as stage;

    /// A spawn by the share's running vertex: `body` may run beside `rest`, for the same finish.
    pub fn new(body: B, rest: B) -> SpawnCall<B>
        ensures { SpawnBegins B.view body rest result }
    {
        SpawnCall {
            body: Some(body),
            rest: Some(rest),
            stage: SpawnStage::Draw,
        }
    }

    /// Takes the next step: at most six turns come, of which each makes one access to one word.
    pub fn turn(&mut self, field: &Field<B>, share: &mut Share<B>) -> SpawnTurn<B>
        requires of { IsOf field.now share.old }
        requires goes { SpawnMayGo B.view field.now self.old share.old }
        ensures same { IsSame share.old share.new }
        ensures turned { SpawnPlays B.view field.now self.old self.new share.old share.new result }
    {
        match self.stage {
            SpawnStage::Draw => self.draw(field, share),
            SpawnStage::Arrive(d) => self.arrive(field, share, d),
            SpawnStage::Claim(d) => self.claim(field, share, d),
            SpawnStage::Pair(d, first) => self.pair(field, share, d, first),
            SpawnStage::Left(d) => self.store_left(field, share, d),
            SpawnStage::Right(d) => self.store_right(field, share, d),
        }
    }

    /// Draws the move. Where none is left, the bodies go back.
    fn draw(&mut self, field: &Field<B>, share: &mut Share<B>) -> SpawnTurn<B>
        requires of { IsOf field.now share.old }
        requires stage { self.old.stage ≡ stage.Draw }
        requires goes { SpawnMayGo B.view field.now self.old share.old }
        ensures same { IsSame share.old share.new }
        ensures turned { SpawnPlays B.view field.now self.old self.new share.old share.new result }
    {
        let drawn = draw_or_see(field, share, Draw::Spawn);
        if drawn < u64::from(field.plan().moves()) {
            self.stage = SpawnStage::Arrive(drawn as u32);
            return SpawnTurn::More;
        }
        let Some(body) = self.body.take() else {
            unreachable!()
        };
        let Some(rest) = self.rest.take() else {
            unreachable!()
        };
        SpawnTurn::Full { drawn, body, rest }
    }

    /// Arrives at the root of the running vertex's finish, so that there is a unit for each of the two.
    fn arrive(&mut self, field: &Field<B>, share: &mut Share<B>, d: u32) -> SpawnTurn<B>
        requires of { IsOf field.now share.old }
        requires stage { self.old.stage ≡ stage.Arrive d }
        requires goes { SpawnMayGo B.view field.now self.old share.old }
        ensures same { IsSame share.old share.new }
        ensures turned { SpawnPlays B.view field.now self.old self.new share.old share.new result }
    {
        let Some(r) = share.runs() else {
            unreachable!()
        };
        add_root(field, share, r.inc);
        self.stage = SpawnStage::Claim(d);
        SpawnTurn::More
    }

    /// Claims a handle of the running vertex's pair, which becomes the first one of the move's pair.
    fn claim(&mut self, field: &Field<B>, share: &mut Share<B>, d: u32) -> SpawnTurn<B>
        requires of { IsOf field.now share.old }
        requires stage { self.old.stage ≡ stage.Claim d }
        requires goes { SpawnMayGo B.view field.now self.old share.old }
        ensures same { IsSame share.old share.new }
        ensures turned { SpawnPlays B.view field.now self.old self.new share.old share.new result }
    {
        let pair = claim(field, share);
        self.stage = SpawnStage::Pair(d, next_of(pair));
        SpawnTurn::More
    }

    /// Gives both units to the move's pair.
    fn pair(&mut self, field: &Field<B>, share: &mut Share<B>, d: u32, first: u32) -> SpawnTurn<B>
        requires of { IsOf field.now share.old }
        requires stage { self.old.stage ≡ stage.Pair d first }
        requires goes { SpawnMayGo B.view field.now self.old share.old }
        ensures same { IsSame share.old share.new }
        ensures turned { SpawnPlays B.view field.now self.old self.new share.old share.new result }
    {
        let Some(r) = share.runs() else {
            unreachable!()
        };
        let Some(body) = &self.body else {
            unreachable!()
        };
        let Some(rest) = &self.rest else {
            unreachable!()
        };
        set_pair_of::<B, Brand, Brand>(field, share, d, first, r.inc, body, rest);
        self.stage = SpawnStage::Left(d);
        SpawnTurn::More
    }

    /// Makes the left vertex ready, with the body.
    fn store_left(&mut self, field: &Field<B>, share: &mut Share<B>, d: u32) -> SpawnTurn<B>
        requires of { IsOf field.now share.old }
        requires stage { self.old.stage ≡ stage.Left d }
        requires goes { SpawnMayGo B.view field.now self.old share.old }
        ensures same { IsSame share.old share.new }
        ensures turned { SpawnPlays B.view field.now self.old self.new share.old share.new result }
    {
        let Some(r) = share.runs() else {
            unreachable!()
        };
        drop(field.trade(share, self.body.take()));
        set_vertex(field, share, 2 * d, 2, 0, d, r.finish, r.inc);
        self.stage = SpawnStage::Right(d);
        SpawnTurn::More
    }

    /// Makes the right vertex ready, with the rest, after which the share runs nothing.
    fn store_right(&mut self, field: &Field<B>, share: &mut Share<B>, d: u32) -> SpawnTurn<B>
        requires of { IsOf field.now share.old }
        requires stage { self.old.stage ≡ stage.Right d }
        requires goes { SpawnMayGo B.view field.now self.old share.old }
        ensures same { IsSame share.old share.new }
        ensures turned { SpawnPlays B.view field.now self.old self.new share.old share.new result }
    {
        let Some(r) = share.runs() else {
            unreachable!()
        };
        drop(field.trade(share, self.rest.take()));
        set_vertex(field, share, 2 * d + 1, 2, 1, d, r.finish, r.inc);
        SpawnTurn::Done {
            left: 2 * d,
            right: 2 * d + 1,
        }
    }
}
