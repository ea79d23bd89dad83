// A share with notes of what it knows: each step is taken only where the notes allow it.

ghost use Rattle.std.specs.Prelude.{◌≡◌, []};
ghost use Rattle.spd_rule.specs.Shares.{share_known};
ghost use Rattle.spd_rule_tests.specs.Notes.{is_chain};
ghost use Rattle.spd_rule_tests.specs.Ties.{Ties};

use crate::notes::Notes;
use crate::stub::Stub;
use spd_rule::{Field, Share, draw_move, set_pair, set_root};
use spd_state::{Draw, Flight};
use std::marker::Brand;

/// A share of a field of stubs, with notes of what it knows. Each step answers `None`, and isn't taken, where
/// the notes don't allow it; else what the step answered, or 0 where it answers nothing.
#[derive(Drop)]
pub struct Player {
    pub(crate) share: Share<Stub>,
    pub(crate) notes: Notes,
    /// The body that it took out of the slot of the vertex that it started last.
    pub(crate) body: Option<Stub>,
    ghost ties: { Ties (share_known share) notes },
}

impl Player {
    ghost use Rattle.spd_rule.specs.Shares.{IsOf};
    ghost use Rattle.spd_state.specs.Seats.{first_view};

    /// The player of a new field.
    pub fn first(share: Share<Stub>) -> Player
        requires { share_known share ≡ (first_view, []) }
        ensures { result.share ≡ share }
    {
        Player {
            share,
            notes: Notes::new(1),
            body: None,
        }
    }

    /// Draws the move of a make.
    pub fn draw_make(&mut self, field: &Field<Stub>) -> Option<u64>
        requires { IsOf field.now self.old.share }
        ensures { IsOf field.now self.new.share }
    {
        if !self.notes.may_make() {
            return None;
        }
        let found = draw_move::<Stub, Brand>(field, &mut self.share, Draw::Make);
        if found < u64::from(field.plan().moves()) {
            let number = found as u32;
            self.notes.fresh = 0;
            self.notes.made = 1;
            self.notes.flight = Some(Flight {
                draw: Draw::Make,
                number,
                finish: number,
                stage: 0,
            });
        } else {
            self.notes.full = 1;
        }
        Some(found)
    }

    /// Draws the move of a chain.
    pub fn draw_chain(&mut self, field: &Field<Stub>) -> Option<u64>
        requires { IsOf field.now self.old.share }
        ensures { IsOf field.now self.new.share }
    {
        let _running = self.notes.drawing()?;
        let found = draw_move::<Stub, Brand>(field, &mut self.share, Draw::Chain);
        if found < u64::from(field.plan().moves()) {
            let number = found as u32;
            self.notes.flight = Some(Flight {
                draw: Draw::Chain,
                number,
                finish: number,
                stage: 0,
            });
        } else {
            self.notes.full = 1;
        }
        Some(found)
    }

    /// Draws the move of a spawn.
    pub fn draw_spawn(&mut self, field: &Field<Stub>) -> Option<u64>
        requires { IsOf field.now self.old.share }
        ensures { IsOf field.now self.new.share }
    {
        let running = self.notes.drawing()?;
        let found = draw_move::<Stub, Brand>(field, &mut self.share, Draw::Spawn);
        if found < u64::from(field.plan().moves()) {
            self.notes.flight = Some(Flight {
                draw: Draw::Spawn,
                number: found as u32,
                finish: running.finish,
                stage: 0,
            });
        } else {
            self.notes.full = 1;
        }
        Some(found)
    }

    /// Sets the root of a make or a chain.
    pub fn set_root(&mut self, field: &Field<Stub>) -> Option<u64>
        requires { IsOf field.now self.old.share }
        ensures { IsOf field.now self.new.share }
    {
        let (draw, d) = self.notes.opening(0)?;
        if self.notes.wild == 0 && draw_is_chain(draw) {
            return None;
        }
        set_root::<Stub, Brand>(field, &mut self.share, d);
        self.notes.flight = Some(Flight {
            draw,
            number: d,
            finish: d,
            stage: 1,
        });
        self.notes.rooted = Some(d);
        self.notes.knows = false;
        Some(0)
    }

    /// Sets the pair of a make or a chain, with its root as the only handle.
    pub fn set_handle(&mut self, field: &Field<Stub>) -> Option<u64>
        requires { IsOf field.now self.old.share }
        ensures { IsOf field.now self.new.share }
    {
        let (draw, d) = self.notes.opening(1)?;
        if d >= field.plan().moves() {
            return None;
        }
        set_pair::<Stub, Brand, Brand>(field, &mut self.share, d, 1, 0, d, 0);
        self.notes.flight = Some(Flight {
            draw,
            number: d,
            finish: d,
            stage: 2,
        });
        self.notes.rooted = None;
        Some(0)
    }

    /// Sets the pair of a spawn, with the claimed unit and the other one as its handles.
    pub fn set_handles(&mut self, field: &Field<Stub>) -> Option<u64>
        requires { IsOf field.now self.old.share }
        ensures { IsOf field.now self.new.share }
    {
        let (d, finish) = self.notes.spawning(0)?;
        let (first, second) = self.notes.handles(finish)?;
        let moves = field.plan().moves();
        if d >= moves || first >= moves || second >= moves {
            return None;
        }
        set_pair::<Stub, Brand, Brand>(field, &mut self.share, d, 2, 0, first, second);
        self.notes.flight = Some(Flight {
            draw: Draw::Spawn,
            number: d,
            finish,
            stage: 2,
        });
        self.notes.held = None;
        self.notes.claimed = None;
        Some(0)
    }
}

/// Whether it is that of a chain.
fn draw_is_chain(draw: Draw) -> bool
    ensures { result ≡ is_chain draw }
{
    matches!(draw, Draw::Chain)
}
