// The vertices of a move in flight, stored one by one, each with its body.

ghost use Rattle.spd_rule.specs.Kept.{IsFit};
ghost use Rattle.spd_rule_tests.specs.Stubs.{stub_view};

use crate::player::Player;
use crate::stub::Stub;
use spd_rule::{Field, set_vertex};
use spd_state::{Draw, Flight};

impl Player {
    ghost use Rattle.spd_rule.specs.Shares.{IsOf};

    /// Stores vertex 1 of a make, which has no body.
    pub fn store_end(&mut self, field: &Field<Stub>) -> Option<u64>
        requires { IsOf field.now self.old.share }
        ensures { IsOf field.now self.new.share }
    {
        let d = self.notes.making(2)?;
        if d != 0 {
            return None;
        }
        let _ = field.trade(&mut self.share, None);
        set_vertex(field, &mut self.share, 1, 1, 0, 0, 0, 0);
        self.notes.flight = Some(Flight {
            draw: Draw::Make,
            number: 0,
            finish: 0,
            stage: 3,
        });
        Some(0)
    }

    /// Stores the waiting vertex of a chain, which takes the place of the running one.
    pub fn store_rest(&mut self, field: &Field<Stub>, body: Stub) -> Option<u64>
        requires of { IsOf field.now self.old.share }
        requires fit { IsFit (stub_view body) }
        ensures { IsOf field.now self.new.share }
    {
        let d = self.notes.chaining(2)?;
        let mut r = self.notes.working()?;
        let moves = field.plan().moves();
        if d >= moves || r.pair >= moves || r.finish >= moves || r.inc >= moves {
            return None;
        }
        let _ = field.trade(&mut self.share, Some(body));
        set_vertex(
            field,
            &mut self.share,
            2 * d + 1,
            1,
            r.side,
            r.pair,
            r.finish,
            r.inc,
        );
        r.right = 0;
        self.notes.running = Some(r);
        self.notes.flight = Some(Flight {
            draw: Draw::Chain,
            number: d,
            finish: d,
            stage: 3,
        });
        Some(0)
    }

    /// Stores the body of a make.
    pub fn store_first(&mut self, field: &Field<Stub>, body: Stub) -> Option<u64>
        requires of { IsOf field.now self.old.share }
        requires fit { IsFit (stub_view body) }
        ensures { IsOf field.now self.new.share }
    {
        let d = self.notes.making(3)?;
        if d >= field.plan().moves() || self.notes.made != 1 {
            return None;
        }
        let _ = field.trade(&mut self.share, Some(body));
        set_vertex(field, &mut self.share, 2 * d, 2, 0, d, d, d);
        self.notes.running = None;
        self.notes.flight = None;
        Some(0)
    }

    /// Stores the body of a chain.
    pub fn store_body(&mut self, field: &Field<Stub>, body: Stub) -> Option<u64>
        requires of { IsOf field.now self.old.share }
        requires fit { IsFit (stub_view body) }
        ensures { IsOf field.now self.new.share }
    {
        let d = self.notes.chaining(3)?;
        if d >= field.plan().moves() || self.notes.wild == 0 {
            return None;
        }
        let _ = field.trade(&mut self.share, Some(body));
        set_vertex(field, &mut self.share, 2 * d, 2, 0, d, d, d);
        self.notes.running = None;
        self.notes.flight = None;
        Some(0)
    }

    /// Stores the left vertex of a spawn.
    pub fn store_left(&mut self, field: &Field<Stub>, body: Stub) -> Option<u64>
        requires of { IsOf field.now self.old.share }
        requires fit { IsFit (stub_view body) }
        ensures { IsOf field.now self.new.share }
    {
        let (d, finish) = self.notes.spawning(2)?;
        let inc = self.notes.known_inc(finish)?;
        let moves = field.plan().moves();
        if d >= moves || finish >= moves || inc >= moves {
            return None;
        }
        let _ = field.trade(&mut self.share, Some(body));
        set_vertex(field, &mut self.share, 2 * d, 2, 0, d, finish, inc);
        self.notes.flight = Some(Flight {
            draw: Draw::Spawn,
            number: d,
            finish,
            stage: 3,
        });
        Some(0)
    }

    /// Stores the right vertex of a spawn.
    pub fn store_right(&mut self, field: &Field<Stub>, body: Stub) -> Option<u64>
        requires of { IsOf field.now self.old.share }
        requires fit { IsFit (stub_view body) }
        ensures { IsOf field.now self.new.share }
    {
        let (d, finish) = self.notes.spawning(3)?;
        let inc = self.notes.known_inc(finish)?;
        let moves = field.plan().moves();
        if d >= moves || finish >= moves || inc >= moves {
            return None;
        }
        let _ = field.trade(&mut self.share, Some(body));
        set_vertex(field, &mut self.share, 2 * d + 1, 2, 1, d, finish, inc);
        self.notes.running = None;
        self.notes.flight = None;
        Some(0)
    }
}
