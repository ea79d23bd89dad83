// The steps of a share that offers, faults, looks at what its finish has got, and ends the region.

use crate::player::Player;
use crate::stub::Stub;
use spd_rule::{Field, add_sum, lower_fault, raise_best, see_done, see_fault, see_sum, set_done};
use std::marker::Brand;

impl Player {
    ghost use Rattle.spd_rule.specs.Shares.{IsOf};

    /// Adds x to the gift word of its vertex's finish.
    pub fn add_sum(&mut self, field: &Field<Stub>, x: i64) -> Option<u64>
        requires { IsOf field.now self.old.share }
        ensures { IsOf field.now self.new.share }
    {
        let r = self.notes.working()?;
        if r.finish >= field.plan().moves() {
            return None;
        }
        let found = add_sum::<Stub, Brand>(field, &mut self.share, r.finish, x);
        Some(found)
    }

    /// Puts the word of a value in that word where it is greater.
    pub fn raise_best(&mut self, field: &Field<Stub>, x: u64) -> Option<u64>
        requires { IsOf field.now self.old.share }
        ensures { IsOf field.now self.new.share }
    {
        let r = self.notes.working()?;
        if r.finish >= field.plan().moves() {
            return None;
        }
        let found = raise_best::<Stub, Brand>(field, &mut self.share, r.finish, x);
        Some(found)
    }

    /// Puts a code in the fault word of its vertex's finish where it is less. After 0 it isn't hurt any more.
    pub fn lower_fault(&mut self, field: &Field<Stub>, code: u64) -> Option<u64>
        requires { IsOf field.now self.old.share }
        ensures { IsOf field.now self.new.share }
    {
        let r = self.notes.paying()?;
        if r.finish >= field.plan().moves() {
            return None;
        }
        let found = lower_fault::<Stub, Brand>(field, &mut self.share, r.finish, code);
        self.notes = self.notes.lowered(code);
        Some(found)
    }

    /// Looks at the gift word of the finish d.
    pub fn see_sum(&mut self, field: &Field<Stub>, d: u32) -> Option<u64>
        requires { IsOf field.now self.old.share }
        ensures { IsOf field.now self.new.share }
    {
        if d >= field.plan().moves() {
            return None;
        }
        let found = see_sum(field, &mut self.share, d);
        Some(found)
    }

    /// Looks at the fault word of the finish d. Where its vertex was to collect that, it has, and is hurt by 0.
    pub fn see_fault(&mut self, field: &Field<Stub>, d: u32) -> Option<u64>
        requires { IsOf field.now self.old.share }
        ensures { IsOf field.now self.new.share }
    {
        if d >= field.plan().moves() {
            return None;
        }
        let found = see_fault(field, &mut self.share, d);
        self.notes = self.notes.looked(d, found);
        Some(found)
    }

    /// Ends the region, as the share that runs vertex 1.
    pub fn set_done(&mut self, field: &Field<Stub>) -> Option<u64>
        requires { IsOf field.now self.old.share }
        ensures { IsOf field.now self.new.share }
    {
        let end = self.notes.ending()?;
        let _ = end;
        set_done(field, &mut self.share);
        self.notes.running = None;
        Some(0)
    }

    /// Looks at the word of the end.
    pub fn see_done(&mut self, field: &Field<Stub>) -> Option<u64>
        requires { IsOf field.now self.old.share }
        ensures { IsOf field.now self.new.share }
    {
        let found = see_done(field, &mut self.share);
        Some(found)
    }
}
