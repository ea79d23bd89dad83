// The calls of `spd_book`, by a player: it offers, faults and collects.

use crate::player::Player;
use crate::stub::Stub;
use spd_book::{Collected, collect, fault, offer};
use spd_rule::Field;
use spd_words::FinishKind;
use std::marker::Brand;

impl Player {
    ghost use Rattle.spd_rule.specs.Shares.{IsOf};

    /// Puts the value to its vertex's finish, as to one of this kind.
    pub fn offer(&mut self, field: &Field<Stub>, kind: FinishKind, value: i64) -> Option<u64>
        requires { IsOf field.now self.old.share }
        ensures { IsOf field.now self.new.share }
    {
        let _running = self.notes.giving()?;
        offer::<Stub, Brand>(field, &mut self.share, kind, value);
        Some(0)
    }

    /// Puts the code of a fault to its vertex's finish. After 0 it isn't hurt any more.
    pub fn fault(&mut self, field: &Field<Stub>, code: u64) -> Option<u64>
        requires { IsOf field.now self.old.share }
        ensures { IsOf field.now self.new.share }
    {
        let _running = self.notes.giving()?;
        fault::<Stub, Brand>(field, &mut self.share, code);
        self.notes = self.notes.lowered(code);
        Some(0)
    }

    /// Collects the finish d of this kind, for which its vertex waits. It is hurt by the code 0.
    pub fn collect(&mut self, field: &Field<Stub>, d: u32, kind: FinishKind) -> Option<Collected>
        requires { IsOf field.now self.old.share }
        ensures { IsOf field.now self.new.share }
    {
        if d >= field.plan().moves() {
            return None;
        }
        let _running = self.notes.collecting(d, kind)?;
        let collected = collect(field, &mut self.share, d, kind);
        self.notes = self.notes.looked(d, collected.fault);
        Some(collected)
    }
}
