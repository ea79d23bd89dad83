// How players are split off and joined, and how one of them closes the field.

use crate::notes::Notes;
use crate::player::Player;
use crate::stub::Stub;
use spd_rule::{Closed, Field};

impl Player {
    ghost use Rattle.std.specs.Prelude.{IfSome};
    ghost use Rattle.spd_rule.specs.Shares.{IsOf};

    /// A new player, which takes one of the spare seats. `None` where there is none.
    pub fn split(&mut self, field: &Field<Stub>) -> Option<Player>
        requires { IsOf field.now self.old.share }
        ensures same { IsOf field.now self.new.share }
        ensures other { IfSome result (λ player. IsOf field.now player.share) }
    {
        if self.share.spare() == 0 {
            return None;
        }
        let share = field.split(&mut self.share);
        Some(Player {
            share,
            notes: Notes::new(0),
            body: None,
        })
    }

    /// Takes over the other player's seats. `None`, and the other is let go, where that one has something in
    /// hand, has seen the moves full, or has yet to make.
    pub fn join(&mut self, field: &Field<Stub>, other: Player) -> Option<u64>
        requires of { IsOf field.now self.old.share }
        requires other { IsOf field.now other.share }
        ensures { IsOf field.now self.new.share }
    {
        let Player {
            share,
            notes,
            body: _,
        } = other;
        if !notes.is_idle() || notes.full != 0 || notes.fresh != 0 {
            return None;
        }
        if self.share.spare() > 64 || share.spare() > 64 - self.share.spare() {
            return None;
        }
        if notes.seats > 64 || self.notes.seats > 64 {
            return None;
        }
        field.join(&mut self.share, share);
        self.notes.seats += notes.seats;
        self.notes.made = 0;
        Some(0)
    }

    /// The field at its end. `None` where this player hasn't all seats.
    pub fn close(self, field: Field<Stub>) -> Option<Closed<Stub>>
        requires { IsOf field self.share }
    {
        let Player {
            share,
            notes,
            body: _,
        } = self;
        if notes.seats > 64 || u64::from(share.spare()) + notes.seats != 64 {
            return None;
        }
        Some(field.close(share))
    }
}
