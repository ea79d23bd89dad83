// How workers are split off and joined, and how one of them closes the field.

ghost use Rattle.std.specs.Prelude.{IfSome};
ghost use Rattle.spd_fork.specs.Places.{IsAt};

use crate::piece::Piece;
use crate::stage::Stage;
use crate::worker::Worker;
use spd_rule::{Closed, Field};

/// The seats of a field.
const SEATS: u64 = 64;

impl Worker {
    /// Another worker, with one of the spare seats. `None` where there is none, or this one doesn't rest.
    pub fn split(&mut self, field: &Field<Piece>) -> Option<Worker>
        requires { IsAt field.now self.old }
        ensures same { IsAt field.now self.new }
        ensures other { IfSome result (λ w. IsAt field.now w) }
    {
        if !self.rests() || self.share.spare() == 0 {
            return None;
        }
        let share = field.split(&mut self.share);
        Some(Worker {
            share,
            stage: Stage::Rests,
            seats: 1,
        })
    }

    /// Takes over the seats of a worker that rests. `false`, and the other is let go, where that one doesn't
    /// rest, or this one neither rests nor ends.
    pub fn join(&mut self, field: &Field<Piece>, other: Worker) -> bool
        requires this { IsAt field.now self.old }
        requires other { IsAt field.now other }
        ensures { IsAt field.now self.new }
    {
        let spares = u64::from(self.share.spare()) + u64::from(other.share.spare());
        if !other.rests() || spares > SEATS || self.seats > SEATS || other.seats > SEATS {
            return false;
        }
        if self.rests() || self.ends() {
            let Worker {
                share,
                stage,
                seats,
            } = other;
            drop(stage);
            field.join(&mut self.share, share);
            self.seats += seats;
            return true;
        }
        false
    }

    /// The field at its end. `None` where this worker hasn't all seats.
    pub fn close(self, field: Field<Piece>) -> Option<Closed<Piece>>
        requires { IsAt field self }
    {
        let Worker {
            share,
            stage,
            seats,
        } = self;
        drop(stage);
        if seats > SEATS || u64::from(share.spare()) + seats != SEATS {
            return None;
        }
        Some(field.close(share))
    }
}
