// What a finish has collected so far, and what it gives at its end.

ghost use Rattle.std.specs.Prelude.{◌≡◌, min};
ghost use Rattle.spd_words.specs.Gift.{join};
ghost use Rattle.spd_words.specs.Total.{begun, total_of, ended, settle};

use crate::finish_kind::{FinishKind, NO_FAULT};

/// What a finish of this kind has collected so far: the one place that joins gifts and keeps the
/// least fault.
#[derive(Clone, Copy, PartialEq, Eq, Debug)]
pub struct Tally {
    pub kind: FinishKind,
    /// What its offers make together.
    pub gift: i64,
    /// The least code of a fault, or `NO_FAULT`.
    pub fault: u64,
}

/// What a finish gives at its end: its gift, and the least code of a fault or `NO_FAULT`.
#[derive(Clone, Copy, PartialEq, Eq, Debug)]
pub struct Given {
    pub gift: i64,
    pub fault: u64,
}

impl Tally {
    /// A finish to which nothing was given.
    pub fn new(kind: FinishKind) -> Tally
        ensures { result ≡ begun kind }
    {
        Tally {
            kind,
            gift: kind.identity(),
            fault: NO_FAULT,
        }
    }

    /// Takes a value that is offered.
    pub fn offer(&mut self, value: i64)
        ensures { self.new ≡ record self.old { gift = join self.old.kind self.old.gift value } }
    {
        self.gift = self.kind.join(self.gift, value);
    }

    /// Takes the code of a fault; `NO_FAULT` changes nothing.
    pub fn fault(&mut self, code: u64)
        ensures { self.new ≡ record self.old { fault = min self.old.fault code } }
    {
        self.fault = self.fault.min(code);
    }

    /// What leaves the finish where nothing more is given to it.
    pub fn given(&self) -> Given
        ensures { ended result ≡ settle (total_of self.now) }
    {
        Given {
            gift: self.gift,
            fault: self.fault,
        }
    }
}
