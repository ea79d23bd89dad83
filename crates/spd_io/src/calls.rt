// Calls that are to fail, by their numbers.

ghost use Rattle.std.specs.Prelude.{◌≡◌, [], ◌∷◌, ◌++◌, OnOk, OnErr};
ghost use Rattle.spd_io.specs.Memory.{Calls, uncalled, to_fail, next_fails, after_call};

use spd_list::Seq;
use std::alloc::{AllocError, Global};
use std::marker::Model;

/// The number of calls that were made, and the numbers of those that are to fail, counted from 1.
#[derive(Drop)]
pub(crate) struct CallNumbers {
    made: u64,
    failing: Seq<u32>,
}

impl Model for CallNumbers {
    ghost Value = { Calls };

    ghost view = { λ calls. record { made = calls.made; failing = calls.failing } };
}

impl CallNumbers {
    /// No calls yet, of which none is to fail.
    pub(crate) fn new(alloc: Global) -> CallNumbers
        ensures { result ≡ uncalled }
    {
        CallNumbers {
            made: 0,
            failing: Seq::new(alloc),
        }
    }

    /// The call of a number is to fail.
    pub(crate) fn fail_at(&mut self, call: u32) -> Result<(), AllocError>
        ensures ok { OnOk result (self.new ≡ to_fail self.old call) }
        ensures err { OnErr result (self.new ≡ self.old) }
    {
        self.failing.push(call)
    }

    /// Counts a call, and answers whether it is to fail.
    pub(crate) fn count(&mut self) -> bool
        ensures answer { result ≡ next_fails self.old }
        ensures counted { self.new ≡ after_call self.old }
    {
        self.made = self.made.saturating_add(1);
        let made = self.made;
        self.failing
            .as_slice()
            .iter()
            .any(|call| u64::from(*call) == made)
    }
}
