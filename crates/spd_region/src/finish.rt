// A finish that goes on: what it has collected, and how many of its vertices haven't ended.

ghost use Rattle.std.specs.Prelude.{◌≡◌, ◌+◌, ◌-◌, ◌<◌, ◌^◌, ◌↔◌, IsTrue};
ghost use Rattle.spd_region.specs.Dag.{begun_finish};

use spd_words::{FinishKind, Tally};

/// A finish, with what it has collected.
#[derive(Clone, Copy)]
pub(crate) struct Finish {
    pub(crate) tally: Tally,
    /// How many of its vertices haven't ended, whether they are ready or wait.
    pub(crate) in_counter: usize,
}

impl Finish {
    /// A finish with one vertex, to which nothing has been given yet.
    pub(crate) fn new(kind: FinishKind) -> Finish
        ensures { result ≡ begun_finish kind }
    {
        Finish {
            tally: Tally::new(kind),
            in_counter: 1,
        }
    }

    /// One more vertex hasn't ended.
    pub(crate) fn arrive(&mut self)
        requires { self.old.in_counter + 1 < 2 ^ 64 }
        ensures { self.new ≡ record self.old { in_counter = self.old.in_counter + 1 } }
    {
        self.in_counter += 1;
    }

    /// One of its vertices has ended. It says whether that was the last.
    pub(crate) fn depart(&mut self) -> bool
        requires { 0 < self.old.in_counter }
        ensures count { self.new ≡ record self.old { in_counter = self.old.in_counter - 1 } }
        ensures last { IsTrue result ↔ (self.old.in_counter ≡ 1) }
    {
        self.in_counter -= 1;
        self.in_counter == 0
    }
}
