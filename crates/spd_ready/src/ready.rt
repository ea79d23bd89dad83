// A worker's handle on the ready vertices.

ghost use Rattle.std.specs.Prelude.{◌≡◌, ◌<◌, ◌≤◌, ◌+◌, ℕ, List};
ghost use Rattle.std.specs.List.{AllZip};
ghost use Rattle.spd_count.specs.Counts.{Raised};
ghost use Rattle.spd_ready.specs.declared.lane.Take.TheVariants.{Empty, Got};

use crate::lane::Take;
use std::sync::Wait;

/// A worker's handle on the ready vertices of a region. It may push as many as its room says.
pub trait Ready: Send {
    ghost room: { Self → ℕ };

    ghost pushed: { Self → ℕ };

    // how often each of its lanes was found empty, its own lane first
    ghost looks: { Self → List ℕ };

    /// Hands a vertex to the workers. It takes no memory.
    fn push<R: Wait>(&mut self, rt: &R, vertex: u32)
        requires { pushed self.old < room self.old }
        ensures pushed { pushed self.new ≡ pushed self.old + 1 }
        ensures room { room self.new ≡ room self.old }
        ensures looks { looks self.new ≡ looks self.old };

    /// Takes a vertex. `Empty` comes only where each lane was looked at and had nothing; no count of empty
    /// looks falls. It takes no memory.
    fn take<R: Wait>(&mut self, rt: &R) -> Take
        ensures empty { result ≡ Empty → AllZip Raised (looks self.old) (looks self.new) }
        ensures never_fall { AllZip (λ before now. before ≤ now) (looks self.old) (looks self.new) }
        ensures pushed { pushed self.new ≡ pushed self.old }
        ensures room { room self.new ≡ room self.old };
}
