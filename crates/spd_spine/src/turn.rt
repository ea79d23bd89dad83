// How main goes on, ends and stops.

ghost use Rattle.std.specs.Prelude.{◌≡◌};
ghost use Rattle.spd_spine.specs.declared.turn.RunError.TheVariants.{NoMemory, WriteFailed};

use spd_io::Stopped;
use spd_machine::Job;
use std::alloc::{AllocError, AllocFailed};

/// What main comes to next.
#[derive(Drop)]
pub enum SpineTurn<'a> {
    /// A finish or a call, which the caller runs.
    Region(Job<'a>),
    /// Main's end.
    Done,
    /// Main's end, with the code of its fault.
    Fault(u64),
    /// The sink for the output failed.
    Stopped,
    NoMemory,
}

/// How main ended.
#[derive(Clone, Copy, Debug, PartialEq, Eq)]
pub enum End {
    Done,
    /// The code of a fault.
    Fault(u64),
}

/// Why main stopped before its end.
#[derive(Clone, Copy, Debug, PartialEq, Eq)]
pub enum RunError {
    /// The sink for the output failed.
    WriteFailed,
    NoMemory,
}

impl From<AllocError> for RunError {
    ghost from_gives = { λ _ e. e ≡ NoMemory };

    fn from(_e: AllocError) -> RunError {
        RunError::NoMemory
    }
}

impl<T: Drop> From<AllocFailed<T>> for RunError {
    ghost from_gives = { λ _ e. e ≡ NoMemory };

    fn from(_e: AllocFailed<T>) -> RunError {
        RunError::NoMemory
    }
}

impl From<Stopped> for RunError {
    ghost from_gives = { λ _ e. e ≡ WriteFailed };

    fn from(_e: Stopped) -> RunError {
        RunError::WriteFailed
    }
}
