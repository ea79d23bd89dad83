// What reading answers: a value with the tokens that are left, or where it stops.

ghost use Rattle.std.specs.Prelude.{◌≡◌};
ghost use Rattle.spd_read.specs.declared.reading.ReadError.TheVariants.{NoMemory};

use spd_syntax::Token;
use std::alloc::{AllocError, AllocFailed};

/// What is wrong with a token.
#[derive(Clone, Copy, Debug, PartialEq, Eq)]
pub enum StopKind {
    /// The tokens before it begin a program, and those with it begin none.
    Expected,
    /// A number that is too great.
    Literal,
    /// An opening bracket where too many are open.
    TooDeep,
}

/// Why tokens were not read: a fault has the tokens from the faulty one on.
#[derive(Debug, Drop)]
pub enum ReadError<'a> {
    NoMemory,
    Fault(StopKind, &'a [Token]),
}

impl<'a> From<AllocError> for ReadError<'a> {
    ghost from_gives = { λ _ e. e ≡ NoMemory };

    fn from(_e: AllocError) -> ReadError<'a> {
        ReadError::NoMemory
    }
}

impl<'a, T: Drop> From<AllocFailed<T>> for ReadError<'a> {
    ghost from_gives = { λ _ e. e ≡ NoMemory };

    fn from(_e: AllocFailed<T>) -> ReadError<'a> {
        ReadError::NoMemory
    }
}

/// What was read, and the tokens that are left.
pub type Read<'a, T> = Result<(T, &'a [Token]), ReadError<'a>>;
