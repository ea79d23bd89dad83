// What a check refuses, and where.

ghost use Rattle.std.specs.Prelude.{◌≡◌};
ghost use Rattle.spd_check.specs.declared.faults.CheckKind.TheVariants.{NoMemory};
ghost use Rattle.spd_check.specs.Faults.{Passes, fault_unless};

use std::alloc::{AllocError, AllocFailed};
use thiserror::Error;

/// What a program is refused for.
#[derive(Clone, Copy, Debug, PartialEq, Eq)]
pub enum CheckKind {
    /// A variable isn't visible, or there is no column, function or task of a name.
    Unknown,
    /// A parameter or the name of a `let` or `for` is visible already, or an item declares a name
    /// again: a column or lines item that of another, a function or task that of another, or a second main.
    Twice,
    /// A function or a task takes another number of arguments.
    Arity,
    /// An `async` or a `run` stands in no finish or async block and in no task.
    AsyncOutside,
    /// An `offer` stands so.
    OfferOutside,
    /// A `print` stands outside main, or in a finish or async block.
    PrintPlace,
    /// A `return` stands outside a function, or in a finish or async block.
    ReturnPlace,
    /// A variable is assigned that was declared outside the innermost finish or async block.
    AssignOuter,
    /// An entry is read as a number of a column of texts or lines, or as a text of a column of numbers.
    ColumnKind,
    /// There is no main.
    NoMain,
    /// The block of a function ends in neither a `return` nor an `if` whose two blocks return.
    NoReturn,
    /// Memory ran out, or a number doesn't fit 32 bits.
    NoMemory,
}

/// Why a program is refused, with the line of the statement, or that of the item for an item, a
/// parameter and `NoReturn`. For `NoMain` it is the line of the program's last token, and for
/// `NoMemory` it is 0.
#[derive(Clone, Copy, Debug, PartialEq, Eq, Drop, Error)]
#[error("line {line}: {kind:?}")]
pub struct CheckFault {
    pub line: u32,
    pub kind: CheckKind,
}

/// The fault of a kind at a line, unless something holds.
pub(crate) fn unless(holds: bool, line: u32, kind: CheckKind) -> Result<(), CheckFault>
    ensures { Passes result (fault_unless holds line kind) }
{
    if !holds {
        return Err(CheckFault { line, kind });
    }
    Ok(())
}

impl From<AllocError> for CheckFault {
    ghost from_gives = { λ _ fault. fault.kind ≡ NoMemory };

    fn from(_: AllocError) -> CheckFault {
        CheckFault {
            line: 0,
            kind: CheckKind::NoMemory,
        }
    }
}

impl<T: Drop> From<AllocFailed<T>> for CheckFault {
    ghost from_gives = { λ _ fault. fault.kind ≡ NoMemory };

    fn from(_: AllocFailed<T>) -> CheckFault {
        CheckFault {
            line: 0,
            kind: CheckKind::NoMemory,
        }
    }
}
