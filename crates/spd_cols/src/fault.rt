// What data files are refused for.

ghost use Rattle.std.specs.Prelude.{◌≡◌, ◌+◌};
ghost use Rattle.spd_cols.specs.Columns.{most_entries};
ghost use Rattle.spd_cols.specs.Loading.{refusal_of};
ghost use Rattle.spd_cols.specs.declared.fault.DataKind.TheVariants.{NoMemory, TooMany};

use std::alloc::AllocError;
use thiserror::Error;

/// The most entries of a column.
pub(crate) const MAX_ENTRIES: u32 = 1_000_000;

/// What a file of data is refused for.
#[derive(Clone, Copy, Debug, PartialEq, Eq)]
pub enum DataKind {
    /// The file has more than 67,108,864 bytes. The row is 0.
    TooLong,
    /// No field of the header has the name, or there is no header. The row is 0.
    NoField,
    /// A record has another number of fields than the header.
    Ragged,
    /// There are more than 1,000,000 entries. The row is 1,000,001.
    TooMany,
    /// A cell of an int column is no number from -2^63 to 2^63 - 1, of an optional `-` and digits.
    NotInt,
    /// Memory ran out. The row is 0.
    NoMemory,
}

/// Why a file of data is refused, with the number of the record, counted from 1 behind the header.
#[derive(Clone, Copy, Debug, PartialEq, Eq, Drop, Error)]
#[error("row {row}: {kind:?}")]
pub struct DataFault {
    pub row: u32,
    pub kind: DataKind,
}

/// The fault of more than 1,000,000 entries.
pub(crate) fn too_many() -> DataFault
    ensures { result ≡ record { row = most_entries + 1; kind = TooMany } }
{
    DataFault {
        row: MAX_ENTRIES + 1,
        kind: DataKind::TooMany,
    }
}

impl From<AllocError> for DataFault {
    ghost from_gives = { λ _ fault. fault.kind ≡ NoMemory };

    fn from(_: AllocError) -> DataFault {
        DataFault {
            row: 0,
            kind: DataKind::NoMemory,
        }
    }
}

/// Why the columns of a program were not loaded. Columns are numbered from 0, in the order of their
/// declarations.
#[derive(Clone, Copy, Debug, PartialEq, Eq, Drop, Error)]
pub enum LoadFault {
    /// The file of a column can't be read.
    #[error("the file of column {column} can't be read")]
    Failed { column: u32 },
    /// The file of a column is refused.
    #[error("column {column}, {fault}")]
    Refused { column: u32, fault: DataFault },
    #[error("out of memory")]
    NoMemory,
}

/// The fault of a column whose file is refused, or that memory ran out.
pub(crate) fn refused(column: u32, fault: DataFault) -> LoadFault
    ensures { result ≡ refusal_of column fault }
{
    match fault.kind {
        DataKind::NoMemory => LoadFault::NoMemory,
        _ => LoadFault::Refused { column, fault },
    }
}
