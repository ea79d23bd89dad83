// The columns of CSV files.

ghost use Rattle.spd_cols.specs.Answers.{IsOrNoMemory};
ghost use Rattle.spd_cols.specs.Columns.{int_column_of, text_column_of};

use crate::fault::{DataFault, DataKind, MAX_ENTRIES, too_many};
use crate::rows::Rows;
use crate::value::int_of;
use spd_data::{Ints, Texts};
use std::alloc::Global;

/// The values of a field of a CSV file, record by record.
///
/// The field is the first one of the header that has this name, byte for byte; `NoField` at row 0
/// where there is none. Records are numbered from 1 behind the header, and the first fault in
/// their order is told: `Ragged` for another number of fields than the header's, `TooMany` for the
/// record of number 1,000,001, `NotInt` for a cell that is no number. `NoMemory` may come at any call.
pub fn int_column(alloc: Global, file: &[u8], field: &[u8]) -> Result<Ints, DataFault>
    ensures { IsOrNoMemory result (int_column_of file.now field.now) }
{
    let mut rows = Rows::open(alloc, file, field)?;
    let mut entries = Ints::new(alloc);
    for row in 1..MAX_ENTRIES + 1 {
        if !rows.advance(row)? {
            return Ok(entries);
        }
        let Some(value) = int_of(rows.cell()) else {
            return Err(DataFault {
                row,
                kind: DataKind::NotInt,
            });
        };
        entries.push(value)?;
    }
    if rows.advance(MAX_ENTRIES + 1)? {
        return Err(too_many());
    }
    Ok(entries)
}

/// The cells of a field of a CSV file, record by record, as they are.
///
/// The faults are those of [`int_column`], but for `NotInt`.
pub fn text_column(alloc: Global, file: &[u8], field: &[u8]) -> Result<Texts, DataFault>
    ensures { IsOrNoMemory result (text_column_of file.now field.now) }
{
    let mut rows = Rows::open(alloc, file, field)?;
    let mut entries = Texts::new(alloc);
    for row in 1..MAX_ENTRIES + 1 {
        if !rows.advance(row)? {
            return Ok(entries);
        }
        entries.push(rows.cell())?;
    }
    if rows.advance(MAX_ENTRIES + 1)? {
        return Err(too_many());
    }
    Ok(entries)
}
