// What expressions read of columns.

ghost use Rattle.std.specs.Prelude.{◌≡◌, Ok, pos, length, nat_eq};
ghost use Rattle.std.specs.List.{starts_with};
ghost use Rattle.std.specs.Str.{bytes_eq};
ghost use Rattle.spd_meaning.specs.Values.{truth, nth, out_of_range, in_range, byte_value, with_bytes};
ghost use Rattle.spd_level.specs.Columns.{column_at};
ghost use Rattle.spd_level.specs.Found.{text_seen};

use crate::value::as_number;
use spd_data::{Column, Data};

/// How many entries the column of a number has.
pub(crate) fn length_of(columns: &Data, column: u32) -> i64
    ensures { result ≡ (column_at columns.now column).length }
{
    if column >= columns.len() {
        return 0;
    }
    match columns.get(column) {
        Column::Ints(values) => values.len() as i64,
        Column::Texts(texts) => texts.len() as i64,
    }
}

/// The number at a place of an int column, where it has one there.
pub(crate) fn number_at(columns: &Data, column: u32, at: i64) -> Option<i64>
    ensures { result ≡ (column_at columns.now column).number at }
{
    if column >= columns.len() {
        return None;
    }
    match columns.get(column) {
        Column::Ints(values) => {
            if at < 0 || at >= values.len() as i64 {
                return None;
            }
            Some(*values.get(at as u32))
        }
        Column::Texts(_) => None,
    }
}

/// The bytes at a place of a text or lines column, where it has an entry there.
pub(crate) fn text_at(columns: &Data, column: u32, at: i64) -> Option<&[u8]>
    ensures { text_seen result ≡ (column_at columns.now column).text at }
{
    if column >= columns.len() {
        return None;
    }
    match columns.get(column) {
        Column::Ints(_) => None,
        Column::Texts(texts) => {
            if at < 0 || at >= texts.len() as i64 {
                return None;
            }
            Some(texts.get(at as u32))
        }
    }
}

/// The code of an index that is out of range, at a line.
fn out_of_range(line: u32) -> u64
    ensures { result ≡ out_of_range line }
{
    line as u64 * 8 + 2
}

/// What was found, or the code of an index that is out of range.
pub(crate) fn found_in_range(found: Option<i64>, line: u32) -> Result<i64, u64>
    ensures { result ≡ in_range found line }
{
    match found {
        Some(value) => Ok(value),
        None => Err(out_of_range(line)),
    }
}

/// The number of bytes of an entry.
pub(crate) fn size_of(text: Option<&[u8]>, line: u32) -> Result<i64, u64>
    ensures { result ≡ with_bytes (text_seen text.entry) line (λ bytes. Ok (pos (length bytes))) }
{
    match text {
        Some(bytes) => Ok(bytes.len() as i64),
        None => Err(out_of_range(line)),
    }
}

/// The byte at a place of an entry.
pub(crate) fn byte_of(text: Option<&[u8]>, place: i64, line: u32) -> Result<i64, u64>
    ensures { result ≡
        with_bytes (text_seen text.entry) line (λ bytes. in_range (byte_value (nth bytes place)) line) }
{
    match text {
        Some(bytes) => {
            if place < 0 || place >= bytes.len() as i64 {
                return Err(out_of_range(line));
            }
            Ok(bytes[place as usize] as i64)
        }
        None => Err(out_of_range(line)),
    }
}

/// Whether an entry is these bytes, as 1 or 0.
pub(crate) fn is_same(text: Option<&[u8]>, literal: &[u8], line: u32) -> Result<i64, u64>
    ensures { result ≡ with_bytes (text_seen text.entry) line (λ bytes. Ok (truth (bytes_eq bytes literal.now))) }
{
    match text {
        Some(bytes) => Ok(as_number(bytes == literal)),
        None => Err(out_of_range(line)),
    }
}

/// Whether an entry begins with these bytes, as 1 or 0.
pub(crate) fn has_prefix(text: Option<&[u8]>, literal: &[u8], line: u32) -> Result<i64, u64>
    ensures { result ≡
        with_bytes (text_seen text.entry) line (λ bytes. Ok (truth (starts_with nat_eq bytes literal.now))) }
{
    match text {
        Some(bytes) => Ok(as_number(bytes.starts_with(literal))),
        None => Err(out_of_range(line)),
    }
}
