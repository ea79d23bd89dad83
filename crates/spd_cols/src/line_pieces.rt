// The entries of lines files.

ghost use Rattle.std.specs.Prelude.{◌≡◌, ◌≢◌, ◌<◌, ◌≤◌, ◌==◌, [], ◌∷◌, length};
ghost use Rattle.std.specs.List.{position_or_len};
ghost use Rattle.spd_cols.specs.Answers.{IsOrNoMemory};
ghost use Rattle.spd_cols.specs.Columns as spec;

use crate::fault::{DataFault, MAX_ENTRIES, too_many};
use memchr::memchr;
use spd_data::Texts;
use std::alloc::Global;
use std::cmp::min;

/// How many bytes stand before the first LF, or all of them.
fn piece_len(bytes: &[u8]) -> usize
    ensures place { result ≡ position_or_len (λ b. b == 10) bytes.now }
    ensures bound { result ≤ length bytes.now }
{
    memchr(b'\n', bytes).unwrap_or(bytes.len())
}

/// Bytes without one CR at their end.
fn without_cr(bytes: &[u8]) -> &[u8]
    ensures { result.now ≡ spec.without_cr bytes.now }
{
    match bytes {
        [front @ .., last] if *last == b'\r' => front,
        _ => bytes,
    }
}

/// The first entry, and the bytes behind its LF.
fn cut_entry(bytes: &[u8]) -> (&[u8], &[u8])
    requires { bytes.now ≢ [] }
    ensures entries { spec.entries_of_lines bytes.now ≡ result.0.now ∷ spec.entries_of_lines result.1.now }
    ensures shorter { length result.1.now < length bytes.now }
{
    let end = piece_len(bytes);
    let next = min(end + 1, bytes.len());
    (without_cr(&bytes[..end]), &bytes[next..])
}

/// The entries of a lines file: its pieces between LF bytes, each without one CR at its end. A last
/// piece that is empty is none.
///
/// `TooMany` at row 1,000,001 comes where there are more than 1,000,000. `NoMemory` may come at any
/// call.
pub fn lines(alloc: Global, file: &[u8]) -> Result<Texts, DataFault>
    ensures { IsOrNoMemory result (spec.lines_column_of file.now) }
{
    let mut entries = Texts::new(alloc);
    let mut rest = file;
    while !rest.is_empty() {
        if entries.len() >= MAX_ENTRIES {
            return Err(too_many());
        }
        let (entry, behind) = cut_entry(rest);
        entries.push(entry)?;
        rest = behind;
    }
    Ok(entries)
}
