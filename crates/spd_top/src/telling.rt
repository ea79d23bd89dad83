// The lines for standard error, with the status that each tells.

ghost use Rattle.std.specs.Prelude.{◌≡◌, ◌⊎◌, ◌%◌, codes, string_bytes, IfOk};
ghost use Rattle.spd_top.specs.Told.{of_file, of_line, of_counts, of_fault, lex_word, parse_word, check_word, data_word, fault_word};
ghost use Rattle.spd_top.specs.Rising.{counts_told};
ghost use Rattle.spd_top.specs.Serving.{words_refused, out_of_memory, GetsOrFails, Says, WantsMemory};

use crate::counts::RegionCounts;
use crate::status;
use spd_check::CheckKind;
use spd_cols::DataKind;
use spd_io::{Sink, write_all_of};
use spd_syntax::{LexKind, ParseKind};
use std::alloc::{AllocError, Global};

/// Puts a line. Where `err` fails, it has got the first of its bytes.
pub(crate) fn tell<E: Sink>(err: &mut E, line: &[u8])
    ensures { GetsOrFails (E.state err.old) (E.state err.new) line.now }
{
    let _ = write_all_of(err, line);
}

/// Puts the line of a status, and answers the status; or 5 where `err` fails.
fn say<E: Sink>(err: &mut E, line: &[u8], status: u8) -> u8
    ensures { Says status (E.state err.old) (E.state err.new) line.now result }
{
    match write_all_of(err, line) {
        Ok(()) => status,
        Err(_) => status::WRITE_FAILED,
    }
}

/// Tells that the words are refused, and answers 2; or 5 where `err` fails.
pub(crate) fn refuse_words<E: Sink>(err: &mut E) -> u8
    ensures { Says 2 (E.state err.old) (E.state err.new) words_refused result }
{
    say(err, b"spd: words refused\n", status::WORDS_REFUSED)
}

/// Tells that memory ran out, and answers 7, also where `err` fails.
pub(crate) fn out_of_memory<E: Sink>(err: &mut E) -> u8
    ensures { WantsMemory (E.state err.old) (E.state err.new) result }
{
    tell(err, b"spd: out of memory\n");
    status::OUT_OF_MEMORY
}

/// The line that tells something of a file.
fn file_line(alloc: Global, name: &str, what: &str) -> Result<String, AllocError>
    ensures { IfOk result (λ line. string_bytes line ≡ of_file name.now what.now) }
{
    let mut line = String::from_str(alloc, "spd: ")?;
    line.push_str(name)?;
    line.push_str(": ")?;
    line.push_str(what)?;
    line.push_str("\n")?;
    Ok(line)
}

/// The line that tells something of a line of a file.
fn line_line(alloc: Global, name: &str, line: u64, what: &str) -> Result<String, AllocError>
    ensures { IfOk result (λ told. string_bytes told ≡ of_line name.now line what.now) }
{
    let mut told = String::from_str(alloc, "spd: ")?;
    told.push_str(name)?;
    told.push_str(":")?;
    told.push_str(line.to_string(alloc)?.as_str())?;
    told.push_str(": ")?;
    told.push_str(what)?;
    told.push_str("\n")?;
    Ok(told)
}

/// The line that tells counts.
fn counts_line(alloc: Global, counts: RegionCounts) -> Result<String, AllocError>
    ensures { IfOk result (λ line. string_bytes line ≡ of_counts counts.regions counts.moves) }
{
    let mut line = String::from_str(alloc, "spd: regions ")?;
    line.push_str(counts.regions.to_string(alloc)?.as_str())?;
    line.push_str(", moves ")?;
    line.push_str(counts.moves.to_string(alloc)?.as_str())?;
    line.push_str("\n")?;
    Ok(line)
}

/// The word that tells what is wrong with a text that can't be cut into tokens.
pub(crate) fn lex_word(kind: LexKind) -> &'static str
    ensures { result.now ≡ lex_word kind }
{
    match kind {
        LexKind::BadByte => "BadByte",
        LexKind::OpenString => "OpenString",
        LexKind::BadEscape => "BadEscape",
        LexKind::NoMemory => "NoMemory",
    }
}

/// The word that tells what is wrong with tokens that spell no program within the limits.
pub(crate) fn parse_word(kind: ParseKind) -> &'static str
    ensures { result.now ≡ parse_word kind }
{
    match kind {
        ParseKind::Expected => "Expected",
        ParseKind::Literal => "Literal",
        ParseKind::TooDeep => "TooDeep",
        ParseKind::TooMany => "TooMany",
        ParseKind::NoMemory => "NoMemory",
    }
}

/// The word that tells what the checks refuse.
pub(crate) fn check_word(kind: CheckKind) -> &'static str
    ensures { result.now ≡ check_word kind }
{
    match kind {
        CheckKind::Unknown => "Unknown",
        CheckKind::Twice => "Twice",
        CheckKind::Arity => "Arity",
        CheckKind::AsyncOutside => "AsyncOutside",
        CheckKind::OfferOutside => "OfferOutside",
        CheckKind::PrintPlace => "PrintPlace",
        CheckKind::ReturnPlace => "ReturnPlace",
        CheckKind::AssignOuter => "AssignOuter",
        CheckKind::ColumnKind => "ColumnKind",
        CheckKind::NoMain => "NoMain",
        CheckKind::NoReturn => "NoReturn",
        CheckKind::NoMemory => "NoMemory",
    }
}

/// The word that tells what a file of data is refused for.
pub(crate) fn data_word(kind: DataKind) -> &'static str
    ensures { result.now ≡ data_word kind }
{
    match kind {
        DataKind::TooLong => "TooLong",
        DataKind::NoField => "NoField",
        DataKind::Ragged => "Ragged",
        DataKind::TooMany => "TooMany",
        DataKind::NotInt => "NotInt",
        DataKind::NoMemory => "NoMemory",
    }
}

/// The words that tell the kind of a fault of a run.
fn fault_word(kind: u64) -> &'static str
    ensures { result.now ≡ fault_word kind }
{
    if kind == 1 {
        "division by zero"
    } else if kind == 2 {
        "index out of range"
    } else {
        "calls too deep"
    }
}

/// Tells counts, if there are any, and answers 0; or 5 where `err` fails.
pub(crate) fn tell_counts<E: Sink>(alloc: Global, err: &mut E, counts: Option<RegionCounts>) -> u8
    ensures { Says 0 (E.state err.old) (E.state err.new) (counts_told counts) result ⊎
        WantsMemory (E.state err.old) (E.state err.new) result }
{
    let Some(counts) = counts else {
        return status::DONE;
    };
    match counts_line(alloc, counts) {
        Ok(line) => say(err, line.as_bytes(), status::DONE),
        Err(_) => out_of_memory(err),
    }
}

/// Tells that a program ended with the fault of a code, which has its line and its kind, and answers 3;
/// or 5 where `err` fails.
pub(crate) fn fail_run<E: Sink>(alloc: Global, err: &mut E, name: &str, code: u64) -> u8
    ensures { Says 3 (E.state err.old) (E.state err.new) (of_fault name.now code) result ⊎
        WantsMemory (E.state err.old) (E.state err.new) result }
{
    match line_line(alloc, name, code / 8, fault_word(code % 8)) {
        Ok(told) => say(err, told.as_bytes(), status::PROGRAM_FAULTED),
        Err(_) => out_of_memory(err),
    }
}

/// Tells what is wrong on a line or in a record of a file, and answers the status; or 5 where `err` fails.
fn refuse_place<E: Sink>(
    alloc: Global,
    err: &mut E,
    name: &str,
    place: u32,
    kind: &str,
    status: u8,
) -> u8
    ensures { Says status (E.state err.old) (E.state err.new) (of_line name.now place kind.now) result ⊎
        WantsMemory (E.state err.old) (E.state err.new) result }
{
    match line_line(alloc, name, u64::from(place), kind) {
        Ok(told) => say(err, told.as_bytes(), status),
        Err(_) => out_of_memory(err),
    }
}

/// Tells that a program is refused for what stands on a line, and answers 1; or 5 where `err` fails.
pub(crate) fn refuse_line<E: Sink>(
    alloc: Global,
    err: &mut E,
    name: &str,
    line: u32,
    kind: &str,
) -> u8
    ensures { Says 1 (E.state err.old) (E.state err.new) (of_line name.now line kind.now) result ⊎
        WantsMemory (E.state err.old) (E.state err.new) result }
{
    refuse_place(alloc, err, name, line, kind, status::PROGRAM_REFUSED)
}

/// Tells that a file of data is refused for a record, and answers 6; or 5 where `err` fails.
pub(crate) fn refuse_row<E: Sink>(
    alloc: Global,
    err: &mut E,
    name: &str,
    row: u32,
    kind: &str,
) -> u8
    ensures { Says 6 (E.state err.old) (E.state err.new) (of_line name.now row kind.now) result ⊎
        WantsMemory (E.state err.old) (E.state err.new) result }
{
    refuse_place(alloc, err, name, row, kind, status::DATA_REFUSED)
}

/// Tells that a program is refused, and answers 1; or 5 where `err` fails.
pub(crate) fn refuse_program<E: Sink>(alloc: Global, err: &mut E, name: &str, kind: &str) -> u8
    ensures { Says 1 (E.state err.old) (E.state err.new) (of_file name.now kind.now) result ⊎
        WantsMemory (E.state err.old) (E.state err.new) result }
{
    match file_line(alloc, name, kind) {
        Ok(line) => say(err, line.as_bytes(), status::PROGRAM_REFUSED),
        Err(_) => out_of_memory(err),
    }
}

/// Tells that a file could not be read, and answers 4, also where `err` fails.
pub(crate) fn fail_read<E: Sink>(alloc: Global, err: &mut E, name: &str) -> u8
    ensures { ((result ≡ 4) × GetsOrFails (E.state err.old) (E.state err.new) (of_file name.now (codes "read failed")))
        ⊎ WantsMemory (E.state err.old) (E.state err.new) result }
{
    match file_line(alloc, name, "read failed") {
        Ok(line) => {
            tell(err, line.as_bytes());
            status::READ_FAILED
        }
        Err(_) => out_of_memory(err),
    }
}
