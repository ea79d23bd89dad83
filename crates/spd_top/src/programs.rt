// What is done with a program that passes the checks.

ghost use Rattle.std.specs.Prelude.{◌≡◌, ◌≤◌, ℕ, List, Some, None};
ghost use Rattle.spd_cols.specs.Made.{made_csv};
ghost use Rattle.spd_top.specs.declared.words.SerialCommand.TheVariants.{Elide, Check};
ghost use Rattle.spd_top.specs.Requests.{over};
ghost use Rattle.spd_top.specs.Told.{bytes_alone, checked};
ghost use Rattle.spd_top.specs.Rising.{counts_told};
ghost use Rattle.spd_top.specs.Serving.{IsUnread, ChangesNoUntouched, Answer, Tells, TellsEnd, GetsOrFails, write_failed};

use crate::counts::RegionCounts;
use crate::loaded::{code_of, load_program};
use crate::status;
use crate::telling::{fail_run, out_of_memory, tell, tell_counts};
use spd_canonical::print_program;
use spd_check::Code;
use spd_cols::make_csv;
use spd_io::{Shelf, Sink, write_all_of};
use spd_machine::ElideRegions;
use spd_spine::{End, RunError, run_main};
use std::alloc::Global;

/// Tells that output failed.
fn fail_write<E: Sink>(err: &mut E) -> u8
    ensures told { GetsOrFails (E.state err.old) (E.state err.new) write_failed }
    ensures status { result ≡ 5 }
{
    tell(err, b"spd: write failed\n");
    status::WRITE_FAILED
}

/// Tells how main ended, and where it fell through the counts, if there are any to tell; and answers the
/// status.
pub(crate) fn tell_end<E: Sink>(
    alloc: Global,
    err: &mut E,
    name: &str,
    ended: Result<End, RunError>,
    counts: Option<RegionCounts>,
) -> u8
    ensures { TellsEnd (counts_told counts) name.now ended (E.state err.old) (E.state err.new) result }
{
    match ended {
        Ok(End::Done) => tell_counts(alloc, err, counts),
        Ok(End::Fault(fault)) => fail_run(alloc, err, name, fault),
        Err(RunError::WriteFailed) => fail_write(err),
        Err(RunError::NoMemory) => out_of_memory(err),
    }
}

/// Runs the program of a file by its serial elision, and answers the status.
pub(crate) fn elide<F: Shelf, O: Sink, E: Sink>(
    alloc: Global,
    name: &str,
    shelf: &mut F,
    out: &mut O,
    err: &mut E,
) -> u8
    ensures answer { Answer (Some (over Elide name.now None)) (F.state shelf.old) (F.state shelf.new)
        (O.state out.old) (O.state out.new) (E.state err.old) (E.state err.new) result }
    ensures others { ChangesNoUntouched (Some (over Elide name.now None)) (F.state shelf.old) (F.state shelf.new) }
    ensures read_cause { result ≡ 4 → (file : List ℕ) ×
        IsUnread (Some (over Elide name.now None)) (F.state shelf.old) (F.state shelf.new) file }
{
    let program = match load_program(alloc, name, shelf, err) {
        Ok(program) => program,
        Err(status) => return status,
    };
    let mut regions = ElideRegions;
    let ended = run_main(
        alloc,
        program.code.tree(),
        &program.columns,
        &mut regions,
        out,
    );
    tell_end(alloc, err, name, ended, None)
}

/// Puts bytes, as one piece, and answers the status.
fn put_whole<O: Sink, E: Sink>(bytes: &[u8], out: &mut O, err: &mut E) -> u8
    ensures { Tells (bytes_alone bytes.now) (O.state out.old) (O.state out.new)
        (E.state err.old) (E.state err.new) result }
{
    match write_all_of(out, bytes) {
        Ok(()) => status::DONE,
        Err(_) => fail_write(err),
    }
}

/// Puts the canonical text of a program, as one piece, and answers the status.
fn show<O: Sink, E: Sink>(alloc: Global, code: &Code, out: &mut O, err: &mut E) -> u8
    ensures { Tells (checked code.now) (O.state out.old) (O.state out.new)
        (E.state err.old) (E.state err.new) result }
{
    match print_program(alloc, code.program()) {
        Ok(text) => put_whole(&text, out, err),
        Err(_) => out_of_memory(err),
    }
}

/// Puts the canonical text of the program of a file, and answers the status.
pub(crate) fn check<F: Shelf, O: Sink, E: Sink>(
    alloc: Global,
    name: &str,
    shelf: &mut F,
    out: &mut O,
    err: &mut E,
) -> u8
    ensures answer { Answer (Some (over Check name.now None)) (F.state shelf.old) (F.state shelf.new)
        (O.state out.old) (O.state out.new) (E.state err.old) (E.state err.new) result }
    ensures others { ChangesNoUntouched (Some (over Check name.now None)) (F.state shelf.old) (F.state shelf.new) }
    ensures read_cause { result ≡ 4 → (file : List ℕ) ×
        IsUnread (Some (over Check name.now None)) (F.state shelf.old) (F.state shelf.new) file }
{
    match code_of(alloc, name, shelf, err) {
        Ok(code) => show(alloc, &code, out, err),
        Err(status) => status,
    }
}

/// Puts the file that is made from a number of rows, at most 1,000,000, and a seed, as one piece, and answers
/// the status.
pub(crate) fn make<O: Sink, E: Sink>(
    alloc: Global,
    rows: u32,
    seed: u32,
    out: &mut O,
    err: &mut E,
) -> u8
    requires { rows ≤ 1000000 }
    ensures { Tells (bytes_alone (made_csv rows seed)) (O.state out.old) (O.state out.new)
        (E.state err.old) (E.state err.new) result }
{
    match make_csv(alloc, rows, seed) {
        Ok(file) => put_whole(&file, out, err),
        Err(_) => out_of_memory(err),
    }
}
