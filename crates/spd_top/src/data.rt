// What is told of data files that give no columns.

ghost use Rattle.std.specs.Prelude.{◌≡◌, Some, MatchOption};
ghost use Rattle.spd_cols.specs.Loading.{file_of_column};
ghost use Rattle.spd_top.specs.Serving.{RefusesData};

use crate::telling::{data_word, fail_read, out_of_memory, refuse_row};
use spd_cols::{LoadFault, file_of_column};
use spd_io::Sink;
use spd_syntax::Program;
use std::alloc::Global;
use std::str;

/// The name of a column's file, or none where the program declares no such column.
fn file_name(program: &Program, column: u32) -> Option<&str>
    ensures { MatchOption result (Unit {0}) (λ name. file_of_column program.now.items column ≡ Some name.now) }
{
    let file = file_of_column(program, column)?;
    str::from_utf8(file).ok()
}

/// Tells why the columns of a program were not loaded, and answers 4, 6 or 7; or 5 where `err` fails in
/// the line of a refused file.
pub(crate) fn refuse_data<E: Sink>(
    alloc: Global,
    err: &mut E,
    program: &Program,
    fault: LoadFault,
) -> u8
    ensures { RefusesData program.now fault (E.state err.old) (E.state err.new) result }
{
    match fault {
        LoadFault::Failed { column } => match file_name(program, column) {
            Some(file) => fail_read(alloc, err, file),
            None => out_of_memory(err),
        },
        LoadFault::Refused { column, fault } => match file_name(program, column) {
            Some(file) => refuse_row(alloc, err, file, fault.row, data_word(fault.kind)),
            None => out_of_memory(err),
        },
        LoadFault::NoMemory => out_of_memory(err),
    }
}
