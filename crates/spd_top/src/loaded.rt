// The program of a file, with its columns; or why a command ends before its program runs.

ghost use Rattle.std.specs.Prelude.{◌≡◌, ℕ, Option, IfOk, IfErr};
ghost use Rattle.spd_top.specs.declared.words.SerialCommand.{SerialCommand};
ghost use Rattle.spd_top.specs.declared.words.SerialCommand.TheVariants.{Elide};
ghost use Rattle.spd_top.specs.Serving.{RefusesText};
ghost use Rattle.spd_top.specs.Early.{HasProgram, HasColumns, AnswersEarly};

use crate::building::{BuildError, build};
use crate::data::refuse_data;
use crate::telling::{
    check_word, fail_read, lex_word, out_of_memory, parse_word, refuse_line, refuse_program,
};
use spd_check::Code;
use spd_cols::load;
use spd_data::Data;
use spd_io::{Shelf, ShelfFault, Sink};
use std::alloc::Global;

/// The greatest number of bytes of a program's text.
const MAX_TEXT: usize = 1_048_576;

/// A program that passes the checks, with its columns.
#[derive(Drop)]
pub(crate) struct Loaded {
    pub code: Code,
    pub columns: Data,
}

/// Tells why a text gave no program, and answers 1, or 7 for want of memory; or 5 where `err` fails.
fn refuse_text<E: Sink>(alloc: Global, err: &mut E, name: &str, error: BuildError) -> u8
    ensures { RefusesText name.now error (E.state err.old) (E.state err.new) result }
{
    match error {
        BuildError::Lex(fault) => refuse_line(alloc, err, name, fault.line, lex_word(fault.kind)),
        BuildError::Parse(fault) => {
            refuse_line(alloc, err, name, fault.line, parse_word(fault.kind))
        }
        BuildError::Check(fault) => {
            refuse_line(alloc, err, name, fault.line, check_word(fault.kind))
        }
        BuildError::NoMemory => out_of_memory(err),
    }
}

/// The code of the program in a file; where there is none that is told, and the status is the error.
pub(crate) fn code_of<F: Shelf, E: Sink>(
    alloc: Global,
    name: &str,
    shelf: &mut F,
    err: &mut E,
) -> Result<Code, u8>
    ensures code { IfOk result (λ code. HasProgram name.now code (F.state shelf.old) (F.state shelf.new)) }
    ensures untold { IfOk result (λ _. err.new ≡ err.old) }
    ensures told { (counts : Option ℕ) (command : SerialCommand) → IfErr result (λ status.
        AnswersEarly counts command name.now
        (F.state shelf.old) (F.state shelf.new) (E.state err.old) (E.state err.new) status) }
{
    let text = match shelf.read(alloc, name, MAX_TEXT) {
        Ok(text) => text,
        Err(ShelfFault::TooLong) => return Err(refuse_program(alloc, err, name, "TooLong")),
        Err(ShelfFault::Failed) => return Err(fail_read(alloc, err, name)),
        Err(ShelfFault::NoMemory) => return Err(out_of_memory(err)),
    };
    match build(alloc, &text) {
        Ok(code) => Ok(code),
        Err(error) => Err(refuse_text(alloc, err, name, error)),
    }
}

/// The program in a file, with the columns that it declares; where one of the files gives none that is
/// told, and the status is the error.
pub(crate) fn load_program<F: Shelf, E: Sink>(
    alloc: Global,
    name: &str,
    shelf: &mut F,
    err: &mut E,
) -> Result<Loaded, u8>
    ensures loaded { (counts : Option ℕ) → IfOk result (λ loaded.
        HasColumns counts name.now loaded.code loaded.columns (F.state shelf.old) (F.state shelf.new)) }
    ensures untold { IfOk result (λ _. err.new ≡ err.old) }
    ensures told { (counts : Option ℕ) → IfErr result (λ status. AnswersEarly counts Elide name.now
        (F.state shelf.old) (F.state shelf.new) (E.state err.old) (E.state err.new) status) }
{
    let code = code_of(alloc, name, shelf, err)?;
    match load(alloc, code.program(), shelf) {
        Ok(columns) => Ok(Loaded { code, columns }),
        Err(fault) => Err(refuse_data(alloc, err, code.program(), fault)),
    }
}
