// The columns that a program declares, loaded from a shelf.

ghost use Rattle.std.specs.Prelude.{◌≡◌, ◌++◌, ℕ, List, IfOk, OnOk};
ghost use Rattle.std.specs.Option.{option_copied};
ghost use Rattle.spd_io.specs.Shelf.{KeepsFiles, ShelfKeepsFaults};
ghost use Rattle.spd_cols.specs.Answers.{IsOrNoMemory};
ghost use Rattle.spd_cols.specs.Loading as spec;

use crate::csv_columns::{int_column, text_column};
use crate::fault::{DataFault, DataKind, LoadFault, refused};
use crate::line_pieces::lines;
use spd_data::{Column, Data};
use spd_io::{Shelf, ShelfFault};
use spd_syntax::{Item, ItemKind, Program};
use std::alloc::Global;
use std::str;

/// The most bytes of a file of data.
const MAX_BYTES: usize = 67_108_864;

/// The file of a column or lines item.
pub(crate) fn file_of(what: &ItemKind) -> Option<&[u8]>
    ensures { option_copied result ≡ spec.file_in what.now }
{
    match what {
        ItemKind::IntColumn { file, .. } => Some(file.as_slice()),
        ItemKind::TextColumn { file, .. } => Some(file.as_slice()),
        ItemKind::Lines { file, .. } => Some(file.as_slice()),
        _ => None,
    }
}

/// The column of an item over the bytes of its file. Another item has none.
fn read_column(alloc: Global, what: &ItemKind, bytes: &[u8]) -> Result<Column, DataFault>
    ensures { IsOrNoMemory result (spec.read_column what.now bytes.now) }
{
    match what {
        ItemKind::IntColumn { field, .. } => {
            let ints = int_column(alloc, bytes, field.as_slice())?;
            Ok(Column::Ints(ints))
        }
        ItemKind::TextColumn { field, .. } => {
            let texts = text_column(alloc, bytes, field.as_slice())?;
            Ok(Column::Texts(texts))
        }
        ItemKind::Lines { .. } => {
            let texts = lines(alloc, bytes)?;
            Ok(Column::Texts(texts))
        }
        _ => Err(DataFault {
            row: 0,
            kind: DataKind::NoField,
        }),
    }
}

/// Loads the column of an item behind those that are there, if it declares one.
fn load_item<F: Shelf>(
    alloc: Global,
    what: &ItemKind,
    shelf: &mut F,
    data: &mut Data,
) -> Result<(), LoadFault>
    ensures answer { spec.IsItemLoad (F.state shelf.old) (F.state shelf.new) what.now data.old data.new result }
    ensures files { KeepsFiles (F.state shelf.old) (F.state shelf.new) }
    ensures counts { ShelfKeepsFaults (F.state shelf.old) (F.state shelf.new) }
    ensures others { (name : List ℕ) → spec.IsNoFileOf name (spec.declared_in what.now) →
        (F.state shelf.new).faults name ≡ (F.state shelf.old).faults name }
{
    let Some(file) = file_of(what) else {
        return Ok(());
    };
    let column = data.len();
    let Ok(name) = str::from_utf8(file) else {
        return Err(LoadFault::NoMemory);
    };
    let bytes = match shelf.read(alloc, name, MAX_BYTES) {
        Ok(bytes) => bytes,
        Err(ShelfFault::Failed) => return Err(LoadFault::Failed { column }),
        Err(ShelfFault::TooLong) => {
            return Err(LoadFault::Refused {
                column,
                fault: DataFault {
                    row: 0,
                    kind: DataKind::TooLong,
                },
            });
        }
        Err(ShelfFault::NoMemory) => return Err(LoadFault::NoMemory),
    };
    match read_column(alloc, what, bytes.as_slice()) {
        Ok(read) => match data.push(read) {
            Ok(()) => Ok(()),
            Err(_) => Err(LoadFault::NoMemory),
        },
        Err(fault) => Err(refused(column, fault)),
    }
}

/// The columns that a program declares, in their order: each file is read, and then refused or made
/// a column, before the next one is read.
///
/// `Failed` comes only where a read of that column's file failed, and every column before was
/// accepted; `Refused` where the file is, `TooLong` at row 0 above 67,108,864 bytes. `NoMemory` may
/// come at any call.
pub fn load<F: Shelf>(alloc: Global, program: &Program, shelf: &mut F) -> Result<Data, LoadFault>
    ensures answer { spec.IsLoad (F.state shelf.old) (F.state shelf.new)
        (spec.declarations program.now.items) result }
    ensures files { KeepsFiles (F.state shelf.old) (F.state shelf.new) }
    ensures counts { ShelfKeepsFaults (F.state shelf.old) (F.state shelf.new) }
    // No count changes but those of the files up to the one that ended it.
    ensures others { (name : List ℕ) →
        spec.IsNoFileOf name (spec.reached (spec.declarations program.now.items) result) →
        (F.state shelf.new).faults name ≡ (F.state shelf.old).faults name }
{
    let mut data = Data::new(alloc);
    for item in program.items.as_slice() {
        match load_item(alloc, &item.what, shelf, &mut data) {
            Ok(()) => {}
            Err(fault) => return Err(fault),
        }
    }
    Ok(data)
}
