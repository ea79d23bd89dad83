// Reading the records of a CSV file, one after another.

ghost use Rattle.std.specs.Prelude.{◌≡◌, ◌⊎◌, ◌<◌, ℕ, [], ◌∷◌, None, Some, Ok, IfSome, IfOk, IfErr, true, false, length, slice_get};
ghost use Rattle.csv.specs.Records.{fields_of};
ghost use Rattle.csv.specs.Reading.{error_kind, expected_len};
ghost use Rattle.spd_cols.specs.Columns.{field_place, header_of, records_of};
ghost use Rattle.spd_cols.specs.Rows.{AreRowsAfter, AreRowsOf, IsAtRow, IsBetweenRecords, IsOfLengths, IsRaggedNext, IsRaggedOrNoMemory, records_left};

use crate::fault::{DataFault, DataKind};
use csv::{ByteRecord, Error, ErrorKind, Reader, ReaderBuilder};
use std::alloc::Global;

/// What an error of a reader means for a record of data: another number of fields, or else that
/// memory ran out. A slice is read without faults of its own.
fn kind_of(error: Error) -> DataKind
    ensures { ((result ≡ DataKind.Ragged) × IsOfLengths (error_kind error)) ⊎ (result ≡ DataKind.NoMemory) }
{
    match error.into_kind() {
        ErrorKind::UnequalLengths { .. } => DataKind::Ragged,
        _ => DataKind::NoMemory,
    }
}

/// Reads the next record into `fields`, and answers whether there was one.
fn read_record(reader: &mut Reader<&[u8]>, fields: &mut ByteRecord) -> Result<bool, DataKind>
    requires { IsBetweenRecords reader.old }
    ensures more { result ≡ Ok true → IsBetweenRecords reader.new
        × (records_left reader.old ≡ fields_of fields.new ∷ records_left reader.new) }
    ensures width { result ≡ Ok true → expected_len reader.new ≡ Some (length (fields_of fields.new)) }
    ensures same { result ≡ Ok true → (n : ℕ) → expected_len reader.old ≡ Some n → length (fields_of fields.new) ≡ n }
    ensures end { result ≡ Ok false → records_left reader.old ≡ [] }
    ensures fault { IfErr result (λ kind. IsRaggedOrNoMemory reader.old kind) }
{
    match reader.read_byte_record(fields) {
        Ok(found) => Ok(found),
        Err(error) => Err(kind_of(error)),
    }
}

/// The first field that is this name, byte for byte.
fn place_of(header: &ByteRecord, field: &[u8]) -> Option<usize>
    ensures place { result ≡ field_place field.now (fields_of header.now) }
    ensures within { IfSome result (λ place. place < length (fields_of header.now)) }
{
    for place in 0..header.len() {
        let Some(name) = header.get(place) else {
            return None;
        };
        if name == field {
            return Some(place);
        }
    }
    None
}

/// The records of a CSV file, of which one is at hand, and the place of a column in them. The
/// first record is the header.
#[derive(Drop)]
pub(crate) struct Rows<'a> {
    reader: Reader<&'a [u8]>,
    fields: ByteRecord,
    place: usize,
}

impl<'a> Rows<'a> {
    /// The header of a file, with the place of a field. `NoField` where the header has no such
    /// field, or there is none.
    pub(crate) fn open(alloc: Global, file: &'a [u8], field: &[u8]) -> Result<Rows<'a>, DataFault>
        ensures ok { IfOk result (λ rows. AreRowsOf file.now field.now rows) }
        ensures fault { IfErr result (λ fault. (fault.kind ≡ DataKind.NoMemory) ⊎
            ((fault ≡ record { row = 0; kind = DataKind.NoField })
            × (field_place field.now (header_of (records_of file.now)) ≡ None))) }
    {
        let no_field = DataFault {
            row: 0,
            kind: DataKind::NoField,
        };
        let mut reader = ReaderBuilder::new()
            .has_headers(false)
            .from_reader(alloc, file);
        let mut fields = ByteRecord::new(alloc);
        match read_record(&mut reader, &mut fields) {
            Ok(true) => {}
            Ok(false) => return Err(no_field),
            Err(_) => {
                return Err(DataFault {
                    row: 0,
                    kind: DataKind::NoMemory,
                });
            }
        }
        match place_of(&fields, field) {
            Some(place) => Ok(Rows {
                reader,
                fields,
                place,
            }),
            None => Err(no_field),
        }
    }

    /// Reads the next record, of a number, and answers whether there was one. `Ragged` where it
    /// hasn't as many fields as the header.
    pub(crate) fn advance(&mut self, row: u32) -> Result<bool, DataFault>
        requires { IsAtRow self.old }
        ensures more { result ≡ Ok true → AreRowsAfter self.old self.new }
        ensures end { result ≡ Ok false → records_left self.old.reader ≡ [] }
        ensures fault { IfErr result (λ fault. (fault.kind ≡ DataKind.NoMemory) ⊎
            ((fault ≡ record { row = row; kind = DataKind.Ragged }) × IsRaggedNext self.old.reader)) }
    {
        match read_record(&mut self.reader, &mut self.fields) {
            Ok(found) => Ok(found),
            Err(kind) => Err(DataFault { row, kind }),
        }
    }

    /// The column's cell in the record at hand.
    pub(crate) fn cell(&self) -> &[u8]
        requires { IsAtRow self.now }
        ensures { slice_get (fields_of self.now.fields) self.now.place ≡ Some result.now }
    {
        self.fields.get(self.place).unwrap_or(&[])
    }
}
