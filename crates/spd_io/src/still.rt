// A shelf and a sink that never fail.

ghost use Rattle.std.specs.Prelude.{◌≡◌, [], ◌∷◌, None, OnOk, OnErr, length};
ghost use Rattle.spd_io.specs.Memory.{file_or_empty};

use crate::files::{NamedFile, add_file, find_file};
use crate::shelf::{Shelf, ShelfFault};
use crate::sink::{Sink, SinkFault};
use std::alloc::{AllocError, Global};
use std::marker::Model;

/// Files in memory, with an empty one under each name that was not added: no read answers
/// `Failed`, and no count of faults ever rises.
#[derive(Drop)]
pub struct StillShelf {
    files: Vec<NamedFile>,
}

impl Model for StillShelf {
    ghost use Rattle.std.specs.Prelude.{List};
    ghost use Rattle.spd_io.specs.declared.files.NamedFile.{NamedFile};

    ghost Value = { List NamedFile };

    ghost view = { λ shelf. shelf.files.items };
}

impl StillShelf {
    /// A shelf to which nothing was added: each of its files is empty.
    pub fn new(alloc: Global) -> StillShelf
        ensures { result ≡ [] }
    {
        StillShelf {
            files: Vec::new(alloc),
        }
    }

    /// Adds a file, in place of an earlier one of that name. Where memory runs out, or the name or
    /// the file has more than 4,294,967,295 bytes, the shelf is unchanged.
    pub fn add(&mut self, alloc: Global, name: &str, bytes: &[u8]) -> Result<(), AllocError>
        ensures ok { OnOk result (self.new ≡ record { name = name.now; bytes = bytes.now } ∷ self.old) }
        ensures err { OnErr result (self.new ≡ self.old) }
    {
        add_file(alloc, &mut self.files, name, bytes)
    }
}

impl Shelf for StillShelf {
    ghost state = { λ shelf. record { file = file_or_empty shelf; faults = λ _. 0 } };

    fn read(&mut self, alloc: Global, name: &str, limit: usize) -> Result<Vec<u8>, ShelfFault> {
        let bytes = find_file(self.files.as_slice(), name).unwrap_or(&[]);
        if limit < bytes.len() {
            return Err(ShelfFault::TooLong);
        }
        match Vec::from_slice(alloc, bytes) {
            Ok(file) => Ok(file),
            Err(_) => Err(ShelfFault::NoMemory),
        }
    }
}

/// A sink that never fails. It takes each piece whole, keeps no bytes and tells none.
#[derive(Drop)]
pub struct StillSink {}

impl StillSink {
    /// Such a sink. It takes no memory.
    pub fn new() -> StillSink {
        StillSink {}
    }
}

impl Sink for StillSink {
    ghost state = { λ _. record { got = None; faults = 0 } };

    fn put(&mut self, piece: &[u8]) -> Result<usize, SinkFault>
        ensures { result ≡ Ok (length piece.now) }
    {
        Ok(piece.len())
    }
}
