// A shelf of files in memory.

ghost use Rattle.std.specs.Prelude.{◌≡◌, ◌≤◌, ◌⊎◌, [], ◌∷◌, ◌++◌, IfOk, OnOk, OnErr, length};
ghost use Rattle.spd_io.specs.Shelf.{MayBe, MayExceed, FailedAt, KeepsFiles, ShelfKeepsFaults, ChangesNoOther};
ghost use Rattle.spd_io.specs.Memory.{MemShelfState, mem_shelf_state, read_of, IsAnswer, failed_after};
ghost use Rattle.spd_io.specs.Memory.{uncalled, to_fail, with_file, after_read};

use crate::calls::CallNumbers;
use crate::files::{NamedFile, add_file, find_file, note_failure};
use crate::shelf::{Shelf, ShelfFault};
use spd_list::Seq;
use std::alloc::{AllocError, Global};
use std::marker::Model;

/// Files in memory. It tells what it holds, and keeps the names whose reads failed: of files that
/// it doesn't hold, and by calls that are to fail.
#[derive(Drop)]
pub struct MemShelf {
    files: Vec<NamedFile>,
    calls: CallNumbers,
    failed: Seq<Seq<u8>>,
}

impl Model for MemShelf {
    ghost Value = { MemShelfState };

    ghost view = { λ shelf. record { files = shelf.files.items; calls = shelf.calls; failed = shelf.failed } };
}

impl MemShelf {
    /// A shelf that holds nothing.
    pub fn new(alloc: Global) -> MemShelf
        ensures { result ≡ record { files = []; calls = uncalled; failed = [] } }
    {
        MemShelf {
            files: Vec::new(alloc),
            calls: CallNumbers::new(alloc),
            failed: Seq::new(alloc),
        }
    }

    /// Adds a file, in place of an earlier one of that name. Where memory runs out, or the name or
    /// the file has more than 4,294,967,295 bytes, the shelf is unchanged.
    pub fn add(&mut self, alloc: Global, name: &str, bytes: &[u8]) -> Result<(), AllocError>
        ensures ok { OnOk result (self.new ≡ with_file self.old name.now bytes.now) }
        ensures err { OnErr result (self.new ≡ self.old) }
    {
        add_file(alloc, &mut self.files, name, bytes)
    }

    /// The read of a number is to fail. Reads are counted from 1, those that failed too. Where memory
    /// runs out the shelf is unchanged.
    pub fn fail_at(&mut self, call: u32) -> Result<(), AllocError>
        ensures ok { OnOk result (self.new ≡ record self.old { calls = to_fail self.old.calls call }) }
        ensures err { OnErr result (self.new ≡ self.old) }
    {
        self.calls.fail_at(call)
    }

    /// Notes that a read failed, or answers that there is no memory for the note.
    fn failure(&mut self, alloc: Global, name: &str) -> ShelfFault
        ensures fault { (result ≡ ShelfFault.Failed) ⊎ (result ≡ ShelfFault.NoMemory) }
        ensures after { self.new ≡ record self.old { failed = failed_after (Err result) self.old.failed name.now } }
    {
        match note_failure(alloc, &mut self.failed, name) {
            Ok(()) => ShelfFault::Failed,
            Err(_) => ShelfFault::NoMemory,
        }
    }
}

impl Shelf for MemShelf {
    ghost state = { mem_shelf_state };

    fn read(&mut self, alloc: Global, name: &str, limit: usize) -> Result<Vec<u8>, ShelfFault>
        ensures whole { IfOk result (λ file. MayBe ((mem_shelf_state self.old).file name.now) file.items) }
        ensures within { IfOk result (λ file. length file.items ≤ limit) }
        ensures failed { result ≡ Err ShelfFault.Failed →
            FailedAt (mem_shelf_state self.old) (mem_shelf_state self.new) name.now }
        ensures too_long { result ≡ Err ShelfFault.TooLong →
            MayExceed ((mem_shelf_state self.old).file name.now) limit }
        ensures files { KeepsFiles (mem_shelf_state self.old) (mem_shelf_state self.new) }
        ensures counts { ShelfKeepsFaults (mem_shelf_state self.old) (mem_shelf_state self.new) }
        ensures others { ChangesNoOther (mem_shelf_state self.old) (mem_shelf_state self.new) name.now }
        // Which answer comes, and what the shelf is then.
        ensures answer { IsAnswer result (read_of self.old name.now limit) }
        ensures after { self.new ≡ after_read self.old result name.now }
    {
        if self.calls.count() {
            return Err(self.failure(alloc, name));
        }
        let Some(bytes) = find_file(self.files.as_slice(), name) else {
            return Err(self.failure(alloc, name));
        };
        if limit < bytes.len() {
            return Err(ShelfFault::TooLong);
        }
        match Vec::from_slice(alloc, bytes) {
            Ok(file) => Ok(file),
            Err(_) => Err(ShelfFault::NoMemory),
        }
    }
}
