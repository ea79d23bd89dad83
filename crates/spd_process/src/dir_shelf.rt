// The shelf of the working folder.
ghost use Rattle.std.specs.Prelude.{◌≡◌, ◌≤◌, ◌<◌, ◌⊎◌, ◌↔◌, [], IfOk, IfSome, length};
ghost use Rattle.std.specs.IoError.{error_kind};
ghost use Rattle.spd_io.specs.Shelf.{Untold};
ghost use Rattle.spd_io.specs.Memory.{times_of, failed_after};

use spd_io::{Shelf, ShelfFault, note_failure};
use spd_list::Seq;
use std::alloc::Global;
use std::io::{ErrorKind, Read};
use std::rt::Files;
use std::{fs, io};

/// The files of the working folder, by their names as they are written. It tells nothing of their
/// contents, and keeps the names whose reads failed.
#[derive(Drop)]
pub struct DirShelf<'a, R: Files> {
    files: &'a R,
    failed: Seq<Seq<u8>>,
}

impl<'a, R: Files> DirShelf<'a, R> {
    /// The shelf before its first read.
    pub fn new(alloc: Global, files: &'a R) -> DirShelf<'a, R>
        ensures { result.failed ≡ [] }
    {
        DirShelf {
            files,
            failed: Seq::new(alloc),
        }
    }

    /// Notes that a read failed, or answers that there is no memory for the note.
    fn failure(&mut self, alloc: Global, name: &str) -> ShelfFault
        ensures fault { (result ≡ ShelfFault.Failed) ⊎ (result ≡ ShelfFault.NoMemory) }
        ensures noted { self.new.failed ≡ failed_after (Err result) self.old.failed name.now }
    {
        match note_failure(alloc, &mut self.failed, name) {
            Ok(()) => ShelfFault::Failed,
            Err(_) => ShelfFault::NoMemory,
        }
    }
}

impl<'a, R: Files> Shelf for DirShelf<'a, R> {
    ghost state = { λ shelf. record { file = λ _. Untold; faults = λ name. times_of name shelf.failed } };

    fn read(&mut self, alloc: Global, name: &str, limit: usize) -> Result<Vec<u8>, ShelfFault> {
        match read_file(alloc, self.files, name, limit) {
            Err(ShelfFault::Failed) => Err(self.failure(alloc, name)),
            answer => answer,
        }
    }
}

/// The bytes of the file of a name. One that can't be opened or read, as a folder, is `Failed`; one
/// of more than `limit` bytes is `TooLong`.
fn read_file<R: Files>(
    alloc: Global,
    files: &R,
    name: &str,
    limit: usize,
) -> Result<Vec<u8>, ShelfFault>
    ensures { IfOk result (λ file. length file.items ≤ limit) }
{
    let mut file = fs::open(files, name).map_err(fault_of)?;
    read_within(alloc, &mut file, limit)
}

/// All bytes that a reader has left, at most `limit`. No more than `limit + 1` are read of it: where
/// there are so many, the answer is `TooLong`.
fn read_within<R: Read>(alloc: Global, reader: &mut R, limit: usize) -> Result<Vec<u8>, ShelfFault>
    ensures within { IfOk result (λ file. length file.items ≤ limit) }
    ensures whole { IfOk result (λ file. IfSome (R.remaining reader.old) (λ bytes. file.items ≡ bytes)) }
    ensures too_long { result ≡ Err ShelfFault.TooLong →
        IfSome (R.remaining reader.old) (λ bytes. limit < length bytes) }
{
    let wanted = (limit as u64).saturating_add(1);
    let mut file = Vec::new(alloc);
    reader
        .take(wanted)
        .read_to_end(&mut file)
        .map_err(fault_of)?;
    if file.len() > limit {
        return Err(ShelfFault::TooLong);
    }
    Ok(file)
}

/// Why a file was not read, by the system's error.
fn fault_of(error: io::Error) -> ShelfFault
    ensures fault { (result ≡ ShelfFault.Failed) ⊎ (result ≡ ShelfFault.NoMemory) }
    ensures memory { result ≡ ShelfFault.NoMemory ↔ error_kind error ≡ ErrorKind.OutOfMemory }
{
    match error.kind() {
        ErrorKind::OutOfMemory => ShelfFault::NoMemory,
        _ => ShelfFault::Failed,
    }
}

#[cfg(test)]
mod tests;
