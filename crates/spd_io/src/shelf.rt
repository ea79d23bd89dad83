// Files that are read by their names.

ghost use Rattle.std.specs.Prelude.{◌≡◌, ◌≤◌, IfOk, length};
ghost use Rattle.spd_io.specs.Shelf.{ShelfState, MayBe, MayExceed, FailedAt, KeepsFiles, ShelfKeepsFaults, ChangesNoOther};

use std::alloc::Global;
use thiserror::Error;

/// Why a file was not read.
#[derive(Clone, Copy, Debug, PartialEq, Eq, Error)]
pub enum ShelfFault {
    #[error("the file is missing or cannot be read")]
    Failed,
    #[error("the file has more bytes than the limit")]
    TooLong,
    #[error("out of memory")]
    NoMemory,
}

/// Files that are read by name.
pub trait Shelf {
    /// What it tells of each name, and how often reading a name failed.
    ghost state: { Self → ShelfState };

    /// Reads the whole file of a name, of at most `limit` bytes. No file that is told changes, nor
    /// the count of another name.
    ///
    /// `Failed` comes only where the count of this name rose; a missing file is `Failed`. `TooLong`
    /// comes where the file has more than `limit` bytes. `NoMemory` may come at any call.
    fn read(&mut self, alloc: Global, name: &str, limit: usize) -> Result<Vec<u8>, ShelfFault>
        ensures whole { IfOk result (λ file. MayBe ((state self.old).file name.now) file.items) }
        ensures within { IfOk result (λ file. length file.items ≤ limit) }
        ensures failed { result ≡ Err ShelfFault.Failed → FailedAt (state self.old) (state self.new) name.now }
        ensures too_long { result ≡ Err ShelfFault.TooLong → MayExceed ((state self.old).file name.now) limit }
        ensures files { KeepsFiles (state self.old) (state self.new) }
        ensures counts { ShelfKeepsFaults (state self.old) (state self.new) }
        ensures others { ChangesNoOther (state self.old) (state self.new) name.now };
}
