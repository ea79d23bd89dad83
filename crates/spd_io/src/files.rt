// Files in memory, by their names.

ghost use Rattle.std.specs.Prelude.{◌≡◌, [], ◌∷◌, ◌++◌, MatchOption, OnOk, OnErr};
ghost use Rattle.spd_io.specs.Shelf.{Missing, Holds};
ghost use Rattle.spd_io.specs.Memory.{file_of};

use spd_list::Seq;
use std::alloc::{AllocError, Global};

/// A file in memory.
#[derive(Drop)]
pub(crate) struct NamedFile {
    name: Seq<u8>,
    bytes: Seq<u8>,
}

/// Puts a file before those that were added earlier.
pub(crate) fn add_file(
    alloc: Global,
    files: &mut Vec<NamedFile>,
    name: &str,
    bytes: &[u8],
) -> Result<(), AllocError>
    ensures ok { OnOk result (files.new.items ≡ record { name = name.now; bytes = bytes.now } ∷ files.old.items) }
    ensures err { OnErr result (files.new.items ≡ files.old.items) }
{
    let name = Seq::from_slice(alloc, name.as_bytes())?;
    let bytes = Seq::from_slice(alloc, bytes)?;
    files.insert(0, NamedFile { name, bytes })?;
    Ok(())
}

/// The bytes of the file of a name, of several the first one's.
pub(crate) fn find_file<'a>(mut files: &'a [NamedFile], name: &str) -> Option<&'a [u8]>
    ensures { MatchOption result (file_of files.entry.now name.now ≡ Missing)
        (λ bytes. file_of files.entry.now name.now ≡ Holds bytes.now) }
{
    while let [first, rest @ ..] = files {
        if first.name.as_slice() == name.as_bytes() {
            return Some(first.bytes.as_slice());
        }
        files = rest;
    }
    None
}

/// Adds a name at the end of those whose reads failed. Where memory runs out, or the name or the
/// list has no room within 4,294,967,295 entries, they are unchanged.
pub fn note_failure(alloc: Global, failed: &mut Seq<Seq<u8>>, name: &str) -> Result<(), AllocError>
    ensures ok { OnOk result (failed.new ≡ failed.old ++ name.now ∷ []) }
    ensures err { OnErr result (failed.new ≡ failed.old) }
{
    let name = Seq::from_slice(alloc, name.as_bytes())?;
    failed.push(name)
}
