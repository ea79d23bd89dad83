// A list of byte strings, which lie one behind the other in one buffer.

ghost use Rattle.std.specs.Prelude.{◌≡◌, ◌<◌, ◌^◌, ◌↔◌, [], ◌∷◌, ◌++◌, length, slice_get, Some, OnOk, OnErr, IsTrue};
ghost use Rattle.spd_data.specs.Pieces.{pieces, AreEnds, BeginsAt};

use std::alloc::{AllocError, Global};
use std::marker::Model;

/// A growing list of at most 4,294,967,295 byte strings, with as many bytes at most in all of them
/// together. Contracts see it as the list of them.
#[derive(Debug, Drop)]
pub struct Texts {
    bytes: Vec<u8>,
    ends: Vec<u32>,
}

impl Model for Texts {
    ghost use Rattle.std.specs.Prelude.{◌<◌, ◌^◌, List, ℕ, length};
    ghost use Rattle.spd_data.specs.Pieces.{pieces, AreEnds};

    ghost Value = { List (List ℕ) };

    ghost view = { λ texts. pieces texts.bytes.items 0 texts.ends.items };

    ghost invariant = { λ texts. (length texts.ends.items < 2 ^ 32) × (length texts.bytes.items < 2 ^ 32)
        × AreEnds 0 texts.ends.items (length texts.bytes.items) };
}

impl Texts {
    /// A list without entries, which takes no memory yet.
    pub fn new(alloc: Global) -> Texts
        ensures { result ≡ [] }
    {
        Texts {
            bytes: Vec::new(alloc),
            ends: Vec::new(alloc),
        }
    }

    /// The number of entries.
    pub fn len(&self) -> u32
        ensures length { result ≡ length self.now }
        ensures bound { length self.now < 2 ^ 32 }
    {
        self.ends.len() as u32
    }

    pub fn is_empty(&self) -> bool
        ensures { IsTrue result ↔ (self.now ≡ []) }
    {
        self.ends.as_slice().is_empty()
    }

    /// The entry at a place, counted from 0.
    pub fn get(&self, place: u32) -> &[u8]
        requires { place < length self.now }
        ensures { slice_get self.now place ≡ Some result.now }
    {
        piece_at(self.bytes.as_slice(), self.ends.as_slice(), place as usize)
    }

    /// Adds a copy of the bytes as an entry at the end. Where memory runs out, or the list has no
    /// room for so many entries or bytes, it is unchanged.
    pub fn push(&mut self, entry: &[u8]) -> Result<(), AllocError>
        ensures ok { OnOk result (self.new ≡ self.old ++ entry.now ∷ []) }
        ensures err { OnErr result (self.new ≡ self.old) }
    {
        let most = u32::MAX as usize;
        if self.ends.len() >= most || entry.len() > most - self.bytes.len() {
            return Err(AllocError);
        }
        let end = (self.bytes.len() + entry.len()) as u32;
        self.ends.push(end)?;
        match self.bytes.extend_from_slice(entry) {
            Ok(()) => Ok(()),
            Err(fault) => {
                self.ends.pop();
                Err(fault)
            }
        }
    }
}

/// Where the piece of a number begins: where the one before it ends.
fn begin_of(ends: &[u32], number: usize) -> u32
    requires { number < length ends.now }
    ensures { BeginsAt 0 ends.now number result }
{
    if number == 0 {
        return 0;
    }
    ends[number - 1]
}

/// The piece of a number.
fn piece_at<'a>(bytes: &'a [u8], ends: &[u32], number: usize) -> &'a [u8]
    requires within { number < length ends.now }
    requires ends { AreEnds 0 ends.now (length bytes.now) }
    ensures { slice_get (pieces bytes.now 0 ends.now) number ≡ Some result.now }
{
    let start = begin_of(ends, number) as usize;
    let end = ends[number] as usize;
    &bytes[start..end]
}
