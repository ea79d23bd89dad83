// The arguments of a program, by their numbers and all together.
ghost use Rattle.std.specs.Prelude.{◌≡◌, List, ℕ, Option, IfOk, IfSome, slice_get};

use spd_list::Seq;
use std::alloc::{AllocError, Global};

/// The arguments that a program was called with, of which the first is its own name.
pub trait Arguments {
    /// All of them, where it tells.
    ghost told: { Self → Option (List (List ℕ)) };

    /// The bytes of the argument of a number, counted from 0; none behind the last. An argument of
    /// more than 4,294,967,295 bytes answers as where memory runs out.
    fn argument(&self, alloc: Global, number: u32) -> Result<Option<Seq<u8>>, AllocError>
        ensures { IfOk result (λ found. IfSome (told self.now) (λ all. found ≡ slice_get all number)) };
}

/// All arguments, in order. More than 4,294,967,294 answer as where memory runs out.
pub fn all_arguments<A: Arguments>(alloc: Global, arguments: &A) -> Result<Seq<Seq<u8>>, AllocError>
    ensures { IfOk result (λ all. IfSome (A.told arguments.now) (λ told. all ≡ told)) }
{
    let mut all = Seq::new(alloc);
    for number in 0..u32::MAX {
        let Some(argument) = arguments.argument(alloc, number)? else {
            return Ok(all);
        };
        all.push(argument)?;
    }
    Err(AllocError)
}
