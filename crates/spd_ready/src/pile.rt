// A pile of numbers.

ghost use Rattle.std.specs.Prelude.{◌≡◌, ◌<◌, ◌≤◌, ◌↔◌, [], ◌∷◌, ◌++◌, None, IfOk, IfNone, IfSome, length};
ghost use Rattle.spd_ready.specs.Piles.{PileState};

use std::alloc::{AllocError, Global};
use std::marker::Model;

/// Numbers of vertices, of which the newest leaves first. A contract sees its room and its numbers.
#[derive(Drop)]
pub struct Pile {
    numbers: Vec<u32>,
    room: u32,
}

impl Model for Pile {
    ghost use Rattle.std.specs.Prelude.{◌≤◌, vec_capacity, vec_len};
    ghost use Rattle.spd_ready.specs.Piles.{PileState};

    ghost Value = { PileState };

    ghost view = { λ pile. record { room = pile.room; numbers = pile.numbers.items } };

    ghost invariant = { λ pile. (vec_len pile.numbers ≤ pile.room) × (pile.room ≤ vec_capacity pile.numbers) };
}

impl Pile {
    /// An empty pile with room for `room` numbers. Their memory is taken here, and by no other call.
    /// `AllocError` where memory runs out.
    pub fn new(alloc: Global, room: u32) -> Result<Pile, AllocError>
        ensures { IfOk result (λ pile. pile ≡ record { room = room; numbers = [] }) }
    {
        Ok(Pile {
            numbers: Vec::with_capacity(alloc, room as usize)?,
            room,
        })
    }

    /// Puts a number on the pile. Where as many as it has room for stand there, nothing changes.
    pub fn add(&mut self, vertex: u32)
        ensures added { length self.old.numbers < self.old.room
            → self.new ≡ record self.old { numbers = self.old.numbers ++ vertex ∷ [] } }
        ensures full { self.old.room ≤ length self.old.numbers → self.new ≡ self.old }
    {
        if self.numbers.len() < self.room as usize {
            let Ok(()) = self.numbers.push(vertex) else {
                unreachable!()
            };
        }
    }

    /// Takes the number that was put there last, or none exactly where the pile is empty.
    pub fn take_out(&mut self) -> Option<u32>
        ensures none { (result ≡ None) ↔ (self.old.numbers ≡ []) }
        ensures last { IfSome result (λ vertex. self.old.numbers ≡ self.new.numbers ++ vertex ∷ []) }
        ensures room { self.new.room ≡ self.old.room }
        ensures empty { IfNone result (self.new ≡ self.old) }
    {
        self.numbers.pop()
    }
}
