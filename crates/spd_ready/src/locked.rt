// A list of ready vertices under a lock.

ghost use Rattle.std.specs.Prelude.{◌≡◌, ◌<◌, ◌≤◌, ◌+◌, [], ◌∷◌, IfOk, IfNone, IfSome};
ghost use Rattle.std.specs.List.{AllZip};
ghost use Rattle.spd_count.specs.Counts.{Raised};
ghost use Rattle.spd_ready.specs.Handles.{LockedReadyState};
ghost use Rattle.spd_ready.specs.declared.lane.Take.TheVariants.{Empty};

use crate::lane::{Lane, Take, take_from};
use crate::pile::Pile;
use crate::ready::Ready;
use std::alloc::{AllocError, Global};
use std::marker::Model;
use std::sync::{Mutex, Wait};

/// A pile under a lock, from which all workers of a region take. A contract sees its room.
#[derive(Drop)]
pub struct LockedList {
    pile: Mutex<Pile>,
    room: u32,
}

impl Model for LockedList {
    ghost use Rattle.std.specs.Prelude.{ℕ};

    ghost Value = { ℕ };

    ghost view = { λ list. list.room };
}

/// A worker's handle on a locked list. Its one lane is the list.
#[derive(Drop)]
pub struct LockedReady<'l> {
    lane: LockedLane<'l>,
    room: u32,
    pushed: u32,
}

impl<'l> Model for LockedReady<'l> {
    ghost use Rattle.std.specs.Prelude.{◌≤◌};
    ghost use Rattle.spd_ready.specs.Handles.{LockedReadyState};

    ghost Value = { LockedReadyState };

    ghost view = { λ ready. record { room = ready.room; pushed = ready.pushed; looks = ready.lane.looks } };

    ghost invariant = { λ ready. ready.pushed ≤ ready.room };
}

// The list, with the number of times that this worker found nothing there.
#[derive(Drop)]
struct LockedLane<'l> {
    list: &'l LockedList,
    looks: u64,
}

impl LockedList {
    /// An empty list with room for `room` vertices. Their memory is taken here, and by no other call.
    /// `AllocError` where memory runs out.
    pub fn new(alloc: Global, room: u32) -> Result<LockedList, AllocError>
        ensures { IfOk result (λ list. list ≡ room) }
    {
        Ok(LockedList {
            pile: Mutex::new(Pile::new(alloc, room)?),
            room,
        })
    }

    /// A handle that has pushed nothing yet. Where `room` vertices stand in the list, a push adds nothing.
    pub fn handle(&self) -> LockedReady<'_>
        ensures { result ≡ record { room = self.now; pushed = 0; looks = 0 } }
    {
        LockedReady {
            lane: LockedLane {
                list: self,
                looks: 0,
            },
            room: self.room,
            pushed: 0,
        }
    }
}

impl<'l> Lane for LockedLane<'l> {
    ghost looks = { λ lane. lane.looks };

    fn try_take<R: Wait>(&mut self, rt: &R) -> Option<u32> {
        let list = self.list;
        let taken = list.pile.lock(rt).take_out();
        if taken.is_none() {
            self.looks = self.looks.saturating_add(1);
        }
        taken
    }
}

impl<'l> Ready for LockedReady<'l> {
    ghost room = { λ ready. ready.room };

    ghost pushed = { λ ready. ready.pushed };

    ghost looks = { λ ready. ready.looks ∷ [] };

    fn push<R: Wait>(&mut self, rt: &R, vertex: u32) {
        let list = self.lane.list;
        list.pile.lock(rt).add(vertex);
        self.pushed += 1;
    }

    fn take<R: Wait>(&mut self, rt: &R) -> Take {
        let others: &mut [LockedLane<'l>] = &mut [];
        take_from(rt, &mut self.lane, others)
    }
}
