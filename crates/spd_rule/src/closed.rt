// A field that no share steps on any more.

ghost use Rattle.std.specs.Prelude.{◌≡◌, ◌<◌, ℕ, min, false, slice_index, slice_index_or};
ghost use Rattle.std.specs.Mem.Slots.{IsFull, slots_filled, slots_len};
ghost use Rattle.spd_words.specs.Plan.{IsPlan, plan_words};

use atomic_table::Closed as ClosedTable;
use spd_words::{Body, Plan};
use std::alloc::Global;

/// The words of a field at its end, with its plan.
pub struct Closed<B> {
    pub(crate) table: ClosedTable<Option<B>, Global>,
    pub(crate) plan: Plan,
    ghost lawful: { IsPlan plan },
    ghost full: { IsFull table.words },
    ghost wide: { slots_len table.words ≡ plan_words plan },
    ghost empty: { (k : ℕ) → k < slots_len table.slots → slice_index_or (slots_filled table.slots) k false ≡ false },
}

impl<B: Body> Closed<B> {
    ghost use Rattle.spd_rule.specs.Closings.{closed_words, closed_plan};

    /// The words of a table whose bodies are let go.
    pub(crate) fn of(mut table: ClosedTable<Option<B>, Global>, plan: Plan) -> Closed<B>
        requires lawful { IsPlan plan }
        requires full { IsFull table.words × IsFull table.slots }
        requires wide { slots_len table.words ≡ plan_words plan }
        ensures plan { result.plan ≡ plan }
        ensures words { result.table.words ≡ table.words }
    {
        for slot in 0..table.slot_count() {
            drop(table.take(slot));
        }
        Closed { table, plan }
    }

    /// The plan that the field was made with.
    pub fn plan(&self) -> Plan
        ensures { result ≡ closed_plan self.now }
    {
        self.plan
    }

    /// The word at this place.
    pub fn word(&self, place: u32) -> u64
        requires { place < plan_words (closed_plan self.now) }
        ensures { result ≡ slice_index (closed_words self.now) place }
    {
        self.table.word(place as usize)
    }

    /// How many moves were drawn, the draws that found none left apart.
    pub fn moves(&self) -> u32
        ensures { result ≡ min (slice_index (closed_words self.now) 0) (closed_plan self.now).moves }
    {
        at_most(self.word(0), self.plan.moves())
    }

    /// How many grown nodes were drawn, the draws that found none left apart.
    pub fn grown(&self) -> u32
        ensures { result ≡ min (slice_index (closed_words self.now) 1) (closed_plan self.now).grown }
    {
        at_most(self.word(1), self.plan.grown())
    }
}

fn at_most(drawn: u64, most: u32) -> u32
    ensures { result ≡ min drawn most }
{
    if drawn < u64::from(most) {
        drawn as u32
    } else {
        most
    }
}

impl<B> Drop for Closed<B> {
    fn drop(self) {
        let Closed { table, plan: _ } = self;
        table.free();
    }
}
