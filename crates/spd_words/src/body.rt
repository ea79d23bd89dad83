// The contract of what a vertex runs.

ghost use Rattle.std.specs.Prelude.{◌≡◌, ◌≢◌, ℕ, ℤ, None, IfOk, OnErr, IsSome};
ghost use Rattle.spd_words.specs.Meaning.{BodyView, Promise, Going, Ended, kind_of_awaited};
ghost use Rattle.spd_words.specs.BodyCalls.{Advances, StaysTame, event_seen, part_seen, FitsNext, TakesIn, Resumes};
ghost use Rattle.spd_words.specs.declared.event.Part.{Part};

use crate::event::{Event, Part};
use crate::finish_kind::FinishKind;
use std::alloc::{AllocError, Global};

/// What a vertex runs: work that is cut into events.
///
/// A body means something (`Meaning`): the kind of the finish that it offers to, whether it is wild,
/// what it waits for, and what it still promises to its finish; a wild one promises nothing. It
/// has a stage, and a size that falls with each event. A tame body (`IsTame`) isn't wild, promises
/// and awaits lawful totals alone, and stays so; it gives only tame bodies, and codes from 1 to
/// 2^64 - 2.
pub trait Body: Send + Drop + Sized {
    /// What is told of a body.
    ghost view: { Self → BodyView };

    /// The part fits the body: it may be taken back into it.
    ghost fits: { Self → Part Self → Type 0 };

    /// What a body that waits promises once it is resumed with this gift and this fault.
    ghost resumed: { Self → ℤ → ℕ → Promise };

    /// The kind of the finish that it offers to. It never changes.
    fn kind(&self) -> FinishKind
        ensures { result ≡ (view self.now).means.kind };

    /// The kind of the finish that it waits for, if it waits for one.
    ///
    /// A body that waits may be resumed, or be given that finish's body back by `inside`.
    fn waits(&self) -> Option<FinishKind>
        ensures { result ≡ kind_of_awaited (view self.now).means.awaited };

    /// Goes on to the next event; what is left afterwards is the rest.
    ///
    /// It waits after `Finish`, for that finish, and after no other event. After `Over` and
    /// `NoMemory` it has ended and may only be let go. `NoMemory` comes where memory runs out, and
    /// always after `resume` with the fault 0.
    fn advance(&mut self, alloc: Global) -> Event<Self>
        requires awaited { (view self.old).means.awaited ≡ None }
        requires stage { (view self.old).stage ≢ Ended }
        // The promise is split into the event and the promise of the rest.
        ensures step { Advances (view self.old) (view self.new) (event_seen view result) }
        // What was tame stays so, and gives only what is tame.
        ensures tame { StaysTame (view self.old) (view self.new) (event_seen view result) }
        // The body of the event may be taken back.
        ensures part { FitsNext fits self.new result };

    /// Takes a part back, so that it runs inside this body.
    ///
    /// Where memory runs out the body has ended, and may only be let go.
    fn inside(&mut self, alloc: Global, part: Part<Self>) -> Result<(), AllocError>
        requires fits { fits self.old part }
        requires stage { (view self.old).stage ≡ Going }
        ensures part { IfOk result (λ _. TakesIn (view self.old) (view self.new) (part_seen view part)) }
        ensures memory { OnErr result ((view self.new).stage ≡ Ended) };

    /// Goes on behind the finish that it waits for, with its gift and the least code of a fault.
    ///
    /// `NO_FAULT` stands for no fault. 0 stands for want of memory, and `advance` answers it next.
    /// It takes no memory.
    fn resume(&mut self, gift: i64, fault: u64)
        requires awaited { IsSome (view self.old).means.awaited }
        requires stage { (view self.old).stage ≡ Going }
        ensures { Resumes (view self.old) (view self.new) (resumed self.old gift fault) gift fault };
}
