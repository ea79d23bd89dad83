// The steps of a player as values, so that schedules are tables.

use crate::player::Player;
use crate::stub::Stub;
use spd_rule::Field;
use spd_words::FinishKind;

/// A step of a player. A vertex is stored with the stub of this name.
#[derive(Clone, Copy, Debug)]
pub enum Turn {
    DrawMake,
    DrawChain,
    DrawSpawn,
    SetRoot,
    SetHandle,
    SetHandles,
    StoreEnd,
    StoreFirst(u32),
    StoreRest(u32),
    /// The waiting vertex of a chain, whose finish is of this kind.
    StoreWaiting(u32, FinishKind),
    StoreBody(u32),
    StoreLeft(u32),
    StoreRight(u32),
    See(u32),
    /// Of a vertex that was seen to be in this word.
    Start(u32, u64),
    Claim,
    Arrive,
    Depart,
    Wake,
    AddSum(i64),
    RaiseBest(u64),
    LowerFault(u64),
    /// A value for a finish of this kind, and a code, by the calls of `spd_book`.
    Offer(FinishKind, i64),
    Fault(u64),
    SeeSum(u32),
    SeeFault(u32),
    SetDone,
    SeeDone,
}

impl Player {
    ghost use Rattle.spd_rule.specs.Shares.{IsOf};

    /// Takes the step, where the notes allow it.
    pub fn take(&mut self, field: &Field<Stub>, turn: Turn) -> Option<u64>
        requires { IsOf field.now self.old.share }
        ensures { IsOf field.now self.new.share }
    {
        match turn {
            Turn::DrawMake => self.draw_make(field),
            Turn::DrawChain => self.draw_chain(field),
            Turn::DrawSpawn => self.draw_spawn(field),
            Turn::SetRoot => self.set_root(field),
            Turn::SetHandle => self.set_handle(field),
            Turn::SetHandles => self.set_handles(field),
            Turn::StoreEnd => self.store_end(field),
            Turn::StoreFirst(name) => self.store_first(field, Stub::new(name)),
            Turn::StoreRest(name) => self.store_rest(field, Stub::new(name)),
            Turn::StoreWaiting(name, kind) => { self.store_rest(field, Stub::waiting(name, kind)) }
            Turn::StoreBody(name) => self.store_body(field, Stub::new(name)),
            Turn::StoreLeft(name) => self.store_left(field, Stub::new(name)),
            Turn::StoreRight(name) => self.store_right(field, Stub::new(name)),
            Turn::See(v) => self.see(field, v),
            Turn::Start(v, seen) => self.start(field, v, seen),
            Turn::Claim => self.claim(field),
            Turn::Arrive => self.arrive(field),
            Turn::Depart => self.depart(field),
            Turn::Wake => self.wake(field),
            Turn::AddSum(x) => self.add_sum(field, x),
            Turn::RaiseBest(x) => self.raise_best(field, x),
            Turn::LowerFault(code) => self.lower_fault(field, code),
            Turn::Offer(kind, value) => self.offer(field, kind, value),
            Turn::Fault(code) => self.fault(field, code),
            Turn::SeeSum(d) => self.see_sum(field, d),
            Turn::SeeFault(d) => self.see_fault(field, d),
            Turn::SetDone => self.set_done(field),
            Turn::SeeDone => self.see_done(field),
        }
    }
}
