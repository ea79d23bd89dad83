// What a worker does with the events of the body that it runs.

ghost use Rattle.std.specs.Prelude.{◌≡◌, ◌+◌, None};
ghost use Rattle.spd_words.specs.Meaning.{BodyView};
ghost use Rattle.spd_words.specs.BodyCalls.{Advances, event_seen, part_seen, in_part};
ghost use Rattle.spd_words.specs.declared.event.Event.TheVariants as event;
ghost use Rattle.spd_words.specs.declared.event.Part.TheVariants as part;
ghost use Rattle.spd_state.specs.declared.view.Running.{Running};
ghost use Rattle.spd_rule.specs.Shares.{share_view};
ghost use Rattle.spd_rule.specs.Steps.{HasPaid};
ghost use Rattle.spd_work.specs.Hands.{Sits};
ghost use Rattle.spd_work.specs.Meets.{Meets, BodyGoesOn};
ghost use Rattle.spd_work.specs.Runs.{Rests, RunsOn, RunsBody, RunsCut, RunsPart, IsClear, Lasts};

use crate::hands::Hands;
use crate::told::{fault_of, no_memory_of, offer_of};
use crate::turns::{Chained, Spawned, chain, signal, spawn};
use spd_ready::Ready;
use spd_rule::Field;
use spd_words::{Body, Event, FinishKind, Part};
use std::alloc::Global;
use std::sync::Wait;

/// Goes from event to event, until the share runs nothing.
pub(crate) fn run_events<R: Wait, B: Body, Q: Ready>(
    rt: &R,
    alloc: Global,
    field: &Field<B>,
    hands: &mut Hands<B, Q>,
    mut body: B,
)
    requires sits { Sits Q.room Q.pushed field.now hands.old }
    requires runs { (r : Running) × RunsBody (share_view hands.old.share) r (B.view body) }
    ensures sits { Sits Q.room Q.pushed field.now hands.new }
    ensures lasts { Lasts (share_view hands.old.share) (share_view hands.new.share) }
    ensures rests { Rests (share_view hands.new.share) }
{
    loop {
        let event = body.advance(alloc);
        match on_event(rt, alloc, field, hands, body, event) {
            Some(next) => body = next,
            None => return,
        }
    }
}

/// What is left of a body comes back, unless the vertex is over.
fn on_event<R: Wait, B: Body, Q: Ready>(
    rt: &R,
    alloc: Global,
    field: &Field<B>,
    hands: &mut Hands<B, Q>,
    rest: B,
    event: Event<B>,
) -> Option<B>
    requires sits { Sits Q.room Q.pushed field.now hands.old }
    requires met { (r : Running) × (b : BodyView) × Meets B.view B.fits (share_view hands.old.share) r b rest event }
    ensures sits { Sits Q.room Q.pushed field.now hands.new }
    ensures lasts { Lasts (share_view hands.old.share) (share_view hands.new.share) }
    ensures goes { (b : BodyView) → Advances b (B.view rest) (event_seen B.view event)
        → BodyGoesOn B.view (share_view hands.new.share) b.size result }
{
    match event {
        Event::Offer(value) => {
            on_offer(field, hands, value, &rest);
            Some(rest)
        }
        Event::Fault(code) => {
            on_fault(field, hands, code, &rest);
            Some(rest)
        }
        Event::Async(body) => on_async(rt, alloc, field, hands, body, rest),
        Event::Finish(kind, body) => { on_finish(rt, alloc, field, hands, kind, body, rest) }
        Event::Over => {
            drop(rest);
            on_over(rt, field, hands);
            None
        }
        Event::NoMemory => {
            on_no_memory(rt, field, hands, rest);
            None
        }
    }
}

/// An offer goes to the book.
fn on_offer<B: Body, Q: Ready>(field: &Field<B>, hands: &mut Hands<B, Q>, value: i64, rest: &B)
    requires sits { Sits Q.room Q.pushed field.now hands.old }
    requires runs { (r : Running) × RunsCut (share_view hands.old.share) r (event.Offer value) (B.view rest.now) }
    ensures sits { Sits Q.room Q.pushed field.now hands.new }
    ensures lasts { Lasts (share_view hands.old.share) (share_view hands.new.share) }
    ensures runs { (r : Running) × RunsBody (share_view hands.new.share) r (B.view rest.now) }
{
    let kind = rest.kind();
    offer_of(field, &mut hands.share, kind, value, rest);
}

/// A fault goes to the book.
fn on_fault<B: Body, Q: Ready>(field: &Field<B>, hands: &mut Hands<B, Q>, code: u64, rest: &B)
    requires sits { Sits Q.room Q.pushed field.now hands.old }
    requires runs { (r : Running) × RunsCut (share_view hands.old.share) r (event.Fault code) (B.view rest.now) }
    ensures sits { Sits Q.room Q.pushed field.now hands.new }
    ensures lasts { Lasts (share_view hands.old.share) (share_view hands.new.share) }
    ensures runs { (r : Running) × RunsBody (share_view hands.new.share) r (B.view rest.now) }
{
    fault_of(field, &mut hands.share, code, rest);
}

/// The body becomes a vertex beside the rest; where no move is left, it goes on inside.
fn on_async<R: Wait, B: Body, Q: Ready>(
    rt: &R,
    alloc: Global,
    field: &Field<B>,
    hands: &mut Hands<B, Q>,
    body: B,
    rest: B,
) -> Option<B>
    requires sits { Sits Q.room Q.pushed field.now hands.old }
    requires runs { (r : Running) × RunsCut (share_view hands.old.share) r (event.Async (B.view body)) (B.view rest) }
    requires fits { B.fits rest (part.Async body) }
    ensures sits { Sits Q.room Q.pushed field.now hands.new }
    ensures lasts { Lasts (share_view hands.old.share) (share_view hands.new.share) }
    ensures goes { BodyGoesOn B.view (share_view hands.new.share) ((B.view rest).size + (B.view body).size + 2) result }
{
    match spawn(field, &mut hands.share, body, rest) {
        Spawned::Two { left, right } => {
            hands.ready.push(rt, left);
            hands.ready.push(rt, right);
            hands.spawned = true;
            None
        }
        Spawned::Full { body, rest } => {
            on_full(rt, alloc, field, hands, rest, Part::Async(body))
        }
    }
}

/// The body becomes the first vertex of a finish for which the rest waits; where no move is left, it goes
/// on inside.
fn on_finish<R: Wait, B: Body, Q: Ready>(
    rt: &R,
    alloc: Global,
    field: &Field<B>,
    hands: &mut Hands<B, Q>,
    kind: FinishKind,
    body: B,
    rest: B,
) -> Option<B>
    requires sits { Sits Q.room Q.pushed field.now hands.old }
    requires runs { (r : Running) ×
        RunsCut (share_view hands.old.share) r (event.Finish kind (B.view body)) (B.view rest) }
    requires fits { B.fits rest (part.Finish kind body) }
    ensures sits { Sits Q.room Q.pushed field.now hands.new }
    ensures lasts { Lasts (share_view hands.old.share) (share_view hands.new.share) }
    ensures goes { BodyGoesOn B.view (share_view hands.new.share) ((B.view rest).size + (B.view body).size + 2) result }
{
    match chain(field, &mut hands.share, kind, body, rest) {
        Chained::Opened { body } => {
            hands.ready.push(rt, body);
            None
        }
        Chained::Full { body, rest } => {
            on_full(rt, alloc, field, hands, rest, Part::Finish(kind, body))
        }
    }
}

/// No move is left: the part goes on inside the rest.
fn on_full<R: Wait, B: Body, Q: Ready>(
    rt: &R,
    alloc: Global,
    field: &Field<B>,
    hands: &mut Hands<B, Q>,
    mut rest: B,
    part: Part<B>,
) -> Option<B>
    requires sits { Sits Q.room Q.pushed field.now hands.old }
    requires runs { (r : Running) × RunsPart (share_view hands.old.share) r (B.view rest) (part_seen B.view part) }
    requires fits { B.fits rest part }
    ensures sits { Sits Q.room Q.pushed field.now hands.new }
    ensures lasts { Lasts (share_view hands.old.share) (share_view hands.new.share) }
    ensures goes { BodyGoesOn B.view (share_view hands.new.share)
        ((B.view rest).size + (in_part (part_seen B.view part)).size + 2) result }
{
    match rest.inside(alloc, part) {
        Ok(()) => Some(rest),
        Err(_) => {
            on_no_memory(rt, field, hands, rest);
            None
        }
    }
}

/// The vertex has given all that it owes, or has put the code 0: it signals, and what that wakes is handed on.
pub(crate) fn on_over<R: Wait, B: Body, Q: Ready>(rt: &R, field: &Field<B>, hands: &mut Hands<B, Q>)
    requires sits { Sits Q.room Q.pushed field.now hands.old }
    requires runs { (r : Running) × RunsOn (share_view hands.old.share) r }
    requires paid { HasPaid (share_view hands.old.share) }
    requires clear { IsClear (share_view hands.old.share) }
    ensures sits { Sits Q.room Q.pushed field.now hands.new }
    ensures lasts { Lasts (share_view hands.old.share) (share_view hands.new.share) }
    ensures rests { Rests (share_view hands.new.share) }
{
    if let Some(vertex) = signal(field, &mut hands.share) {
        hands.ready.push(rt, vertex);
    }
}

/// The body can't go on for want of memory: its finish gets the code 0.
pub(crate) fn on_no_memory<R: Wait, B: Body, Q: Ready>(
    rt: &R,
    field: &Field<B>,
    hands: &mut Hands<B, Q>,
    body: B,
)
    requires sits { Sits Q.room Q.pushed field.now hands.old }
    requires runs { (r : Running) × RunsOn (share_view hands.old.share) r }
    requires collected { (share_view hands.old.share).awaited ≡ None }
    ensures sits { Sits Q.room Q.pushed field.now hands.new }
    ensures lasts { Lasts (share_view hands.old.share) (share_view hands.new.share) }
    ensures rests { Rests (share_view hands.new.share) }
{
    no_memory_of(field, &mut hands.share);
    drop(body);
    on_over(rt, field, hands);
}
