// One worker: it takes vertices that are ready and runs them, until the end has run.

ghost use Rattle.std.specs.Prelude.{◌≡◌, ◌*◌, ◌<◌, Some, None};
ghost use Rattle.spd_words.specs.Meaning.{kind_of_awaited};
ghost use Rattle.spd_state.specs.declared.promise.Whole.{Whole};
ghost use Rattle.spd_state.specs.declared.view.Running.{Running};
ghost use Rattle.spd_rule.specs.Payments.{KnowsBooks};
ghost use Rattle.spd_rule.specs.Shares.{IsOf, IsSame, field_plan, share_view};
ghost use Rattle.spd_work.specs.Crew.{HasWorked};
ghost use Rattle.spd_work.specs.Hands.{Sits};
ghost use Rattle.spd_work.specs.Runs.{Rests, RunsOn, RunsTheEnd, RunsNew, Lasts, Stays};
ghost use Rattle.spd_work.specs.Starts.{RunsStarted};
ghost use Rattle.spd_work.specs.Workers.{EndsWell, HasKind, MayResume, WorkerRests};

use crate::events::{on_no_memory, run_events};
use crate::gate::Gate;
use crate::hands::Hands;
use spd_book::{Collected, collect};
use spd_ready::{Ready, Take};
use spd_rule::{Field, Share, see_done, set_done};
use spd_vertex::start;
use spd_vertex::starting::Start;
use spd_words::{Body, FinishKind};
use std::alloc::Global;
use std::sync::Wait;
use std::thread;

/// A worker of a region.
#[derive(Drop)]
pub(crate) struct Worker<B, Q> {
    pub hands: Hands<B, Q>,
    pub number: u32,
    /// What it has collected, where it ran the end.
    pub ended: Option<Collected>,
}

/// Runs vertices until the end has run.
pub(crate) fn work<R: Wait, B: Body, Q: Ready, G: Gate>(
    rt: &R,
    alloc: Global,
    field: &Field<B>,
    kind: FinishKind,
    gate: &G,
    worker: &mut Worker<B, Q>,
)
    requires works { WorkerRests Q.room Q.pushed field.now kind worker.old }
    ensures works { WorkerRests Q.room Q.pushed field.now kind worker.new }
    ensures stays { Stays (share_view worker.old.hands.share) (share_view worker.new.hands.share) }
{
    for _ in rt.forever() {
        if work_once(rt, alloc, field, kind, gate, worker) {
            return;
        }
    }
    unreachable!()
}

/// The same, until the end has run, which is the answer, or until two vertices were ready at once, of which it
/// can take only one.
pub(crate) fn work_alone<R: Wait, B: Body, Q: Ready, G: Gate>(
    rt: &R,
    alloc: Global,
    field: &Field<B>,
    kind: FinishKind,
    gate: &G,
    worker: &mut Worker<B, Q>,
) -> bool
    requires works { WorkerRests Q.room Q.pushed field.now kind worker.old }
    ensures { HasWorked Q.room Q.pushed field.now kind worker.old worker.new }
{
    for _ in rt.forever() {
        if work_once(rt, alloc, field, kind, gate, worker) {
            return true;
        }
        if worker.hands.spawned {
            return false;
        }
    }
    unreachable!()
}

/// Runs one vertex that is ready; where none is, answers whether the end has run.
fn work_once<R: Wait, B: Body, Q: Ready, G: Gate>(
    rt: &R,
    alloc: Global,
    field: &Field<B>,
    kind: FinishKind,
    gate: &G,
    worker: &mut Worker<B, Q>,
) -> bool
    requires works { WorkerRests Q.room Q.pushed field.now kind worker.old }
    ensures works { WorkerRests Q.room Q.pushed field.now kind worker.new }
    ensures stays { Stays (share_view worker.old.hands.share) (share_view worker.new.hands.share) }
{
    match worker.hands.ready.take(rt) {
        Take::Got(vertex) => {
            if vertex / 2 < field.plan().moves() {
                run_vertex(rt, alloc, field, kind, gate, worker, vertex);
            }
            false
        }
        Take::Empty => {
            let done = is_done(field, &mut worker.hands);
            if !done {
                thread::yield_now();
            }
            done
        }
    }
}

/// Whether the end has run.
fn is_done<B: Body, Q: Ready>(field: &Field<B>, hands: &mut Hands<B, Q>) -> bool
    requires sits { Sits Q.room Q.pushed field.now hands.old }
    requires rests { Rests (share_view hands.old.share) }
    ensures sits { Sits Q.room Q.pushed field.now hands.new }
    ensures lasts { Lasts (share_view hands.old.share) (share_view hands.new.share) }
    ensures rests { Rests (share_view hands.new.share) }
{
    see_done(field, &mut hands.share) == 1
}

/// Starts a vertex, where it is ready, and runs it.
fn run_vertex<R: Wait, B: Body, Q: Ready, G: Gate>(
    rt: &R,
    alloc: Global,
    field: &Field<B>,
    kind: FinishKind,
    gate: &G,
    worker: &mut Worker<B, Q>,
    vertex: u32,
)
    requires works { WorkerRests Q.room Q.pushed field.now kind worker.old }
    requires inside { vertex < 2 * (field_plan field.now).moves }
    ensures works { WorkerRests Q.room Q.pushed field.now kind worker.new }
    ensures stays { Stays (share_view worker.old.hands.share) (share_view worker.new.hands.share) }
{
    match begin(field, &mut worker.hands, vertex) {
        Start::Taken { state: _ } => {}
        Start::End => {
            gate.started(worker.number, vertex);
            finish_end(field, kind, worker);
        }
        Start::Ours(body) => {
            gate.started(worker.number, vertex);
            go_on(rt, alloc, field, &mut worker.hands, vertex, body);
        }
    }
}

/// Starts a vertex, where it is ready.
fn begin<B: Body, Q: Ready>(field: &Field<B>, hands: &mut Hands<B, Q>, vertex: u32) -> Start<B>
    requires sits { Sits Q.room Q.pushed field.now hands.old }
    requires inside { vertex < 2 * (field_plan field.now).moves }
    requires rests { Rests (share_view hands.old.share) }
    ensures sits { Sits Q.room Q.pushed field.now hands.new }
    ensures lasts { Lasts (share_view hands.old.share) (share_view hands.new.share) }
    ensures runs { RunsStarted B.view vertex (share_view hands.new.share) result }
{
    start(field, &mut hands.share, vertex)
}

/// Runs a vertex that has just been started. Where its body waits for a finish, it collects that first.
fn go_on<R: Wait, B: Body, Q: Ready>(
    rt: &R,
    alloc: Global,
    field: &Field<B>,
    hands: &mut Hands<B, Q>,
    vertex: u32,
    mut body: B,
)
    requires sits { Sits Q.room Q.pushed field.now hands.old }
    requires inside { vertex < 2 * (field_plan field.now).moves }
    requires begins { (r : Running) × RunsNew (share_view hands.old.share) r vertex (B.view body) }
    ensures sits { Sits Q.room Q.pushed field.now hands.new }
    ensures lasts { Lasts (share_view hands.old.share) (share_view hands.new.share) }
    ensures rests { Rests (share_view hands.new.share) }
{
    let Some(kind) = body.waits() else {
        run_events(rt, alloc, field, hands, body);
        return;
    };
    let collected = collect_first(field, &mut hands.share, vertex, kind, &body);
    if collected.fault == 0 {
        on_no_memory(rt, field, hands, body);
        return;
    }
    body.resume(collected.gift, collected.fault);
    run_events(rt, alloc, field, hands, body);
}

/// Collects what the body of a new vertex waits for. Unless the code is 0, the body may be resumed with it.
fn collect_first<B: Body>(
    field: &Field<B>,
    share: &mut Share<B>,
    vertex: u32,
    kind: FinishKind,
    body: &B,
) -> Collected
    requires of { IsOf field.now share.old }
    requires inside { vertex < 2 * (field_plan field.now).moves }
    requires keeps { (w : Whole) × KnowsBooks (share_view share.old) w }
    requires begins { (r : Running) × RunsNew (share_view share.old) r vertex (B.view body.now) }
    requires waits { kind_of_awaited (B.view body.now).means.awaited ≡ Some kind }
    ensures same { IsSame share.old share.new }
    ensures lasts { Lasts (share_view share.old) (share_view share.new) }
    ensures ready { (share_view share.new).ready ≡ (share_view share.old).ready }
    ensures on { (r : Running) × RunsOn (share_view share.new) r }
    ensures collected { (share_view share.new).awaited ≡ None }
    ensures resumes { MayResume (share_view share.new) (B.view body.now) result }
{
    let _ = body;
    collect(field, share, vertex / 2, kind)
}

/// Collects what the region gives, and tells all workers that it is done.
fn finish_end<B: Body, Q: Ready>(field: &Field<B>, kind: FinishKind, worker: &mut Worker<B, Q>)
    requires sits { Sits Q.room Q.pushed field.now worker.old.hands }
    requires kind { HasKind (share_view worker.old.hands.share) kind }
    requires runs { (r : Running) × RunsTheEnd (share_view worker.old.hands.share) r }
    ensures sits { Sits Q.room Q.pushed field.now worker.new.hands }
    ensures stays { Stays (share_view worker.old.hands.share) (share_view worker.new.hands.share) }
    ensures rests { Rests (share_view worker.new.hands.share) }
    ensures ends { EndsWell (share_view worker.new.hands.share) worker.new.ended }
{
    worker.ended = Some(collect(field, &mut worker.hands.share, 0, kind));
    set_done(field, &mut worker.hands.share);
}
