// A field's workers, from the first vertex to the end.

ghost use Rattle.std.specs.Prelude.{◌≡◌, ◌==◌, ◌||◌, ◌*◌, ◌<◌, ◌≤◌, All, IfOk, [], length};
ghost use Rattle.spd_words.specs.Meaning.{IsTame};
ghost use Rattle.spd_words.specs.BodyCalls.{IsReady};
ghost use Rattle.spd_state.specs.Seats.{first_view};
ghost use Rattle.spd_rule.specs.Shares.{IsOf, field_plan, share_known};
ghost use Rattle.spd_work.specs.Crew.{EachPair, HasWorked, IsUnused};
ghost use Rattle.spd_work.specs.Regions.{IsRegion};
ghost use Rattle.spd_work.specs.Workers.{WorkerRests};

use crate::gate::Gate;
use crate::gathering::gather;
use crate::placing::{handles_on, place};
use crate::region_end::RegionEnd;
use crate::worker::{Worker, work, work_alone};
use spd_dag::make;
use spd_grow::Coin;
use spd_ready::{LockedList, Ready};
use spd_rule::{Field, Share};
use spd_words::{Body, FinishKind};
use std::alloc::{AllocError, Global};
use std::sync::Wait;
use std::thread;
use std::thread::Threads;

/// Runs a body as the first vertex of a new field, for a finish of this kind, on so many workers, each in a
/// thread of its own where one can be made. Its coins are for trees that grow: a flat counter flips none.
///
/// `AllocError` comes where memory runs out, here or in a body.
pub fn region<R: Threads + Wait + Sync, B: Body, C: Coin, G: Gate>(
    rt: &R,
    alloc: Global,
    field: Field<B>,
    share: Share<B>,
    kind: FinishKind,
    body: B,
    workers: u32,
    coins: &mut [C],
    gate: &G,
) -> Result<RegionEnd<B>, AllocError>
    requires of { IsOf field share }
    requires new { share_known share ≡ (first_view, []) }
    requires ready { IsReady kind (B.view body) }
    requires tame { IsTame (B.view body).means }
    requires workers { (0 < workers) × (workers ≤ 64) }
    requires coins { workers ≤ length coins.old }
    ensures { IfOk result (λ end. IsRegion (field_plan field) (B.view body) end) }
{
    let _ = coins;
    let plan = field.plan();
    let list = LockedList::new(alloc, 2 * plan.moves())?;
    let handles = handles_on(alloc, &list, workers)?;
    let end = run_region(rt, alloc, field, share, kind, body, handles, gate)?;
    Ok(end)
}

/// The same, with a handle for each worker.
fn run_region<R: Threads + Wait + Sync, B: Body, G: Gate, Q: Ready + Drop>(
    rt: &R,
    alloc: Global,
    field: Field<B>,
    share: Share<B>,
    kind: FinishKind,
    body: B,
    handles: Vec<Q>,
    gate: &G,
) -> Result<RegionEnd<B>, AllocError>
    requires of { IsOf field share }
    requires new { share_known share ≡ (first_view, []) }
    requires ready { IsReady kind (B.view body) }
    requires tame { IsTame (B.view body).means }
    requires handles { (0 < length handles.items) × (length handles.items ≤ 64) }
    requires unused { All (IsUnused Q.room Q.pushed (field_plan field)) handles.items }
    ensures { IfOk result (λ end. IsRegion (field_plan field) (B.view body) end) }
{
    let plan = field.plan();
    let mut workers = Vec::with_capacity(alloc, handles.len())?;
    let mut share = share;
    make(&field, &mut share, kind, body);
    place(rt, &field, share, handles, &mut workers);
    run_all(rt, alloc, &field, kind, gate, &mut workers);
    let (share, ended) = gather(&field, workers);
    let closed = field.close(share);
    let code = closed.word(plan.fault_place(0));
    let Some(collected) = ended else {
        return Err(AllocError);
    };
    if lacks_memory(collected.fault, code) {
        return Err(AllocError);
    }
    Ok(RegionEnd {
        gift: collected.gift,
        fault: collected.fault,
        closed,
    })
}

/// Worker 0, the last one, runs alone until there is work for another, and then all run.
fn run_all<R: Threads + Wait + Sync, B: Body, G: Gate, Q: Ready>(
    rt: &R,
    alloc: Global,
    field: &Field<B>,
    kind: FinishKind,
    gate: &G,
    workers: &mut Vec<Worker<B, Q>>,
)
    requires some { 0 < length workers.old.items }
    requires works { All (WorkerRests Q.room Q.pushed field.now kind) workers.old.items }
    ensures { EachPair (HasWorked Q.room Q.pushed field.now kind) workers.old.items workers.new.items }
{
    let first = workers.len() - 1;
    if !work_alone(rt, alloc, field, kind, gate, &mut workers[first]) {
        run_together(rt, alloc, field, kind, gate, workers);
    }
}

/// Each worker runs until the end has run, in a thread of its own where one can be made.
fn run_together<R: Threads + Wait + Sync, B: Body, G: Gate, Q: Ready>(
    rt: &R,
    alloc: Global,
    field: &Field<B>,
    kind: FinishKind,
    gate: &G,
    workers: &mut Vec<Worker<B, Q>>,
)
    requires some { 0 < length workers.old.items }
    requires works { All (WorkerRests Q.room Q.pushed field.now kind) workers.old.items }
    ensures { EachPair (HasWorked Q.room Q.pushed field.now kind) workers.old.items workers.new.items }
{
    let threads = workers.len();
    let run = |_place: usize, worker: &mut Worker<B, Q>|
        requires { WorkerRests Q.room Q.pushed field.now kind worker.old }
        ensures { HasWorked Q.room Q.pushed field.entry.now kind worker.old worker.new }
    {
        work(rt, alloc, field, kind, gate, worker);
    };
    thread::for_each_mut(rt, workers.as_mut_slice(), threads, &run);
}

/// Whether a body lacked memory: the end collected the code 0, or that is the code of the finish by now.
fn lacks_memory(fault: u64, code: u64) -> bool
    ensures { result ≡ ((fault == 0) || (code == 0)) }
{
    fault == 0 || code == 0
}
