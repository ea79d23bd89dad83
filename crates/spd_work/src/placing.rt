// How the workers of a region get their shares and their handles.

ghost use Rattle.std.specs.Prelude.{◌≡◌, ◌+◌, ◌<◌, ◌≤◌, [], All, IfOk, length, vec_len, vec_capacity};
ghost use Rattle.spd_rule.specs.Shares.{IsOf, field_plan, share_view};
ghost use Rattle.spd_work.specs.Crew.{ArePlaced, HasMade, IsUnused, Placing};

use crate::hands::Hands;
use crate::worker::Worker;
use spd_ready::{LockedList, LockedReady, Ready};
use spd_rule::{Field, Share};
use spd_words::Body;
use std::alloc::{AllocError, Global};
use std::sync::Wait;

/// A handle on the list for each worker.
pub(crate) fn handles_on<'l>(
    alloc: Global,
    list: &'l LockedList,
    workers: u32,
) -> Result<Vec<LockedReady<'l>>, AllocError>
    ensures count { IfOk result (λ handles. length handles.items ≡ workers) }
    ensures unused { IfOk result (λ handles. All (λ h. (h.room ≡ list.now) × (h.pushed ≡ 0)) handles.items) }
{
    let mut handles = Vec::with_capacity(alloc, workers as usize)?;
    for _ in 0..workers {
        handles.push(list.handle())?;
    }
    Ok(handles)
}

/// A worker for each handle, with a share of its own. Worker 0, the last one, has the share that made the
/// region, and hands on the first vertex.
pub(crate) fn place<R: Wait, B: Body, Q: Ready + Drop>(
    rt: &R,
    field: &Field<B>,
    share: Share<B>,
    handles: Vec<Q>,
    workers: &mut Vec<Worker<B, Q>>,
)
    requires of { IsOf field.now share }
    requires made { HasMade 0 (share_view share) }
    requires handles { (0 < length handles.items) × (length handles.items ≤ 64) }
    requires unused { All (IsUnused Q.room Q.pushed (field_plan field.now)) handles.items }
    requires empty { (workers.old.items ≡ []) × (vec_len workers.old ≡ 0) }
    requires room { length handles.items ≤ vec_capacity workers.old }
    ensures some { 0 < length workers.new.items }
    ensures placed { ArePlaced Q.room Q.pushed field.now (share_view share).whole workers.new.items }
{
    let mut share = share;
    let mut handles = handles;
    let Some(first) = handles.pop() else {
        unreachable!()
    };
    while let Some(ready) = handles.pop() {
        add_worker(field, &mut share, ready, workers);
    }
    add_first(rt, field, share, first, workers);
}

/// One more worker, with a new share.
fn add_worker<B: Body, Q: Ready + Drop>(
    field: &Field<B>,
    share: &mut Share<B>,
    ready: Q,
    workers: &mut Vec<Worker<B, Q>>,
)
    requires unused { IsUnused Q.room Q.pushed (field_plan field.now) ready }
    requires few { length workers.old.items < 63 }
    requires room { length workers.old.items < vec_capacity workers.old }
    requires placing { Placing Q.room Q.pushed field.now share.old workers.old.items }
    ensures len { length workers.new.items ≡ length workers.old.items + 1 }
    ensures capacity { vec_capacity workers.old ≤ vec_capacity workers.new }
    ensures placing { Placing Q.room Q.pushed field.now share.new workers.new.items }
    ensures carries { (share_view share.new).whole ≡ (share_view share.old).whole }
{
    let number = workers.len() as u32 + 1;
    let other = field.split(share);
    workers.push_reserved(Worker {
        hands: Hands {
            share: other,
            ready,
            spawned: false,
        },
        number,
        ended: None,
    });
}

/// The first worker, with the share that made the region. Its handle gets vertex 0.
fn add_first<R: Wait, B: Body, Q: Ready + Drop>(
    rt: &R,
    field: &Field<B>,
    share: Share<B>,
    ready: Q,
    workers: &mut Vec<Worker<B, Q>>,
)
    requires unused { IsUnused Q.room Q.pushed (field_plan field.now) ready }
    requires room { length workers.old.items < vec_capacity workers.old }
    requires placing { Placing Q.room Q.pushed field.now share workers.old.items }
    ensures some { 0 < length workers.new.items }
    ensures placed { ArePlaced Q.room Q.pushed field.now (share_view share).whole workers.new.items }
{
    let mut ready = ready;
    ready.push(rt, 0);
    workers.push_reserved(Worker {
        hands: Hands {
            share,
            ready,
            spawned: false,
        },
        number: 0,
        ended: None,
    });
}
