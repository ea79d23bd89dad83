// Handles of a locked list, each on a thread of its own: each vertex comes out once.

ghost use Rattle.std.specs.Prelude.{◌≡◌, ◌≤◌, ◌+◌, ◌<◌, All, IfOk};

use spd_ready::{LockedList, LockedReady, Ready, Take};
use std::alloc::{AllocError, Global};
use std::process::Abort;
use std::sync::Wait;
use std::sync::atomic::{AtomicU64, Ordering};
use std::thread;
use std::thread::Threads;

const WORKERS: usize = 8;

const EACH: u32 = 500;

/// Notes a vertex that was taken.
fn note(seen: &[AtomicU64], vertex: u32) {
    if let Some(count) = seen.get(vertex as usize) {
        count.fetch_add(1, Ordering::SeqCst);
    }
}

/// Pushes a vertex and takes one, where one is left.
fn hand_on<Q: Ready>(rt: &impl Wait, ready: &mut Q, vertex: u32, seen: &[AtomicU64])
    requires { Q.pushed ready.old < Q.room ready.old }
    ensures pushed { Q.pushed ready.new ≡ Q.pushed ready.old + 1 }
    ensures room { Q.room ready.new ≡ Q.room ready.old }
{
    ready.push(rt, vertex);
    if let Take::Got(vertex) = ready.take(rt) {
        note(seen, vertex);
    }
}

/// Hands on the vertices of a worker.
fn hand_on_all<Q: Ready>(rt: &impl Wait, ready: &mut Q, worker: usize, seen: &[AtomicU64])
    requires { Q.pushed ready.old + 500 ≤ Q.room ready.old }
{
    let first = u32::try_from(worker).unwrap_or(0).wrapping_mul(EACH);
    for step in 0..EACH {
        hand_on(rt, ready, first.wrapping_add(step), seen);
    }
}

/// A handle for each worker.
fn handles(alloc: Global, list: &LockedList) -> Result<Vec<LockedReady<'_>>, AllocError>
    ensures { IfOk result (λ all. All (λ ready. ready ≡ record { room = list.now; pushed = 0; looks = 0 }) all.items) }
{
    let mut all = Vec::new(alloc);
    for _ in 0..WORKERS {
        all.push(list.handle())?;
    }
    Ok(all)
}

/// Hands on with all handles at once, each on a thread where one can be started.
fn hand_on_in_threads<R: Threads + Wait + Sync>(
    rt: &R,
    handles: &mut [LockedReady<'_>],
    seen: &[AtomicU64],
)
    requires { All (λ ready. ready.pushed + 500 ≤ ready.room) handles.old }
{
    let run = |worker: usize, ready: &mut LockedReady|
        requires { ready.old.pushed + 500 ≤ ready.old.room }
    { hand_on_all(rt, ready, worker, seen) };
    thread::for_each_mut(rt, handles, WORKERS, &run);
}

/// A count for each vertex.
fn counts(alloc: Global) -> Result<Vec<AtomicU64>, AllocError> {
    let mut seen = Vec::new(alloc);
    for _ in 0..WORKERS * EACH as usize {
        seen.push(AtomicU64::new(0))?;
    }
    Ok(seen)
}

#[test]
fn each_vertex_comes_out_once(rt: HostRuntime) {
    let list = LockedList::new(rt.alloc(), 4000).expect(&rt, "memory");
    let seen = counts(rt.alloc()).expect(&rt, "memory");
    let mut all = handles(rt.alloc(), &list).expect(&rt, "memory");
    hand_on_in_threads(&rt, all.as_mut_slice(), seen.as_slice());
    // What a worker found nothing to take for lies there still.
    let mut last = list.handle();
    for _ in 0..WORKERS * EACH as usize {
        if let Take::Got(vertex) = last.take(&rt) {
            note(seen.as_slice(), vertex);
        }
    }
    assert_eq!(rt; last.take(&rt), Take::Empty);
    for (vertex, count) in seen.iter().enumerate() {
        assert_eq!(rt; count.load(Ordering::SeqCst), 1, "{vertex}");
    }
}
