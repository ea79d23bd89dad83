// Which vertices are started, how often, and in which order.

ghost use Rattle.std.specs.Prelude.{◌*◌, ◌<◌, ◌≤◌};
ghost use Rattle.spd_words.specs.Plan.{MayHaveMoves};

use crate::gates::{Noting, Starters};
use crate::running::{Case, run};
use spd_words::FinishKind;
use std::alloc::Global;
use std::process::Abort;
use std::sync::Wait;
use std::thread::Threads;

/// Each vertex of a drawn move was started once, and vertex 1 last; no other was started.
fn compare(rt: &impl Abort, noting: &Noting, moves: u32, label: &str) {
    let vertices = moves.wrapping_mul(2);
    assert_eq!(rt; noting.starts(), u64::from(vertices), "{label}");
    for vertex in 0..vertices {
        assert_eq!(rt; noting.of(vertex).0, 1, "{label}, {vertex}");
    }
    assert_eq!(rt; noting.of(1).1, u64::from(vertices), "{label}, the end");
}

fn check<R: Abort + Threads + Wait + Sync>(
    rt: &R,
    alloc: Global,
    text: &str,
    bound: u32,
    workers: u32,
)
    requires moves { MayHaveMoves bound }
    requires workers { (0 < workers) × (workers ≤ 64) }
{
    let noting = Noting::new(alloc, bound.wrapping_mul(2)).expect(rt, "memory");
    let kind = FinishKind::Sum;
    let end = run(rt, alloc, Case { kind, text }, bound, workers, &noting).expect(rt, "memory");
    compare(rt, &noting, end.closed.moves(), text);
}

/// This refuses a worker that tells its gate of no start, or of a vertex that another has started, and an
/// end that comes before another vertex is over.
#[test]
fn each_vertex_is_started_once_and_vertex_1_last(rt: HostRuntime) {
    for text in [
        "",
        "1(2(3))4",
        "(1)(2)(3)(4)",
        "((1)2(3))S4",
        "((12)S2)G4",
        "(7!(3!6))9!1",
    ] {
        for bound in 1..7 {
            for workers in [1, 2, 3, 8] {
                check(&rt, rt.alloc(), text, bound, workers);
            }
        }
    }
}

/// Where no async is met, or none gets a vertex of its own, worker 0 starts each vertex, on any number of
/// workers. This refuses a region that starts all threads at once: there another worker may be the first.
#[test]
fn without_an_async_worker_0_starts_all(rt: HostRuntime) {
    for (text, bound) in [("", 1), ("35", 4), ("(46)L1", 4), ("1(2)3", 1)] {
        for workers in [2, 8, 64] {
            let starters = Starters::new();
            let kind = FinishKind::Sum;
            let end = run(
                &rt,
                rt.alloc(),
                Case { kind, text },
                bound,
                workers,
                &starters,
            );
            assert!(&rt; end.is_ok(), "{text} on {workers}");
            assert_eq!(&rt; starters.numbers(), 1, "{text} on {workers}");
        }
    }
}
