// Workers that run at once.

ghost use Rattle.std.specs.Prelude.{◌*◌, ◌<◌, ◌≤◌};

use crate::gates::Meeting;
use crate::running::{Case, run};
use spd_words::FinishKind;
use std::alloc::{AllocError, Global};
use std::process::Abort;
use std::sync::Wait;
use std::thread::Threads;

/// Steps with so many asyncs, each of which offers 1, and an offer of 5 at the end.
fn asyncs(alloc: Global, count: u32) -> Result<String, AllocError> {
    let mut text = String::new(alloc);
    for _ in 0..count {
        text.push_str("(1)")?;
    }
    text.push_str("5")?;
    Ok(text)
}

fn meet<R: Abort + Threads + Wait + Sync>(rt: &R, alloc: Global, workers: u32)
    requires { (1 < workers) × (workers ≤ 64) }
{
    let text = asyncs(alloc, workers - 1).expect(rt, "memory");
    let meeting = Meeting::new(rt, workers);
    let kind = FinishKind::Sum;
    let case = Case {
        kind,
        text: text.as_str(),
    };
    let end = run(rt, alloc, case, workers, workers, &meeting).expect(rt, "memory");
    assert_eq!(rt; end.gift, i64::from(workers - 1) + 5, "{workers}");
    let all = u64::MAX >> (64 - workers);
    assert_eq!(rt; meeting.come(), (u64::from(workers), all), "{workers}");
}

/// Each of so many leaves is held until the last of them is started, so there are as many workers at once,
/// and they have the numbers from 0 on. This refuses a region with fewer workers than it was given, one
/// that runs them one after another, and a worker that ends where it finds nothing before the end has run:
/// there the test doesn't end. It wants a machine on which 64 threads can be started.
#[test]
fn as_many_vertices_run_at_once_as_there_are_workers(rt: HostRuntime) {
    for workers in [2, 3, 8, 64] {
        meet(&rt, rt.alloc(), workers);
    }
}
