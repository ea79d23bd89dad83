// How a task goes on behind a finish for which it waits, whatever that finish gave.

ghost use Rattle.std.specs.Prelude.{◌≡◌, None, IfOk};
ghost use Rattle.spd_words.specs.Meaning.{Going};
ghost use Rattle.spd_task.specs.Task.{task_view};

use crate::events::Met::{self, Fault, NoMemory, Offer, Over};
use crate::events::events_of;
use crate::jobs::{Runs, awaits_gift, awaits_in_async, awaits_in_finish, awaits_nothing, job_of};
use spd_code::CodeTree;
use spd_data::Data;
use spd_syntax::Collect;
use spd_task::Task;
use spd_words::{Body, Event, FinishKind, NO_FAULT, Part};
use std::alloc::{AllocError, Global};
use std::process::Abort;
use std::test::Fail;

/// Which program the task runs.
#[derive(Clone, Copy, Debug)]
enum Awaits {
    Least,
    Plain,
    /// In an async that is taken inside first.
    InAsync,
    /// In a finish that is taken inside first.
    InFinish,
}

/// A program, and how the task of its main goes on behind a finish.
struct ResumeRow {
    awaits: Awaits,
    /// What the task is resumed with.
    gift: i64,
    fault: u64,
    /// The events from there on.
    events: &'static [Met],
}

static RESUMES: [ResumeRow; 12] = [
    // The gift is bound to the name.
    ResumeRow {
        awaits: Awaits::Least,
        gift: 7,
        fault: NO_FAULT,
        events: &[Offer(7), Over],
    },
    ResumeRow {
        awaits: Awaits::Plain,
        gift: 9,
        fault: NO_FAULT,
        events: &[Offer(1), Over],
    },
    ResumeRow {
        awaits: Awaits::InAsync,
        gift: 7,
        fault: NO_FAULT,
        events: &[Offer(7), Offer(1), Over],
    },
    ResumeRow {
        awaits: Awaits::InFinish,
        gift: 7,
        fault: NO_FAULT,
        events: &[Offer(8), Over],
    },
    // A fault ends what stands behind the finish, up to the async or the finish around it.
    ResumeRow {
        awaits: Awaits::Least,
        gift: 7,
        fault: 1,
        events: &[Fault(1), Over],
    },
    ResumeRow {
        awaits: Awaits::Least,
        gift: 7,
        fault: NO_FAULT - 1,
        events: &[Fault(NO_FAULT - 1), Over],
    },
    ResumeRow {
        awaits: Awaits::Plain,
        gift: 0,
        fault: 42,
        events: &[Fault(42), Over],
    },
    ResumeRow {
        awaits: Awaits::InAsync,
        gift: 7,
        fault: 42,
        events: &[Fault(42), Offer(1), Over],
    },
    ResumeRow {
        awaits: Awaits::InFinish,
        gift: 7,
        fault: 42,
        events: &[Fault(42), Over],
    },
    // Want of memory.
    ResumeRow {
        awaits: Awaits::Least,
        gift: 7,
        fault: 0,
        events: &[NoMemory],
    },
    ResumeRow {
        awaits: Awaits::Plain,
        gift: 0,
        fault: 0,
        events: &[NoMemory],
    },
    ResumeRow {
        awaits: Awaits::InAsync,
        gift: 7,
        fault: 0,
        events: &[NoMemory],
    },
];

/// The program.
fn code_of(alloc: Global, awaits: Awaits) -> Result<CodeTree, AllocError> {
    match awaits {
        Awaits::Least => awaits_gift(alloc, Collect::Least),
        Awaits::Plain => awaits_nothing(alloc),
        Awaits::InAsync => awaits_in_async(alloc),
        Awaits::InFinish => awaits_in_finish(alloc),
    }
}

/// Goes on to the next event, and takes the part that it carries back.
fn take_next<'a>(rt: &(impl Abort + AllocGlobal), task: &mut Task<'a>) -> Result<(), AllocError>
    requires awaited { (task_view task.old).means.awaited ≡ None }
    requires stage { (task_view task.old).stage ≡ Going }
    ensures awaited { IfOk result (λ _. (task_view task.new).means.awaited ≡ None) }
    ensures stage { IfOk result (λ _. (task_view task.new).stage ≡ Going) }
{
    match task.advance(rt.alloc()) {
        Event::Async(body) => task.inside(rt.alloc(), Part::Async(body))?,
        Event::Finish(kind, body) => task.inside(rt.alloc(), Part::Finish(kind, body))?,
        _ => panic!(rt; "the event carries no part"),
    }
    Ok(())
}

/// Asserts how a row's task goes on.
fn expect_resumed(rt: &(impl Abort + AllocGlobal), row: &ResumeRow) -> Result<(), AllocError> {
    let code = code_of(rt.alloc(), row.awaits)?;
    let job = job_of(rt, &code, Runs::Main(FinishKind::Sum))?;
    let columns = Data::new(rt.alloc());
    let mut task = Task::of_job(rt.alloc(), &code, &columns, job)?;
    let inside = match row.awaits {
        Awaits::Least | Awaits::Plain => 0,
        Awaits::InAsync | Awaits::InFinish => 1,
    };
    for _ in 0..inside {
        take_next(rt, &mut task)?;
    }
    assert_eq!(rt; task.waits(), None);
    let Event::Finish(kind, _) = task.advance(rt.alloc()) else {
        panic!(rt; "no finish in {awaits:?}", awaits = row.awaits);
    };
    assert_eq!(rt; task.waits(), Some(kind));
    task.resume(row.gift, row.fault);
    assert_eq!(rt; task.waits(), None);
    assert_eq!(rt; task.kind(), FinishKind::Sum);
    let events = events_of(rt.alloc(), task)?;
    assert_eq!(rt;
        events.as_slice(),
        row.events,
        "of {awaits:?}",
        awaits = row.awaits
    );
    Ok(())
}

#[test]
fn a_task_goes_on_behind_a_finish(rt: HostRuntime) -> Result<(), Fail> {
    for row in &RESUMES {
        expect_resumed(&rt, row)?;
    }
    Ok(())
}
