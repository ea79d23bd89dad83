// The events of a task, into which every part is taken back, and what a finish has of them.

ghost use Rattle.std.specs.Prelude.{◌≡◌, ◌≢◌, None};
ghost use Rattle.spd_words.specs.Meaning.{Ended};
ghost use Rattle.spd_task.specs.Task.{task_view};

use spd_region::Region;
use spd_task::Task;
use spd_words::{Body, Event, FinishKind, Part, Tally};
use std::alloc::{AllocError, Global};

/// An event of a task, without the body that it may carry.
#[derive(Clone, Copy, Debug, PartialEq, Eq)]
pub enum Met {
    Offer(i64),
    Fault(u64),
    Async,
    Finish(FinishKind),
    Over,
    NoMemory,
}

/// The events up to the end of a task, into which every part is taken back, in their order.
pub fn events_of<'a>(alloc: Global, task: Task<'a>) -> Result<Vec<Met>, AllocError>
    requires awaited { (task_view task).means.awaited ≡ None }
    requires stage { (task_view task).stage ≢ Ended }
{
    let mut task = task;
    let mut events = Vec::new(alloc);
    loop {
        match task.advance(alloc) {
            Event::Offer(value) => events.push(Met::Offer(value))?,
            Event::Fault(code) => events.push(Met::Fault(code))?,
            Event::Async(body) => {
                events.push(Met::Async)?;
                task.inside(alloc, Part::Async(body))?;
            }
            Event::Finish(kind, body) => {
                events.push(Met::Finish(kind))?;
                task.inside(alloc, Part::Finish(kind, body))?;
            }
            Event::Over => {
                events.push(Met::Over)?;
                return Ok(events);
            }
            Event::NoMemory => {
                events.push(Met::NoMemory)?;
                return Ok(events);
            }
        }
    }
}

/// What a finish of this kind has whose one vertex gave these events: its gift, its least code, and a
/// move for itself and for each async and finish.
pub fn region_of(kind: FinishKind, events: &[Met]) -> Region {
    let mut tally = Tally::new(kind);
    let mut moves: u64 = 1;
    for event in events {
        match event {
            Met::Offer(value) => tally.offer(*value),
            Met::Fault(code) => tally.fault(*code),
            Met::Async | Met::Finish(_) => moves = moves.saturating_add(1),
            Met::Over | Met::NoMemory => {}
        }
    }
    let given = tally.given();
    Region { given, moves }
}
