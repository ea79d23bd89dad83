// A task as what a vertex runs.

ghost use Rattle.std.specs.Prelude.{◌≡◌, ◌≢◌, IfOk, OnErr, None, IsSome};
ghost use Rattle.spd_words.specs.Meaning.{Going, Ended};
ghost use Rattle.spd_words.specs.BodyCalls.{Advances, StaysTame, event_seen, FitsNext, TakesIn, part_seen, Resumes};

use crate::task::{State, Task};
use spd_words::{Body, Event, FinishKind, Given, Part};
use std::alloc::{AllocError, Global};
use std::mem;

impl<'a> Body for Task<'a> {
    ghost use Rattle.spd_task.specs.Task.{task_view, fits_task, resumed_task, left_of};
    ghost use Rattle.spd_task.specs.TaskEvents.{IsNext};

    ghost view = { task_view };

    ghost fits = { fits_task };

    ghost resumed = { resumed_task };

    fn kind(&self) -> FinishKind {
        self.kind
    }

    fn waits(&self) -> Option<FinishKind> {
        match &self.state {
            State::Waits(finish) => Some(finish.kind),
            _ => None,
        }
    }

    /// The event is the next thing that the meaning gives of what is left.
    fn advance(&mut self, alloc: Global) -> Event<Task<'a>>
        requires awaited { (task_view self.old).means.awaited ≡ None }
        requires stage { (task_view self.old).stage ≢ Ended }
        ensures step { Advances (task_view self.old) (task_view self.new) (event_seen task_view result) }
        ensures tame { StaysTame (task_view self.old) (task_view self.new) (event_seen task_view result) }
        ensures part { FitsNext fits_task self.new result }
        ensures exact { IsNext (left_of self.old) self.new result }
    {
        match self.step(alloc) {
            Ok(event) => event,
            Err(_) => {
                self.state = State::Ended;
                Event::NoMemory
            }
        }
    }

    fn inside(&mut self, _alloc: Global, part: Part<Task<'a>>) -> Result<(), AllocError>
        requires fits { fits_task self.old part }
        requires stage { (task_view self.old).stage ≡ Going }
        ensures part { IfOk result (λ _.
            TakesIn (task_view self.old) (task_view self.new) (part_seen task_view part.entry)) }
        ensures memory { OnErr result ((task_view self.new).stage ≡ Ended) }
    {
        match self.take(part) {
            Ok(()) => Ok(()),
            Err(error) => {
                self.state = State::Ended;
                Err(error)
            }
        }
    }

    /// What it was resumed with is kept; the next `advance` goes on with it.
    fn resume(&mut self, gift: i64, fault: u64)
        requires awaited { IsSome (task_view self.old).means.awaited }
        requires stage { (task_view self.old).stage ≡ Going }
        ensures { Resumes (task_view self.old) (task_view self.new) (resumed_task self.old gift fault) gift fault }
    {
        self.state = match mem::replace(&mut self.state, State::Ended) {
            State::Waits(finish) => State::Resumed {
                binds: finish.binds,
                line: finish.line,
                given: Given { gift, fault },
            },
            state => state,
        };
    }
}
