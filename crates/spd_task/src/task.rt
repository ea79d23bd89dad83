// What is left of the body of a finish or of an async, and its events.

ghost use Rattle.std.specs.Prelude.{◌≡◌, [], ◌∷◌, IfOk, None};
ghost use Rattle.spd_words.specs.Meaning.{Going, IsTame};
ghost use Rattle.spd_words.specs.BodyCalls.{IsReady};
ghost use Rattle.spd_meaning.specs.Eval.{for_finish, promise_left};
ghost use Rattle.spd_level.specs.Columns.{context_of};
ghost use Rattle.spd_machine.specs.Machine.{machine_eval, machine_frames};
ghost use Rattle.spd_machine.specs.Elision.{job_eval};
ghost use Rattle.spd_level.specs.declared.frame.Frame.TheVariants as frame;
ghost use Rattle.spd_task.specs.declared.task.State.TheVariants as state;
ghost use Rattle.spd_task.specs.Task.{context_in, left_of, task_view, IsFreshTask};
ghost use Rattle.spd_task.specs.TaskEvents.{TaskGave, EndGives};

use spd_code::{CodeBlock, CodeTree};
use spd_data::Data;
use spd_level::{FinishAt, Flow, Level, copy_of};
use spd_machine::{Job, Machine, Met, level_of_job};
use spd_words::{Event, FinishKind, Given, NO_FAULT};
use std::alloc::{AllocError, Global};
use std::mem;

/// Whether a task may go on.
#[derive(Drop)]
pub enum State<'a> {
    Ready,
    /// It waits for this finish.
    Waits(FinishAt<'a>),
    /// The finish that it waited for, which stands at this line, has ended and gave this. The fault
    /// 0 is want of memory.
    Resumed {
        binds: bool,
        line: u32,
        given: Given,
    },
    /// It is over, or memory ran out.
    Ended,
}

/// What is left of the body of a finish or of an async.
#[derive(Drop)]
pub struct Task<'a> {
    pub(crate) code: &'a CodeTree,
    pub(crate) columns: &'a Data,
    pub(crate) kind: FinishKind,
    pub(crate) machine: Machine<'a>,
    pub(crate) state: State<'a>,
}

impl<'a> Task<'a> {
    /// The body of a job over a code and columns. `AllocError` comes where memory runs out.
    pub fn of_job(
        alloc: Global,
        code: &'a CodeTree,
        columns: &'a Data,
        job: Job<'a>,
    ) -> Result<Task<'a>, AllocError>
        ensures ready { IfOk result (λ task. IsReady job.entry.kind (task_view task)) }
        ensures context { IfOk result (λ task. context_in task ≡ context_of code.now columns.now) }
        ensures left { IfOk result (λ task.
            for_finish (left_of task)
            ≡ for_finish (job_eval (context_of code.now columns.now) job.entry.body)) }
        ensures promise { IfOk result (λ task. (task_view task).means.promise
            ≡ promise_left job.entry.kind (job_eval (context_of code.now columns.now) job.entry.body)) }
        ensures tame { IfOk result (λ task. IsTame (task_view task).means) }
    {
        let Job { kind, body } = job;
        let level = level_of_job(body)?;
        Ok(Task {
            code,
            columns,
            kind,
            machine: Machine {
                level,
                inside: Vec::new(alloc),
            },
            state: State::Ready,
        })
    }

    /// A task for a block over the values that are visible now, in which so many more calls may be
    /// opened.
    fn child(
        &self,
        alloc: Global,
        kind: FinishKind,
        body: &'a CodeBlock,
        left: u32,
    ) -> Result<Task<'a>, AllocError>
        ensures fresh { IfOk result (λ task. IsFreshTask self.now task) }
        ensures kind { IfOk result (λ task. task.kind ≡ kind) }
        ensures vars { IfOk result (λ task. task.machine.level.vars.items ≡ self.now.machine.level.vars.items) }
        ensures frames { IfOk result (λ task.
            task.machine.level.frames.items ≡ frame.Block body.entry 0 0 left ∷ []) }
    {
        let vars = copy_of(&self.machine.level.vars)?;
        let level = Level::of_block(body, left, vars)?;
        Ok(Task {
            code: self.code,
            columns: self.columns,
            kind,
            machine: Machine {
                level,
                inside: Vec::new(alloc),
            },
            state: State::Ready,
        })
    }

    /// A task for the same finish, of which nothing is left.
    fn nothing(&self, alloc: Global) -> Task<'a>
        ensures fresh { IsFreshTask self.now result }
        ensures kind { result.kind ≡ self.now.kind }
        ensures vars { result.machine.level.vars.items ≡ [] }
        ensures frames { result.machine.level.frames.items ≡ [] }
    {
        Task {
            code: self.code,
            columns: self.columns,
            kind: self.kind,
            machine: Machine {
                level: Level {
                    flow: Flow::Fell,
                    vars: Vec::new(alloc),
                    frames: Vec::new(alloc),
                },
                inside: Vec::new(alloc),
            },
            state: State::Ready,
        }
    }

    /// Goes on behind the finish that it was resumed from, if it was. It fails after want of memory.
    fn begin(&mut self) -> Result<(), AllocError>
        requires { (task_view self.old).means.awaited ≡ None }
        ensures context { context_in self.new ≡ context_in self.old }
        ensures kind { self.new.kind ≡ self.old.kind }
        ensures ready { IfOk result (λ _. self.new.state ≡ state.Ready) }
        ensures going { IfOk result (λ _. (task_view self.old).stage ≡ Going) }
        ensures frames { IfOk result (λ _. machine_frames self.new.machine ≡ machine_frames self.old.machine) }
        ensures left { IfOk result (λ _.
            left_of self.old ≡ machine_eval (context_in self.new) self.new.machine) }
    {
        match self.state {
            State::Ready => Ok(()),
            State::Resumed { binds, line, given } => {
                if given.fault == 0 {
                    return Err(AllocError);
                }
                self.machine.level.settle(line, binds, given)?;
                self.state = State::Ready;
                Ok(())
            }
            _ => Err(AllocError),
        }
    }

    /// Goes on to the next event.
    pub(crate) fn step(&mut self, alloc: Global) -> Result<Event<Task<'a>>, AllocError>
        requires { (task_view self.old).means.awaited ≡ None }
        ensures context { context_in self.new ≡ context_in self.old }
        ensures kind { self.new.kind ≡ self.old.kind }
        ensures going { IfOk result (λ _. (task_view self.old).stage ≡ Going) }
        ensures gave { IfOk result (λ event.
            TaskGave (left_of self.old) (machine_frames self.old.machine) self.old self.new event) }
    {
        self.begin()?;
        match self.machine.run(self.code, self.columns)? {
            Met::Offer(x) => Ok(Event::Offer(x)),
            Met::Fault(code) => {
                // No code of a program is that.
                if code == NO_FAULT {
                    return Err(AllocError);
                }
                Ok(Event::Fault(code))
            }
            // Its body runs inside already; the event counts the move.
            Met::Held => Ok(Event::Async(self.nothing(alloc))),
            Met::Async { body, left } => {
                let child = self.child(alloc, self.kind, body, left)?;
                Ok(Event::Async(child))
            }
            Met::Finish(finish) => {
                let kind = finish.kind;
                let child = self.child(alloc, kind, finish.body, finish.left)?;
                self.state = State::Waits(finish);
                Ok(Event::Finish(kind, child))
            }
            Met::Over => {
                let event = self.end()?;
                Ok(event)
            }
            Met::Quiet => unreachable!(),
        }
    }

    /// Nothing is left to run. Where the task itself ended in a fault, it gives it first.
    fn end(&mut self) -> Result<Event<Task<'a>>, AllocError>
        requires { self.old.state ≡ state.Ready }
        ensures context { context_in self.new ≡ context_in self.old }
        ensures kind { self.new.kind ≡ self.old.kind }
        ensures gave { IfOk result (λ event. EndGives self.old self.new event) }
    {
        match mem::replace(&mut self.machine.level.flow, Flow::Fell) {
            Flow::Fault(code) => {
                // No code of a program is that.
                if code == NO_FAULT {
                    return Err(AllocError);
                }
                Ok(Event::Fault(code))
            }
            Flow::Back(_) => {
                self.state = State::Ended;
                Ok(Event::Over)
            }
            Flow::Fell => {
                self.state = State::Ended;
                Ok(Event::Over)
            }
        }
    }
}
