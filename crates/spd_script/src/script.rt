// A body that follows a script.

ghost use Rattle.std.specs.Prelude.{◌≡◌, ◌≢◌, ◌≤◌, ◌+◌, ◌*◌, IsSome, IfOk, OnErr, None};
ghost use Rattle.spd_words.specs.Meaning.{Going, Ended};
ghost use Rattle.spd_words.specs.declared.event.Part.TheVariants as of_part;
ghost use Rattle.spd_region.specs.Dag.{MayRun};
ghost use Rattle.spd_script.specs.Steps.{promise};
ghost use Rattle.spd_script.specs.Sums.{promise_of_sum};
ghost use Rattle.spd_script.specs.Scripts.{script_view, with_moves, fresh_script, state_behind};
ghost use Rattle.spd_script.specs.Scripts.{FitsScript, script_resumed, ScriptEvent, OpensFinish};
ghost use Rattle.spd_script.specs.Scripts.{ScriptTakesAsync, ScriptTakesFinish, ScriptTakesPart};
ghost use Rattle.spd_script.specs.declared.script.State.TheVariants as state;

use crate::steps::Steps;
use crate::sum::Sum;
use spd_words::{Body, Event, FinishKind, NO_FAULT, Part};
use std::alloc::{AllocError, Global};
use std::mem;

/// Where a scripted body stands.
#[derive(Clone, Copy)]
pub(crate) enum State {
    Going,
    /// For a finish of this kind, which has this gift and this fault.
    Waits {
        kind: FinishKind,
        catches: bool,
        gift: i64,
        fault: u64,
    },
    /// Behind a finish that gave this, and that wasn't passed over.
    Resumed {
        gift: i64,
        fault: u64,
    },
    Ended,
}

impl State {
    /// Behind a finish that gave this.
    fn behind(catches: bool, gift: i64, fault: u64) -> State
        ensures { result ≡ state_behind catches gift fault }
    {
        if catches && fault != 0 && fault != NO_FAULT {
            State::Going
        } else {
            State::Resumed { gift, fault }
        }
    }
}

/// A body that follows a script.
#[derive(Drop)]
pub struct Script {
    kind: FinishKind,
    /// The moves of what was taken inside, which are still to be given.
    held: u64,
    rest: Steps,
    state: State,
}

impl Script {
    /// A body that does these steps for a finish of this kind.
    pub fn new(kind: FinishKind, steps: Steps) -> Script
        ensures may { MayRun kind (script_view result) }
        ensures promise { (script_view result).means.promise ≡ with_moves 0 (promise kind steps) }
    {
        Script::fresh(kind, steps)
    }

    fn fresh(kind: FinishKind, rest: Steps) -> Script
        ensures { result ≡ fresh_script kind rest }
    {
        Script {
            kind,
            held: 0,
            rest,
            state: State::Going,
        }
    }

    /// Goes on behind a finish that gave this.
    fn settle(&mut self, gift: i64, fault: u64) -> Event<Script>
        requires { self.old.state ≡ state.Resumed gift fault }
        ensures { ScriptEvent self.old self.new result }
    {
        if fault == 0 {
            self.state = State::Ended;
            return Event::NoMemory;
        }
        self.state = State::Going;
        if fault == NO_FAULT {
            return Event::Offer(gift);
        }
        self.rest = Steps::Over;
        Event::Fault(fault)
    }

    /// Gives a move that is held, or does the next step.
    fn go_on(&mut self) -> Event<Script>
        requires { self.old.state ≡ state.Going }
        ensures { ScriptEvent self.old self.new result }
    {
        if self.held > 0 {
            self.held -= 1;
            return Event::Async(Script::fresh(self.kind, Steps::Over));
        }
        let rest = mem::replace(&mut self.rest, Steps::Over);
        self.step(rest)
    }

    /// Does the first of these steps; the others are the rest.
    fn step(&mut self, steps: Steps) -> Event<Script>
        requires held { self.old.held ≡ 0 }
        requires state { self.old.state ≡ state.Going }
        ensures { ScriptEvent (record self.old { rest = steps }) self.new result }
    {
        match steps {
            Steps::Offer(value, rest) => {
                self.rest = Box::into_inner(rest);
                Event::Offer(value)
            }
            Steps::Fault(code, rest) if code != 0 && code < NO_FAULT => {
                self.rest = Box::into_inner(rest);
                Event::Fault(code)
            }
            Steps::Async(child, rest) => {
                self.rest = Box::into_inner(rest);
                Event::Async(Script::fresh(self.kind, Box::into_inner(child)))
            }
            Steps::Finish(kind, catches, child, rest) => {
                self.rest = Box::into_inner(rest);
                self.open(kind, catches, Box::into_inner(child))
            }
            Steps::Over => {
                self.state = State::Ended;
                Event::Over
            }
            Steps::NoMemory | Steps::Fault(..) => {
                self.state = State::Ended;
                Event::NoMemory
            }
        }
    }

    /// Waits for a finish with these steps.
    fn open(&mut self, kind: FinishKind, catches: bool, child: Steps) -> Event<Script>
        requires held { self.old.held ≡ 0 }
        requires state { self.old.state ≡ state.Going }
        ensures { OpensFinish self.old kind catches child self.new result }
    {
        match Sum::of(kind, &child) {
            None => {
                self.state = State::Ended;
                Event::NoMemory
            }
            Some(sum) => {
                let gift = sum.tally.gift;
                let fault = sum.tally.fault;
                self.state = State::Waits {
                    kind,
                    catches,
                    gift,
                    fault,
                };
                Event::Finish(kind, Script::fresh(kind, child))
            }
        }
    }
}

impl Script {
    /// What the child gives. Its moves are held.
    fn hold(&mut self, child: &Script) -> Result<Sum, AllocError>
        ensures kind { IfOk result (λ sum. sum.tally.kind ≡ child.now.kind) }
        ensures promise { IfOk result (λ sum. promise_of_sum sum ≡ promise child.now.kind child.now.rest) }
        ensures held { IfOk result (λ sum. self.new ≡ record self.old { held = self.old.held + sum.moves }) }
    {
        match Sum::of(child.kind, &child.rest) {
            Some(sum) => match self.held.checked_add(sum.moves) {
                Some(held) => {
                    self.held = held;
                    Ok(sum)
                }
                None => Err(AllocError),
            },
            None => Err(AllocError),
        }
    }

    /// What the async gives is given first.
    fn take_async(&mut self, alloc: Global, child: Script) -> Result<(), AllocError>
        requires { FitsScript self.old (of_part.Async child) }
        ensures { IfOk result (λ _. ScriptTakesAsync self.old child self.new) }
    {
        let sum = self.hold(&child)?;
        let rest = mem::replace(&mut self.rest, Steps::Over);
        let steps = sum.before(alloc, rest)?;
        self.rest = steps;
        Ok(())
    }

    /// What the finish gives is known already.
    fn take_finish(&mut self, child: Script) -> Result<(), AllocError>
        requires { FitsScript self.old (of_part.Finish child.kind child) }
        ensures { IfOk result (λ _. ScriptTakesFinish self.old child self.new) }
    {
        match self.state {
            State::Waits {
                catches,
                gift,
                fault,
                ..
            } => {
                self.hold(&child)?;
                self.state = State::behind(catches, gift, fault);
                Ok(())
            }
            _ => Ok(()),
        }
    }
}

impl Body for Script {
    ghost view = { script_view };

    ghost fits = { FitsScript };

    ghost resumed = { script_resumed };

    fn kind(&self) -> FinishKind {
        self.kind
    }

    fn waits(&self) -> Option<FinishKind> {
        match self.state {
            State::Waits { kind, .. } => Some(kind),
            _ => None,
        }
    }

    fn advance(&mut self, _alloc: Global) -> Event<Script> {
        match self.state {
            State::Going => self.go_on(),
            State::Resumed { gift, fault } => self.settle(gift, fault),
            State::Waits { .. } | State::Ended => unreachable!(),
        }
    }

    fn inside(&mut self, alloc: Global, part: Part<Script>) -> Result<(), AllocError>
        requires fits { FitsScript self.old part }
        requires stage { (script_view self.old).stage ≡ Going }
        ensures part { IfOk result (λ _. ScriptTakesPart self.old part self.new) }
        ensures memory { OnErr result ((script_view self.new).stage ≡ Ended) }
    {
        let taken = match part {
            Part::Async(child) => self.take_async(alloc, child),
            Part::Finish(_, child) => self.take_finish(child),
        };
        if taken.is_err() {
            self.state = State::Ended;
        }
        taken
    }

    fn resume(&mut self, gift: i64, fault: u64) {
        if let State::Waits { catches, .. } = self.state {
            self.state = State::behind(catches, gift, fault);
        }
    }
}
