// What a scripted body does, step by step.

ghost use Rattle.std.specs.Prelude.{◌≡◌, ◌+◌, IfOk};
ghost use Rattle.spd_script.specs.Steps.{promise, with_offer, with_code, steps_size, Promises, IsFork, IsFinish};

use spd_words::FinishKind;
use std::alloc::{AllocError, Global};

/// What a scripted body does: a step, and the steps behind it.
#[derive(Drop)]
pub enum Steps {
    Over,
    /// Want of memory, as a body answers it. What was to come is not told.
    NoMemory,
    Offer(i64, Box<Steps>),
    /// The fault of this code; 0 and `NO_FAULT` are no codes, and stand for `NoMemory`.
    Fault(u64, Box<Steps>),
    /// An async with these steps.
    Async(Box<Steps>, Box<Steps>),
    /// A finish of this kind with these steps. Behind it its gift is offered. Where it has a fault,
    /// it is passed over if this is `true`, and else it is given on and nothing more is done.
    Finish(FinishKind, bool, Box<Steps>, Box<Steps>),
}

impl Steps {
    /// An offer, and then these steps.
    pub fn offer(alloc: Global, value: i64, rest: Steps) -> Result<Steps, AllocError>
        ensures promise { IfOk result (λ steps. Promises steps (λ kind. with_offer kind value (promise kind rest))) }
        ensures size { IfOk result (λ steps. steps_size steps ≡ steps_size rest + 1) }
    {
        Ok(Steps::Offer(value, Box::new(alloc, rest)?))
    }

    /// A fault, and then these steps.
    pub fn fault(alloc: Global, code: u64, rest: Steps) -> Result<Steps, AllocError>
        ensures promise { IfOk result (λ steps. Promises steps (λ kind. with_code kind code (promise kind rest))) }
        ensures size { IfOk result (λ steps. steps_size steps ≡ steps_size rest + 1) }
    {
        Ok(Steps::Fault(code, Box::new(alloc, rest)?))
    }

    /// An async with the child's steps, and then these steps.
    pub fn fork(alloc: Global, child: Steps, rest: Steps) -> Result<Steps, AllocError>
        ensures { IfOk result (λ steps. IsFork child rest steps) }
    {
        let child = Box::new(alloc, child)?;
        Ok(Steps::Async(child, Box::new(alloc, rest)?))
    }

    /// A finish with the child's steps, and then these steps.
    pub fn finish(
        alloc: Global,
        kind: FinishKind,
        catches: bool,
        child: Steps,
        rest: Steps,
    ) -> Result<Steps, AllocError>
        ensures { IfOk result (λ steps. IsFinish kind catches child rest steps) }
    {
        let child = Box::new(alloc, child)?;
        Ok(Steps::Finish(kind, catches, child, Box::new(alloc, rest)?))
    }
}
