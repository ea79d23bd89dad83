// A body whose finish lacks memory.

use spd_words::{Body, Event, FinishKind, Part};
use std::alloc::{AllocError, Global};

/// Where a starving body stands.
#[derive(Clone, Copy)]
pub enum Hunger {
    /// It opens a finish with a body that lacks memory.
    Opens,
    /// It lacks memory at once.
    Starves,
    /// For its finish.
    Waits,
    /// Its finish had memory.
    Fed,
    /// Its finish had none.
    Spent,
    Ended,
}

/// A body that promises a finish in which nothing is offered, and whose first vertex lacks memory.
#[derive(Drop)]
pub struct Starving {
    pub hunger: Hunger,
}

impl Starving {
    ghost use Rattle.spd_words.specs.Meaning.{IsTame};
    ghost use Rattle.spd_words.specs.BodyCalls.{IsReady};
    ghost use Rattle.spd_words.specs.declared.finish_kind.FinishKind.TheVariants.{Sum};
    ghost use Rattle.spd_work_tests.specs.Starvings.{starving_view};

    /// One that has yet to open its finish.
    pub fn new() -> Starving
        ensures ready { IsReady Sum (starving_view result) }
        ensures tame { IsTame (starving_view result).means }
    {
        Starving {
            hunger: Hunger::Opens,
        }
    }
}

impl Body for Starving {
    ghost use Rattle.std.specs.Prelude.{◌≡◌, IfOk, OnErr};
    ghost use Rattle.spd_words.specs.Meaning.{empty, Going, Ended};
    ghost use Rattle.spd_words.specs.BodyCalls.{TakesIn, part_seen};
    ghost use Rattle.spd_words.specs.declared.finish_kind.FinishKind.TheVariants.{Sum};
    ghost use Rattle.spd_work_tests.specs.Starvings.{starving_view};

    ghost view = { starving_view };

    ghost fits = { λ _ _. Unit {0} };

    ghost resumed = { λ _ _ _. empty Sum };

    fn kind(&self) -> FinishKind {
        FinishKind::Sum
    }

    fn waits(&self) -> Option<FinishKind> {
        match self.hunger {
            Hunger::Waits => Some(FinishKind::Sum),
            _ => None,
        }
    }

    fn advance(&mut self, _alloc: Global) -> Event<Starving> {
        match self.hunger {
            Hunger::Opens => {
                self.hunger = Hunger::Waits;
                let body = Starving {
                    hunger: Hunger::Starves,
                };
                Event::Finish(FinishKind::Sum, body)
            }
            Hunger::Fed => {
                self.hunger = Hunger::Ended;
                Event::Over
            }
            Hunger::Starves | Hunger::Spent => {
                self.hunger = Hunger::Ended;
                Event::NoMemory
            }
            Hunger::Waits | Hunger::Ended => unreachable!(),
        }
    }

    fn inside(&mut self, _alloc: Global, part: Part<Starving>) -> Result<(), AllocError>
        requires { (starving_view self.old).stage ≡ Going }
        ensures part { IfOk result (λ _.
            TakesIn (starving_view self.old) (starving_view self.new) (part_seen starving_view part)) }
        ensures memory { OnErr result ((starving_view self.new).stage ≡ Ended) }
    {
        drop(part);
        self.hunger = Hunger::Ended;
        Err(AllocError)
    }

    fn resume(&mut self, _gift: i64, fault: u64) {
        self.hunger = if fault == 0 {
            Hunger::Spent
        } else {
            Hunger::Fed
        };
    }
}
