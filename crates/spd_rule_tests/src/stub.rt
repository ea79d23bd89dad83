// A body with a name that does nothing.

use spd_words::{Body, Event, FinishKind, Part};
use std::alloc::{AllocError, Global};

/// Where a stub stands.
#[derive(Clone, Copy, Debug, PartialEq, Eq)]
pub enum StubStage {
    Going,
    /// For a finish of this kind.
    Waits(FinishKind),
    /// It was resumed with want of memory.
    Spent,
    Ended,
}

/// A wild body that offers nothing and is over at once. Its name tells it from others.
#[derive(Clone, Copy, Debug, PartialEq, Eq)]
pub struct Stub {
    pub name: u32,
    pub stage: StubStage,
}

impl Stub {
    ghost use Rattle.spd_rule.specs.Kept.{IsFit};
    ghost use Rattle.spd_rule_tests.specs.Stubs.{stub_view};

    /// A stub that may go on.
    pub fn new(name: u32) -> Stub
        ensures { IsFit (stub_view result) }
    {
        Stub {
            name,
            stage: StubStage::Going,
        }
    }

    /// A stub that waits for a finish of this kind.
    pub fn waiting(name: u32, kind: FinishKind) -> Stub
        ensures { IsFit (stub_view result) }
    {
        Stub {
            name,
            stage: StubStage::Waits(kind),
        }
    }
}

impl Body for Stub {
    ghost use Rattle.std.specs.Prelude.{◌≡◌, IfOk, OnErr};
    ghost use Rattle.spd_words.specs.Meaning.{empty, Going, Ended};
    ghost use Rattle.spd_words.specs.BodyCalls.{TakesIn, part_seen};
    ghost use Rattle.spd_words.specs.declared.finish_kind.FinishKind.TheVariants.{Plain};
    ghost use Rattle.spd_rule_tests.specs.Stubs.{stub_view};

    ghost view = { stub_view };

    ghost fits = { λ _ _. Unit {0} };

    ghost resumed = { λ _ _ _. empty Plain };

    fn kind(&self) -> FinishKind {
        FinishKind::Plain
    }

    fn waits(&self) -> Option<FinishKind> {
        match self.stage {
            StubStage::Waits(kind) => Some(kind),
            _ => None,
        }
    }

    fn advance(&mut self, _alloc: Global) -> Event<Stub> {
        let stage = self.stage;
        self.stage = StubStage::Ended;
        match stage {
            StubStage::Spent => Event::NoMemory,
            _ => Event::Over,
        }
    }

    fn inside(&mut self, _alloc: Global, part: Part<Stub>) -> Result<(), AllocError>
        requires { (stub_view self.old).stage ≡ Going }
        ensures part { IfOk result (λ _. TakesIn (stub_view self.old) (stub_view self.new) (part_seen stub_view part)) }
        ensures memory { OnErr result ((stub_view self.new).stage ≡ Ended) }
    {
        drop(part);
        self.stage = StubStage::Going;
        Ok(())
    }

    fn resume(&mut self, _gift: i64, fault: u64) {
        self.stage = if fault == 0 {
            StubStage::Spent
        } else {
            StubStage::Going
        };
    }
}
