// What steps give to their finish, taken together.

ghost use Rattle.std.specs.Prelude.{◌≡◌, IfSome, IfOk};
ghost use Rattle.spd_words.specs.Meaning.{empty, IsLawfulTotal};
ghost use Rattle.spd_script.specs.Steps.{promise};
ghost use Rattle.spd_script.specs.Sums.{promise_of_sum, IsBeside, IsBehind, StandsBefore};

use crate::steps::Steps;
use spd_words::{FinishKind, NO_FAULT, Tally};
use std::alloc::{AllocError, Global};

/// What steps give to their finish: a gift, a least fault and a number of moves.
#[derive(Clone, Copy)]
pub(crate) struct Sum {
    pub(crate) tally: Tally,
    pub(crate) moves: u64,
}

impl Sum {
    /// What nothing gives.
    fn nothing(kind: FinishKind) -> Sum
        ensures kind { result.tally.kind ≡ kind }
        ensures promise { promise_of_sum result ≡ empty kind }
    {
        Sum {
            tally: Tally::new(kind),
            moves: 0,
        }
    }

    /// What these steps give to a finish of this kind. `None` where they want memory, also behind a
    /// fault, or have more than 2^64 - 1 moves.
    pub(crate) fn of(kind: FinishKind, steps: &Steps) -> Option<Sum>
        ensures kind { IfSome result (λ sum. sum.tally.kind ≡ kind) }
        ensures promise { IfSome result (λ sum. promise_of_sum sum ≡ promise kind steps.now) }
    {
        match steps {
            Steps::Over => Some(Sum::nothing(kind)),
            Steps::NoMemory => None,
            Steps::Offer(value, rest) => {
                let mut sum = Sum::of(kind, rest)?;
                sum.tally.offer(*value);
                Some(sum)
            }
            Steps::Fault(code, rest) => {
                if *code == 0 || *code == NO_FAULT {
                    return None;
                }
                let mut sum = Sum::of(kind, rest)?;
                sum.tally.fault(*code);
                Some(sum)
            }
            Steps::Async(child, rest) => {
                let child = Sum::of(kind, child)?;
                let rest = Sum::of(kind, rest)?;
                rest.beside(child)
            }
            Steps::Finish(inner, catches, child, rest) => {
                let child = Sum::of(*inner, child)?;
                let rest = Sum::of(kind, rest)?;
                rest.behind(child, *catches)
            }
        }
    }

    /// With an async that gives this.
    fn beside(self, child: Sum) -> Option<Sum>
        ensures kind { IfSome result (λ sum. sum.tally.kind ≡ self.tally.kind) }
        ensures promise { IfSome result (λ sum. IsBeside child self sum) }
    {
        let mut sum = self;
        sum.tally.offer(child.tally.gift);
        sum.tally.fault(child.tally.fault);
        sum.moves = sum.moves.checked_add(child.moves)?.checked_add(1)?;
        Some(sum)
    }

    /// Behind a finish that has this.
    fn behind(self, child: Sum, catches: bool) -> Option<Sum>
        ensures kind { IfSome result (λ sum. sum.tally.kind ≡ self.tally.kind) }
        ensures promise { IfSome result (λ sum. IsBehind child catches self sum) }
    {
        let mut sum = self;
        if child.tally.fault == NO_FAULT {
            sum.tally.offer(child.tally.gift);
        } else if !(catches && child.tally.fault != 0) {
            sum = Sum::nothing(self.tally.kind);
            sum.tally.fault(child.tally.fault);
        }
        sum.moves = sum.moves.checked_add(child.moves)?.checked_add(1)?;
        Some(sum)
    }

    /// These steps, with an offer and a fault before them that give what this gives.
    pub(crate) fn before(self, alloc: Global, rest: Steps) -> Result<Steps, AllocError>
        requires { IsLawfulTotal self.tally.kind self.tally.gift self.tally.fault }
        ensures { IfOk result (λ steps. StandsBefore self.tally rest steps) }
    {
        if self.tally.fault == NO_FAULT {
            let steps = Steps::offer(alloc, self.tally.gift, rest)?;
            return Ok(steps);
        }
        let behind = Steps::fault(alloc, self.tally.fault, rest)?;
        let steps = Steps::offer(alloc, self.tally.gift, behind)?;
        Ok(steps)
    }
}
