// The rule of a table, and what a step tells the share that takes it.

ghost use Rattle.std.specs.Prelude.{ℕ};
ghost use Rattle.atomic_table.specs.Table.{Step, Me};

use atomic_table::{Play, TableRule};
use spd_state::View;
use spd_words::{Body, Plan};
use std::marker::{Brand, PhantomData};

/// The rule of the dag and the books over the words, the bodies at home and what the shares know. It
/// holds of a new field, and between any two steps.
pub struct DagRule {}

impl<B: Body> TableRule<Option<B>, View, Plan> for DagRule {
    ghost use Rattle.spd_rule.specs.Kept.{Kept};
    ghost use Rattle.spd_state.specs.Seats.{first_view};

    ghost holds = { λ plan. Kept B.view plan };

    ghost first = { λ _. first_view };
}

/// What a step tells, which is picked where the step is made: the plan whose rule it keeps, and what
/// holds of the share before it, of the word that it found and of the share after it.
pub trait Tells<B> {
    ghost use Rattle.std.specs.Prelude.{ℕ, Option};
    ghost use Rattle.atomic_table.specs.Table.{Me};
    ghost use Rattle.spd_words.specs.Plan.{PlanView};
    ghost use Rattle.spd_state.specs.declared.view.View.{View};

    ghost plan: { PlanView };

    ghost tells: { Me (Option B) View → ℕ → Me (Option B) View → Type 0 };
}

impl<B> Tells<B> for Brand {
    ghost use Rattle.spd_rule.specs.Held.{no_plan};

    ghost plan = { no_plan };

    ghost tells = { λ _ _ _. Unit {0} };
}

/// A load that tells what T says, and that it was taken under the rule.
pub struct Loads<T> {
    marker: PhantomData<T>,
}

impl<B: Body, T: Tells<B>> Play<Option<B>, View> for Loads<T> {
    ghost use Rattle.std.specs.Prelude.{◌+◌, ◌-◌, ◌%◌, ◌^◌, ◌==◌};
    ghost use prog.Atomic.{either};
    ghost use Rattle.spd_rule.specs.Kept.{StepUnderBooks, means_of};

    ghost then = { λ step m n m'. T.tells m n m' × StepUnderBooks (means_of B.view) T.plan step.word n n m m' };
}

/// A fetch that adds that tells what T says, and that it was taken under the rule.
pub struct Adds<T> {
    marker: PhantomData<T>,
}

impl<B: Body, T: Tells<B>> Play<Option<B>, View> for Adds<T> {
    ghost use Rattle.std.specs.Prelude.{◌+◌, ◌-◌, ◌%◌, ◌^◌, ◌==◌};
    ghost use prog.Atomic.{either};
    ghost use Rattle.spd_rule.specs.Kept.{StepUnderBooks, means_of};

    ghost then = { λ step m n m'. T.tells m n m' × StepUnderBooks (means_of B.view) T.plan step.word n ((n + step.first) % 2 ^ 64) m m' };
}

/// A fetch that takes away that tells what T says, and that it was taken under the rule.
pub struct Subs<T> {
    marker: PhantomData<T>,
}

impl<B: Body, T: Tells<B>> Play<Option<B>, View> for Subs<T> {
    ghost use Rattle.std.specs.Prelude.{◌+◌, ◌-◌, ◌%◌, ◌^◌, ◌==◌};
    ghost use prog.Atomic.{either};
    ghost use Rattle.spd_rule.specs.Kept.{StepUnderBooks, means_of};

    ghost then = { λ step m n m'. T.tells m n m' × StepUnderBooks (means_of B.view) T.plan step.word n ((n + (2 ^ 64 - step.first)) % 2 ^ 64) m m' };
}

/// An exchange that tells what T says, and that it was taken under the rule.
pub struct Exchanges<T> {
    marker: PhantomData<T>,
}

impl<B: Body, T: Tells<B>> Play<Option<B>, View> for Exchanges<T> {
    ghost use Rattle.std.specs.Prelude.{◌+◌, ◌-◌, ◌%◌, ◌^◌, ◌==◌};
    ghost use prog.Atomic.{either};
    ghost use Rattle.spd_rule.specs.Kept.{StepUnderBooks, means_of};

    ghost then = { λ step m n m'. T.tells m n m' × StepUnderBooks (means_of B.view) T.plan step.word n (either (n == step.first) step.second n) m m' };
}

/// A store that tells what T says, and that it was taken under the rule.
pub struct Stores<T> {
    marker: PhantomData<T>,
}

impl<B: Body, T: Tells<B>> Play<Option<B>, View> for Stores<T> {
    ghost use Rattle.std.specs.Prelude.{ℕ};
    ghost use Rattle.spd_rule.specs.Kept.{StepUnderBooks, means_of};

    ghost then = { λ step m n m'. T.tells m n m' × (w : ℕ) × StepUnderBooks (means_of B.view) T.plan step.word w n m m' };
}

/// A fetch that takes the greater that tells what T says, and that it was taken under the rule.
pub struct Raises<T> {
    marker: PhantomData<T>,
}

impl<B: Body, T: Tells<B>> Play<Option<B>, View> for Raises<T> {
    ghost use Rattle.std.specs.Prelude.{◌+◌, ◌-◌, ◌%◌, ◌^◌, ◌==◌, max};
    ghost use prog.Atomic.{either};
    ghost use Rattle.spd_rule.specs.Kept.{StepUnderBooks, means_of};

    ghost then = { λ step m n m'. T.tells m n m' × StepUnderBooks (means_of B.view) T.plan step.word n (max n step.first) m m' };
}

/// A fetch that takes the lesser that tells what T says, and that it was taken under the rule.
pub struct Lowers<T> {
    marker: PhantomData<T>,
}

impl<B: Body, T: Tells<B>> Play<Option<B>, View> for Lowers<T> {
    ghost use Rattle.std.specs.Prelude.{◌+◌, ◌-◌, ◌%◌, ◌^◌, ◌==◌, min};
    ghost use prog.Atomic.{either};
    ghost use Rattle.spd_rule.specs.Kept.{StepUnderBooks, means_of};

    ghost then = { λ step m n m'. T.tells m n m' × StepUnderBooks (means_of B.view) T.plan step.word n (min n step.first) m m' };
}
