// A field and its shares.

ghost use Rattle.std.specs.Prelude.{◌≡◌, ℕ, ◌*◌};
ghost use Rattle.spd_words.specs.Plan.{IsPlan, plan_words};
ghost use Rattle.spd_words.specs.declared.scheme.Scheme.TheVariants.{Flat};
ghost use Rattle.spd_rule.specs.Rest.{due};
ghost use Rattle.spd_rule.specs.Beside.{Mirrors};

use crate::beside::Beside;
use crate::rule::DagRule;
use atomic_table::{Seat, Table};
use spd_state::View;
use spd_words::{Body, Plan};
use std::alloc::Global;

/// A table of words and slots, which many shares take steps on at once.
#[derive(Drop)]
pub struct Field<B: Body> {
    pub(crate) table: Table<Option<B>, View, Plan, DagRule, Global>,
    pub(crate) plan: Plan,
    ghost lawful: { IsPlan plan },
    pub ghost flat: { plan.scheme ≡ Flat },
    ghost keyed: { table.shared.key ≡ plan },
    ghost wide: { table.shared.table_id.words ≡ plan_words plan },
    ghost deep: { table.shared.table_id.slots ≡ 2 * plan.moves },
}

/// What one worker steps with: a seat at the table, with what it knows, and numbers of that beside it.
#[derive(Drop)]
pub struct Share<B> {
    pub(crate) seat: Seat<Option<B>, View>,
    pub(crate) beside: Beside,
    ghost mirrors: { Mirrors seat.table_id seat.me beside },
    ghost holds: { seat.me.0.slots ≡ due seat.me.0.flight seat.me.0.running },
}
