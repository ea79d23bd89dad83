// How a field begins.

ghost use Rattle.std.specs.Prelude.{◌≡◌, ◌+◌, ◌*◌, ◌<◌, ℕ, IfOk, []};
ghost use Rattle.spd_words.specs.Plan.{IsPlan};
ghost use Rattle.spd_words.specs.declared.scheme.Scheme.TheVariants.{Flat};
ghost use Rattle.spd_state.specs.Seats.{first_view};
ghost use Rattle.spd_rule.specs.Openings.{StartsBlank};
ghost use Rattle.spd_rule.specs.Shares.{IsOf, field_plan, share_known};

use crate::beside::Beside;
use crate::field::{Field, Share};
use crate::rule::DagRule;
use atomic_table::{Seat, Table};
use spd_state::View;
use spd_words::{Body, NO_FAULT, Plan};
use std::alloc::{AllocError, Global};

impl<B: Body> Field<B> {
    /// A field of this plan in which nothing has begun, and its one share, which has 63 spare seats.
    ///
    /// The error comes where there is no memory for the words or the slots.
    pub fn new(alloc: Global, plan: Plan) -> Result<(Field<B>, Share<B>), AllocError>
        requires flat { plan.scheme ≡ Flat }
        ensures plan { IfOk result (λ t. field_plan t.0 ≡ plan) }
        ensures of { IfOk result (λ t. IsOf t.0 t.1) }
        ensures view { IfOk result (λ t. share_known t.1 ≡ (first_view, [])) }
    {
        let words = start_words(alloc, &plan)?;
        let slots = 2 * plan.moves() as usize;
        let (table, seat): (
            Table<Option<B>, View, Plan, DagRule, Global>,
            Seat<Option<B>, View>,
        ) = Table::vacant(alloc, words.as_slice(), slots, &plan)?;
        Ok((
            Field { table, plan },
            Share {
                seat,
                beside: Beside::new(63),
            },
        ))
    }
}

// The words of a table in which nothing has begun: 0, and for each finish the greatest code.
fn start_words(alloc: Global, plan: &Plan) -> Result<Vec<u64>, AllocError>
    ensures words { IfOk result (λ words. StartsBlank plan.now words.items) }
    ensures lawful { IsPlan plan.now }
{
    let count = plan.words() as usize;
    let mut words = Vec::from_elem(alloc, 0u64, plan.fault_place(0) as usize)?;
    words.resize(count, NO_FAULT)?;
    Ok(words)
}
