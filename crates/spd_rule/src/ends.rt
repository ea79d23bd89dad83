// The steps of a share whose vertex waited: it looks at what its finish has got, and vertex 1 ends the region.

ghost use Rattle.std.specs.Prelude.{◌≡◌, ◌<◌, ℕ};
ghost use Rattle.spd_words.specs.Plan.{done_place};
ghost use Rattle.spd_state.specs.Steps.{stepped};
ghost use Rattle.spd_rule.specs.Payments.{FindsAwaited, MayMarkEnd, shown_known, collected_known, done_known};
ghost use Rattle.spd_rule.specs.Shares.{IsOf, IsSame, BooksStand, LoadsUnderRule, StoresUnderRule, offer_place, code_place, share_view, share_bodies, share_known, field_plan};

use crate::field::{Field, Share};
use crate::table::{load, store};
use spd_words::Body;
use std::marker::Brand;

/// Loads the gift word of the finish d. A share that runs the waiting vertex of d has seen it: it stands.
pub fn see_sum<B: Body>(field: &Field<B>, share: &mut Share<B>, d: u32) -> u64
    requires of { IsOf field.now share.old }
    requires finish { d < (field_plan field.now).moves }
    ensures same { IsSame share.old share.new }
    ensures view { share_known share.new ≡ shown_known d result (share_known share.old) }
    ensures rule { LoadsUnderRule field.now (offer_place field.now d) result share.old share.new }
    ensures books { BooksStand B.view field.now share.old share.new }
{
    let word = field.plan.gift_place(d) as usize;
    load::<B, u32, Brand>(field, &mut share.seat, word, &d)
}

/// Loads the fault word of the finish d. A share that runs the waiting vertex of d and was to collect has
/// collected; it is hurt where the word is 0. Where the word is another, it and the gift word that the
/// share has seen are what the finish was to give.
pub fn see_fault<B: Body>(field: &Field<B>, share: &mut Share<B>, d: u32) -> u64
    requires of { IsOf field.now share.old }
    requires finish { d < (field_plan field.now).moves }
    ensures same { IsSame share.old share.new }
    ensures view { share_known share.new ≡ collected_known d result (share_known share.old) }
    ensures finds { FindsAwaited d result (share_view share.old) }
    ensures rule { LoadsUnderRule field.now (code_place field.now d) result share.old share.new }
    ensures books { BooksStand B.view field.now share.old share.new }
{
    let word = field.plan.fault_place(d) as usize;
    load::<B, u32, Brand>(field, &mut share.seat, word, &d)
}

/// Stores 1 in the word of the end, by the share that runs vertex 1. It runs nothing then, has the mark of
/// the end, and the slot goes home.
pub fn set_done<B: Body>(field: &Field<B>, share: &mut Share<B>)
    requires of { IsOf field.now share.old }
    requires may { MayMarkEnd (share_view share.old) }
    ensures same { IsSame share.old share.new }
    ensures view { share_known share.new ≡ done_known (share_known share.old) }
    ensures rule { StoresUnderRule field.now done_place 1 share.old share.new }
    ensures books { BooksStand B.view field.now share.old share.new }
{
    store::<B, (), Brand>(field, &mut share.seat, 2, 1, &());
    share.beside.end();
}

/// Loads the word of the end: 1 once the share of vertex 1 has set it, and 0 before.
pub fn see_done<B: Body>(field: &Field<B>, share: &mut Share<B>) -> u64
    requires of { IsOf field.now share.old }
    ensures same { IsSame share.old share.new }
    ensures view { share_known share.new ≡ (stepped (share_view share.old), share_bodies share.old) }
    ensures rule { LoadsUnderRule field.now done_place result share.old share.new }
    ensures books { BooksStand B.view field.now share.old share.new }
{
    load::<B, (), Brand>(field, &mut share.seat, 2, &())
}
