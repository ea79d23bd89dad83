// The steps that pay what a vertex owes to its finish: offers and codes of faults.

ghost use Rattle.std.specs.Prelude.{◌≡◌, ◌<◌, max, min};
ghost use Rattle.std.specs.Int.{w64, cast_unsigned};
ghost use Rattle.spd_rule.specs.Payments.{MayPayTo, TakesSum, TakesBest, TakesFault, offered_known, lowered_known};
ghost use Rattle.spd_rule.specs.Shares.{IsOf, IsSame, BooksStand, AddsUnderRule, LeavesUnderRule, offer_place, code_place, share_view, share_known, field_plan};

use crate::field::{Field, Share};
use crate::table::{add, lower, raise};
use crate::told::Told;
use spd_words::Body;
use std::marker::Brand;

/// Adds x to the gift word of the sum d, wrapping, and gives what it was. The share runs a vertex of d, of
/// whose promise x is taken out; what is left of its gift is told.
pub fn add_sum<B: Body, P: Told>(field: &Field<B>, share: &mut Share<B>, d: u32, x: i64) -> u64
    requires of { IsOf field.now share.old }
    requires finish { d < (field_plan field.now).moves }
    requires may { MayPayTo d (share_view share.old) }
    requires pays { TakesSum x P.told.promise.gift (share_view share.old) }
    ensures same { IsSame share.old share.new }
    ensures view { share_known share.new ≡ offered_known P.told.promise.gift (share_known share.old) }
    ensures rule { AddsUnderRule field.now (offer_place field.now d) (cast_unsigned w64 x) result share.old share.new }
    ensures books { BooksStand B.view field.now share.old share.new }
{
    let word = field.plan.gift_place(d) as usize;
    add::<B, (), Brand>(field, &mut share.seat, word, x.cast_unsigned(), &())
}

/// Puts x, the word of a value as a least or a greatest counts it, in the gift word of d where it is
/// greater, and gives what that was. The share runs a vertex of d, of whose promise the value is taken
/// out; what is left of its gift is told.
pub fn raise_best<B: Body, P: Told>(field: &Field<B>, share: &mut Share<B>, d: u32, x: u64) -> u64
    requires of { IsOf field.now share.old }
    requires finish { d < (field_plan field.now).moves }
    requires may { MayPayTo d (share_view share.old) }
    requires pays { TakesBest x P.told.promise.gift (share_view share.old) }
    ensures same { IsSame share.old share.new }
    ensures view { share_known share.new ≡ offered_known P.told.promise.gift (share_known share.old) }
    ensures rule { LeavesUnderRule field.now (offer_place field.now d) result (max result x) share.old share.new }
    ensures books { BooksStand B.view field.now share.old share.new }
{
    let word = field.plan.gift_place(d) as usize;
    raise::<B, (), Brand>(field, &mut share.seat, word, x, &())
}

/// Puts the code in the fault word of d where it is less, and gives what that was. The share runs a vertex
/// of d. A code other than 0 is taken out of its promise, and what is left is told; after 0 the share is
/// sunk, and not hurt any more.
pub fn lower_fault<B: Body, P: Told>(
    field: &Field<B>,
    share: &mut Share<B>,
    d: u32,
    code: u64,
) -> u64
    requires of { IsOf field.now share.old }
    requires finish { d < (field_plan field.now).moves }
    requires may { MayPayTo d (share_view share.old) }
    requires pays { TakesFault code P.told.promise.fault (share_view share.old) }
    ensures same { IsSame share.old share.new }
    ensures view { share_known share.new ≡ lowered_known code P.told.promise.fault (share_known share.old) }
    ensures rule { LeavesUnderRule field.now (code_place field.now d) result (min result code) share.old share.new }
    ensures books { BooksStand B.view field.now share.old share.new }
{
    let word = field.plan.fault_place(d) as usize;
    lower::<B, u64, Brand>(field, &mut share.seat, word, code, &code)
}
