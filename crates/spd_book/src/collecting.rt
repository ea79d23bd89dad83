// What a finish gives to the vertex that waited for it.

ghost use Rattle.std.specs.Prelude.{◌<◌};
ghost use Rattle.spd_rule.specs.Shares.{IsOf, IsSame, share_view, field_plan};
ghost use Rattle.spd_book.specs.Collects.{MayCollect, Collects, GivesExpected};

use crate::word::gift_in;
use spd_rule::{Field, Share, see_fault, see_sum};
use spd_words::{Body, FinishKind};

/// What a finish has got: its gift, and the least code of a fault in it. `NO_FAULT` stands for none, 0 for
/// want of memory, and then the gift means nothing.
#[derive(Clone, Copy)]
pub struct Collected {
    pub gift: i64,
    pub fault: u64,
}

/// Collects the finish for which the running vertex waited, of this kind: looks at its gift word and then
/// at its fault word. The fault is 0 exactly where that word is 0; the gift of a plain finish is 0. Where
/// books are kept and the fault isn't 0, both are what the finish was to give.
pub fn collect<B: Body>(
    field: &Field<B>,
    share: &mut Share<B>,
    finish: u32,
    kind: FinishKind,
) -> Collected
    requires of { IsOf field.now share.old }
    requires finish { finish < (field_plan field.now).moves }
    requires may { MayCollect (share_view share.old) finish kind }
    ensures same { IsSame share.old share.new }
    ensures looks { Collects field.now finish kind result share.old share.new }
    ensures gives { GivesExpected (share_view share.old) finish result }
{
    let word = see_sum(field, share, finish);
    let fault = see_fault(field, share, finish);
    let gift = gift_in(kind, word);
    Collected { gift, fault }
}
