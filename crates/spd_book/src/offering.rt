// Offers and codes of faults of the running vertex.

ghost use Rattle.std.specs.Prelude.{◌≡◌, ◌≢◌};
ghost use Rattle.spd_rule.specs.Payments.{offered_known, lowered_known};
ghost use Rattle.spd_rule.specs.Shares.{IsOf, IsSame, BooksStand, share_view, share_known};
ghost use Rattle.spd_book.specs.Offers.{MayOffer, MayFault, PutsOffer, PutsFault, own_finish, OwesOnly};

use crate::word::best_word;
use spd_rule::{Field, Share, Told, add_sum, lower_fault, raise_best};
use spd_words::{Body, FinishKind};

/// Puts a value of the running vertex to its finish, which is of this kind: one step on the finish's gift
/// word, which then counts exactly this value more. The value is taken out of the vertex's promise, and
/// what is left is told. A plain finish counts nothing.
pub fn offer<B: Body, P: Told>(field: &Field<B>, share: &mut Share<B>, kind: FinishKind, value: i64)
    requires of { IsOf field.now share.old }
    requires may { MayOffer (share_view share.old) kind value P.told }
    ensures same { IsSame share.old share.new }
    ensures view { share_known share.new ≡ offered_known P.told.promise.gift (share_known share.old) }
    ensures left { OwesOnly P.told (share_view share.old) (share_view share.new) }
    ensures step { PutsOffer field.now kind value (own_finish share.old) share.old share.new }
    ensures books { BooksStand B.view field.now share.old share.new }
{
    let Some(running) = share.runs() else {
        unreachable!()
    };
    match kind {
        FinishKind::Sum => add_sum::<B, P>(field, share, running.finish, value),
        FinishKind::Plain | FinishKind::Least | FinishKind::Greatest => raise_best::<B, P>(
            field,
            share,
            running.finish,
            best_word(kind, value),
        ),
    };
}

/// Puts the code of a fault of the running vertex to its finish: one step on the finish's fault word, which
/// keeps the least code. A code other than 0 is taken out of the vertex's promise, and what is left is
/// told. 0 stands for want of memory: nothing is taken out, and the vertex may end whatever it owes.
pub fn fault<B: Body, P: Told>(field: &Field<B>, share: &mut Share<B>, code: u64)
    requires of { IsOf field.now share.old }
    requires may { MayFault (share_view share.old) code P.told }
    ensures same { IsSame share.old share.new }
    ensures view { share_known share.new ≡ lowered_known code P.told.promise.fault (share_known share.old) }
    ensures left { code ≢ 0 → OwesOnly P.told (share_view share.old) (share_view share.new) }
    ensures step { PutsFault field.now code (own_finish share.old) share.old share.new }
    ensures books { BooksStand B.view field.now share.old share.new }
{
    let Some(running) = share.runs() else {
        unreachable!()
    };
    lower_fault::<B, P>(field, share, running.finish, code);
}
