// Offers and faults of a body, told by what is left of it.

ghost use Rattle.std.specs.Prelude.{◌≡◌};
ghost use Rattle.spd_words.specs.declared.event.Event.TheVariants as event;
ghost use Rattle.spd_debts.specs.Payments.{offer_view, fault_view, sink_view};
ghost use Rattle.spd_state.specs.declared.view.Running.{Running};
ghost use Rattle.spd_rule.specs.Shares.{IsOf, IsSame, share_view};
ghost use Rattle.spd_work.specs.Runs.{RunsCut, RunsOn};

use spd_book::{fault, offer};
use spd_rule::{Field, Share, Told};
use spd_words::{Body, FinishKind};
use std::marker::Brand;

/// Puts an offer of a body of which this is left.
pub(crate) fn offer_of<B: Body>(
    field: &Field<B>,
    share: &mut Share<B>,
    kind: FinishKind,
    value: i64,
    rest: &B,
)
    requires of { IsOf field.now share.old }
    requires kind { kind ≡ (B.view rest.now).means.kind }
    requires runs { (r : Running) × RunsCut (share_view share.old) r (event.Offer value) (B.view rest.now) }
    ensures same { IsSame share.old share.new }
    ensures view { share_view share.new ≡ offer_view (B.view rest.now).means.promise.gift (share_view share.old) }
{
    offer_as::<B, Brand>(field, share, kind, value, rest);
}

/// Puts a fault of a body of which this is left.
pub(crate) fn fault_of<B: Body>(field: &Field<B>, share: &mut Share<B>, code: u64, rest: &B)
    requires of { IsOf field.now share.old }
    requires runs { (r : Running) × RunsCut (share_view share.old) r (event.Fault code) (B.view rest.now) }
    ensures same { IsSame share.old share.new }
    ensures view { share_view share.new ≡ fault_view (B.view rest.now).means.promise.fault (share_view share.old) }
{
    fault_as::<B, Brand>(field, share, code, rest);
}

/// Puts the code 0, which stands for want of memory.
pub(crate) fn no_memory_of<B: Body>(field: &Field<B>, share: &mut Share<B>)
    requires of { IsOf field.now share.old }
    requires runs { (r : Running) × RunsOn (share_view share.old) r }
    ensures same { IsSame share.old share.new }
    ensures view { share_view share.new ≡ sink_view (share_view share.old) }
{
    fault::<B, Brand>(field, share, 0);
}

// `offer`, told what is left.
fn offer_as<B: Body, P: Told>(
    field: &Field<B>,
    share: &mut Share<B>,
    kind: FinishKind,
    value: i64,
    rest: &B,
)
    requires of { IsOf field.now share.old }
    requires told { P.told ≡ (B.view rest.now).means }
    requires kind { kind ≡ (B.view rest.now).means.kind }
    requires runs { (r : Running) × RunsCut (share_view share.old) r (event.Offer value) (B.view rest.now) }
    ensures same { IsSame share.old share.new }
    ensures view { share_view share.new ≡ offer_view (B.view rest.now).means.promise.gift (share_view share.old) }
{
    let _ = rest;
    offer::<B, P>(field, share, kind, value);
}

// `fault`, told what is left.
fn fault_as<B: Body, P: Told>(field: &Field<B>, share: &mut Share<B>, code: u64, rest: &B)
    requires of { IsOf field.now share.old }
    requires told { P.told ≡ (B.view rest.now).means }
    requires runs { (r : Running) × RunsCut (share_view share.old) r (event.Fault code) (B.view rest.now) }
    ensures same { IsSame share.old share.new }
    ensures view { share_view share.new ≡ fault_view (B.view rest.now).means.promise.fault (share_view share.old) }
{
    let _ = rest;
    fault::<B, P>(field, share, code);
}
