// Steps that are told what bodies mean, with the bodies at hand.

ghost use Rattle.std.specs.Prelude.{◌≡◌};
ghost use Rattle.spd_words.specs.Plan.{moves_place, node_place};
ghost use Rattle.spd_rule.specs.Steps.{MayDrawMove};
ghost use Rattle.spd_rule.specs.Moves.{MaySetRoot, MaySetPair, IsPairOf, fresh_pair, root_set};
ghost use Rattle.spd_rule.specs.Shares.{IsOf, IsSame, StoresUnderRule, AddsUnderRule, MoveDrawn, PairSet, PairStored, share_view, share_bodies, share_known, field_plan};

use spd_rule::{Field, Share, Told, draw_move, set_pair, set_root};
use spd_state::Draw;
use spd_words::Body;

/// `draw_move` of a make, told what its body means.
pub(crate) fn draw_make<B: Body, P: Told>(field: &Field<B>, share: &mut Share<B>, body: &B) -> u64
    requires of { IsOf field.now share.old }
    requires told { P.told ≡ (B.view body.now).means }
    requires may { MayDrawMove Draw.Make P.told (share_view share.old) }
    ensures same { IsSame share.old share.new }
    ensures drawn { MoveDrawn field.now Draw.Make P.told result share.old share.new }
    ensures rule { AddsUnderRule field.now moves_place 1 result share.old share.new }
{
    let _ = body;
    draw_move::<B, P>(field, share, Draw::Make)
}

/// `set_root`, told what the body means.
pub(crate) fn set_root_of<B: Body, P: Told>(
    field: &Field<B>,
    share: &mut Share<B>,
    d: u32,
    body: &B,
)
    requires of { IsOf field.now share.old }
    requires told { P.told ≡ (B.view body.now).means }
    requires may { MaySetRoot d P.told (share_view share.old) }
    ensures same { IsSame share.old share.new }
    ensures view { share_known share.new ≡ (root_set d P.told (share_view share.old), share_bodies share.old) }
    ensures rule { StoresUnderRule field.now (node_place (field_plan field.now) d) 2 share.old share.new }
{
    let _ = body;
    set_root::<B, P>(field, share, d);
}

/// `set_pair` of a spawn, told what its two bodies mean.
pub(crate) fn set_pair_of<B: Body, P: Told, Q: Told>(
    field: &Field<B>,
    share: &mut Share<B>,
    d: u32,
    first: u32,
    second: u32,
    body: &B,
    rest: &B,
)
    requires of { IsOf field.now share.old }
    requires told_body { P.told ≡ (B.view body.now).means }
    requires told_rest { Q.told ≡ (B.view rest.now).means }
    requires numbers { IsPairOf (field_plan field.now) d (fresh_pair 2 0 first second) }
    requires may { MaySetPair d (fresh_pair 2 0 first second) P.told Q.told (share_view share.old) }
    ensures same { IsSame share.old share.new }
    ensures view { PairSet second P.told Q.told share.old share.new }
    ensures rule { PairStored field.now d (fresh_pair 2 0 first second) share.old share.new }
{
    let _ = body;
    let _ = rest;
    set_pair::<B, P, Q>(field, share, d, 2, 0, first, second);
}
