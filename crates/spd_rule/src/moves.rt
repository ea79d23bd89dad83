// The steps on a move in flight: it is drawn, and then its root, its pair and its vertices are set.

ghost use Rattle.std.specs.Prelude.{◌≡◌, ◌+◌, ◌*◌, ◌<◌, ◌≤◌, ◌%◌, ◌^◌, ℕ, Option};
ghost use Rattle.spd_words.specs.Plan.{moves_place, node_place, pair_place};
ghost use Rattle.spd_words.specs.Words.{vertex_with};
ghost use Rattle.spd_rule.specs.Kept.{SlotFits};
ghost use Rattle.spd_rule.specs.Rest.{at_rest};
ghost use Rattle.spd_rule.specs.Steps.{MayDrawMove};
ghost use Rattle.spd_rule.specs.Moves.{MaySetRoot, MaySetPair, IsPairOf, IsVertexOf, fresh_pair, root_set, vertex_set};
ghost use Rattle.spd_rule.specs.Shares.{BooksStand, IsOf, IsSame, AddsUnderRule, StoresUnderRule, MayStore, MoveDrawn, PairSet, VertexStored, PairStored, share_view, share_bodies, share_known, field_plan};

use crate::field::{Field, Share};
use crate::table::{add, store};
use crate::told::Told;
use spd_state::Draw;
use spd_words::{Body, NodeWord, PairWord, VertexWord};
use std::marker::Brand;

/// Adds 1 to the number of drawn moves, and gives what it was. Where that is a move of the plan, the
/// move is in flight with this share, which has its two slots; else the share has seen the moves full.
/// A make is told what its body means, and a running share owes one move less.
pub fn draw_move<B: Body, P: Told>(field: &Field<B>, share: &mut Share<B>, of: Draw) -> u64
    requires of { IsOf field.now share.old }
    requires may { MayDrawMove of P.told (share_view share.old) }
    ensures same { IsSame share.old share.new }
    ensures drawn { MoveDrawn field.now of P.told result share.old share.new }
    ensures rule { AddsUnderRule field.now moves_place 1 result share.old share.new }
    ensures books { BooksStand B.view field.now share.old share.new }
{
    let old = add::<B, Draw, Brand>(field, &mut share.seat, 0, 1, &of);
    share.beside.draw(of, old, field.plan.moves());
    old
}

/// Stores the count 1 in the root d of the share's make or chain, which opens the finish d. The share
/// has the unit there. A chain is told what its body means, and owes that body's moves no more.
pub fn set_root<B: Body, P: Told>(field: &Field<B>, share: &mut Share<B>, d: u32)
    requires of { IsOf field.now share.old }
    requires may { MaySetRoot d P.told (share_view share.old) }
    ensures same { IsSame share.old share.new }
    ensures view { share_known share.new ≡ (root_set d P.told (share_view share.old), share_bodies share.old) }
    ensures rule { StoresUnderRule field.now (node_place (field_plan field.now) d) 2 share.old share.new }
    ensures books { BooksStand B.view field.now share.old share.new }
{
    let word = field.plan.node_place(d) as usize;
    store::<B, u32, Brand>(field, &mut share.seat, word, NodeWord::pack(2, 0), &d);
    share.beside.reach(1);
}

/// Stores the pair of the share's move d, with no claim. A make or a chain gives the unit of its root
/// as the only handle, and the number of its kind of finish; a spawn its claimed unit and another one,
/// and is told what its two bodies mean, which take all that the share owes.
pub fn set_pair<B: Body, P: Told, Q: Told>(
    field: &Field<B>,
    share: &mut Share<B>,
    d: u32,
    total: u32,
    kind: u32,
    first: u32,
    second: u32,
)
    requires of { IsOf field.now share.old }
    requires numbers { IsPairOf (field_plan field.now) d (fresh_pair total kind first second) }
    requires may { MaySetPair d (fresh_pair total kind first second) P.told Q.told (share_view share.old) }
    ensures same { IsSame share.old share.new }
    ensures view { PairSet second P.told Q.told share.old share.new }
    ensures rule { PairStored field.now d (fresh_pair total kind first second) share.old share.new }
    ensures books { BooksStand B.view field.now share.old share.new }
{
    let word = field.plan.pair_place(d) as usize;
    let pair = PairWord::pack(0, total, kind, first, second);
    store::<B, (u32, u32), Brand>(field, &mut share.seat, word, pair, &(d, second));
    share.beside.pair(second);
}

/// Stores the vertex v of the share's move in flight that is next, with its body, which lies in the slot
/// that was taken last, and puts that slot home: vertex 1 of a make, which has no body; the waiting
/// vertex of a chain, which takes the place of the running one; the body of either; the left and then
/// the right vertex of a spawn. After the last one the share runs nothing.
pub fn set_vertex<B: Body>(
    field: &Field<B>,
    share: &mut Share<B>,
    v: u32,
    state: u32,
    side: u32,
    pair: u32,
    finish: u32,
    inc: u32,
)
    requires of { IsOf field.now share.old }
    requires numbers { IsVertexOf (field_plan field.now) v (vertex_with state side pair finish inc) }
    requires fit { SlotFits B.view (share_known share.old) }
    requires may { MayStore (λ b. (B.view b).means) v (vertex_with state side pair finish inc) share.old }
    ensures same { IsSame share.old share.new }
    ensures view { share_known share.new ≡ at_rest (vertex_set (share_known share.old)) }
    ensures few { (share_view share.new).ready ≤ 2 * (field_plan field.now).moves }
    ensures rule { VertexStored field.now v (vertex_with state side pair finish inc) share.old share.new }
    ensures books { BooksStand B.view field.now share.old share.new }
{
    let word = field.plan.vertex_place(v) as usize;
    let vertex = VertexWord::pack(state, side, pair, finish, inc);
    store::<B, (), Brand>(field, &mut share.seat, word, vertex, &());
    share.beside.store();
}
