// The steps on counts, pairs and vertices that a running share takes.

ghost use Rattle.std.specs.Prelude.{◌≡◌, ◌+◌, ◌*◌, ◌<◌, ◌≤◌, ℕ};
ghost use Rattle.spd_words.specs.Words.{node_of, pair_of};
ghost use Rattle.spd_state.specs.Steps.{add_view};
ghost use Rattle.spd_rule.specs.Rest.{sub_known};
ghost use Rattle.spd_rule.specs.Steps.{claim_known, MayClaim, MayAdd, MaySub, MayStart};
ghost use Rattle.spd_rule.specs.Shares.{BooksStand, StartIsFit, IsOf, IsSame, AddsUnderRule, SubsUnderRule, ExchangesUnderRule, StartAnswer, FindsHandle, OverAtLast, claim_place, root_place, start_place, share_view, share_bodies, share_known, field_plan};

use crate::field::{Field, Share};
use crate::table::{add, exchange, sub};
use spd_words::{Body, NodeWord};
use std::marker::Brand;

/// Adds 1 to the pair of the running vertex. The share's right becomes the unit of the handle that was
/// next. One was left, so no handle is claimed twice.
pub fn claim<B: Body>(field: &Field<B>, share: &mut Share<B>) -> u64
    requires of { IsOf field.now share.old }
    requires may { MayClaim (share_view share.old) }
    ensures same { IsSame share.old share.new }
    ensures view { share_known share.new ≡ claim_known (pair_of result) (share_known share.old) }
    ensures handle { FindsHandle (pair_of result) }
    ensures rule { AddsUnderRule field.now (claim_place field.now share.old) 1 result share.old share.new }
    ensures books { BooksStand B.view field.now share.old share.new }
{
    let Some(running) = share.beside.running else {
        unreachable!()
    };
    let word = field.plan.pair_place(running.pair) as usize;
    let old = add::<B, (), Brand>(field, &mut share.seat, word, 1, &());
    share.beside.claim();
    old
}

/// Adds 1 to the count of the root d, whose word has twice the count. The share holds one unit more.
/// The count was 1 at least: a root that has come to 0 never rises again.
pub fn add_root<B: Body>(field: &Field<B>, share: &mut Share<B>, d: u32) -> u64
    requires of { IsOf field.now share.old }
    requires root { d < (field_plan field.now).moves }
    requires may { MayAdd d (share_view share.old) }
    ensures same { IsSame share.old share.new }
    ensures view { share_known share.new ≡ (add_view d (share_view share.old), share_bodies share.old) }
    ensures live { 2 ≤ (node_of result).twice }
    ensures rule { AddsUnderRule field.now (root_place field.now d) 2 result share.old share.new }
    ensures books { BooksStand B.view field.now share.old share.new }
{
    let word = field.plan.node_place(d) as usize;
    let old = add::<B, u32, Brand>(field, &mut share.seat, word, 2, &d);
    share.beside.hold(d);
    old
}

/// Takes 1 from the count of the root d, with a unit there, the claimed one only where there is no
/// other. Where the count was 1, the share is told d, and nothing of the finish d is unfinished. Where its
/// vertex is over with this, it runs nothing, and the vertex's slot goes home.
pub fn sub_root<B: Body>(field: &Field<B>, share: &mut Share<B>, d: u32) -> u64
    requires of { IsOf field.now share.old }
    requires root { d < (field_plan field.now).moves }
    requires may { MaySub d (share_view share.old) }
    ensures same { IsSame share.old share.new }
    ensures view { share_known share.new ≡ sub_known d (node_of result) (share_known share.old) }
    ensures unit { 2 ≤ (node_of result).twice }
    ensures over { OverAtLast field.now d result share.old share.new }
    ensures rule { SubsUnderRule field.now (root_place field.now d) 2 result share.old share.new }
    ensures books { BooksStand B.view field.now share.old share.new }
{
    let word = field.plan.node_place(d) as usize;
    let old = sub::<B, u32, Brand>(field, &mut share.seat, word, 2, &d);
    share.beside.depart(d, NodeWord::twice(old) == 2);
    old
}

/// Exchanges the word of the vertex v from `seen`, which is ready, to started. `Ok` comes exactly where
/// the word was as it was seen: the share runs the vertex, holds its slot, and has one start more. `Err`
/// has another word.
/// The body in the slot may go on, and is tame where the share carries that books are kept.
pub fn start_vertex<B: Body>(
    field: &Field<B>,
    share: &mut Share<B>,
    v: u32,
    seen: u64,
) -> Result<u64, u64>
    requires of { IsOf field.now share.old }
    requires vertex { v < 2 * (field_plan field.now).moves }
    requires may { MayStart seen (share_view share.old) }
    ensures same { IsSame share.old share.new }
    ensures answer { StartAnswer (λ b. (B.view b).means) field.now v seen result share.old share.new }
    ensures fit { StartIsFit B.view v result share.old share.new }
    ensures rule { ExchangesUnderRule field.now (start_place field.now v) seen (seen + 1) result share.old share.new }
    ensures books { BooksStand B.view field.now share.old share.new }
{
    let word = field.plan.vertex_place(v) as usize;
    let found = exchange::<B, u32, Brand>(field, &mut share.seat, word, seen, seen + 1, &v);
    if found == seen {
        share.beside.start(v, seen);
        Ok(found)
    } else {
        Err(found)
    }
}
