// The step of a share that is told a finish.

ghost use Rattle.std.specs.Prelude.{◌≡◌, ◌+◌, ◌*◌, ◌<◌, ◌≤◌, ℕ};
ghost use Rattle.spd_words.specs.Words.{vertex_of};
ghost use Rattle.spd_rule.specs.Steps.{IsTold, wake_known};
ghost use Rattle.spd_rule.specs.Shares.{BooksStand, IsOf, IsSame, AddsUnderRule, start_place, share_view, share_known, field_plan};

use crate::field::{Field, Share};
use crate::table::add;
use spd_words::Body;
use std::marker::Brand;

/// Adds 1 to the word of vertex 2f + 1, the waiting vertex of the finish f that the share is told, and
/// gives what it was: waiting, and from now on ready. The share is told f no more. Where its vertex is
/// over with this, it runs nothing, and the vertex's slot goes home.
pub fn wake_vertex<B: Body>(field: &Field<B>, share: &mut Share<B>, f: u32) -> u64
    requires of { IsOf field.now share.old }
    requires finish { f < (field_plan field.now).moves }
    requires told { IsTold f (share_view share.old) }
    ensures same { IsSame share.old share.new }
    ensures view { share_known share.new ≡ wake_known f (share_known share.old) }
    ensures waited { (vertex_of result).state ≡ 1 }
    ensures few { (share_view share.new).ready ≤ 2 * (field_plan field.now).moves }
    ensures rule { AddsUnderRule field.now (start_place field.now (2 * f + 1)) 1 result share.old share.new }
    ensures books { BooksStand B.view field.now share.old share.new }
{
    let word = field.plan.vertex_place(2 * f + 1) as usize;
    let old = add::<B, u32, Brand>(field, &mut share.seat, word, 1, &f);
    share.beside.wake();
    old
}
