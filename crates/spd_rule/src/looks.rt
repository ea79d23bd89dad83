// The steps that only look: at the number of drawn moves, and at a vertex.

ghost use Rattle.std.specs.Prelude.{◌≡◌, ◌*◌, ◌<◌, ℕ};
ghost use Rattle.spd_words.specs.Plan.{moves_place};
ghost use Rattle.spd_words.specs.Words.{vertex_of};
ghost use Rattle.spd_rule.specs.Steps.{MaySeeMoves, HasSeen, sees_known, see_known};
ghost use Rattle.spd_rule.specs.Shares.{BooksStand, IsOf, IsSame, LoadsUnderRule, start_place, share_view, share_known, field_plan};

use crate::field::{Field, Share};
use crate::table::load;
use spd_words::Body;
use std::marker::Brand;

/// Loads the number of drawn moves, by a share that has seen the moves full: it is above the plan's. The
/// look stands for a draw, so that a running share owes one move less.
pub fn see_moves<B: Body>(field: &Field<B>, share: &mut Share<B>) -> u64
    requires of { IsOf field.now share.old }
    requires may { MaySeeMoves (share_view share.old) }
    ensures same { IsSame share.old share.new }
    ensures view { share_known share.new ≡ sees_known (share_known share.old) }
    ensures full { (field_plan field.now).moves < result }
    ensures rule { LoadsUnderRule field.now moves_place result share.old share.new }
    ensures books { BooksStand B.view field.now share.old share.new }
{
    load::<B, (), Brand>(field, &mut share.seat, 0, &())
}

/// Loads the word of the vertex v. Where it is ready, the share has seen it so: a later start of it finds
/// this word, or finds that another share has started it.
pub fn see_vertex<B: Body>(field: &Field<B>, share: &mut Share<B>, v: u32) -> u64
    requires of { IsOf field.now share.old }
    requires vertex { v < 2 * (field_plan field.now).moves }
    ensures same { IsSame share.old share.new }
    ensures view { share_known share.new ≡ see_known v result (share_known share.old) }
    ensures seen { (vertex_of result).state ≡ 2 → HasSeen v result (share_view share.new) }
    ensures rule { LoadsUnderRule field.now (start_place field.now v) result share.old share.new }
    ensures books { BooksStand B.view field.now share.old share.new }
{
    let word = field.plan.vertex_place(v) as usize;
    load::<B, u32, Brand>(field, &mut share.seat, word, &v)
}
