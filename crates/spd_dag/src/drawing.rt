// The first turn of a chain or a spawn: a move is drawn, or seen not to be there.

ghost use Rattle.std.specs.Prelude.{◌≡◌, ◌<◌, ◌≤◌};
ghost use Rattle.spd_rule.specs.Shares.{IsOf, IsSame, share_view, field_plan};
ghost use Rattle.spd_dag.specs.Draws.{MayDrawOrSee, DrawnUnderRule, FindsMove, FindsNone};

use spd_rule::{Field, Share, draw_move, see_moves};
use spd_state::Draw;
use spd_words::Body;
use std::marker::Brand;

/// Draws a move for a chain or a spawn, or, by a share that has seen the moves full, looks at their
/// number; gives the number that it found.
pub(crate) fn draw_or_see<B: Body>(field: &Field<B>, share: &mut Share<B>, of: Draw) -> u64
    requires of { IsOf field.now share.old }
    requires may { MayDrawOrSee of (share_view share.old) }
    ensures same { IsSame share.old share.new }
    ensures drawn { result < (field_plan field.now).moves → FindsMove of result share.old share.new }
    ensures full { (field_plan field.now).moves ≤ result → FindsNone share.old share.new }
    ensures rule { DrawnUnderRule field.now result share.old share.new }
{
    if share.has_seen_full() {
        see_moves(field, share)
    } else {
        draw_move::<B, Brand>(field, share, of)
    }
}
