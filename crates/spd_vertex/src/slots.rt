// A body is put into the slot of the vertex that is stored next.

ghost use Rattle.std.specs.Prelude.{◌≡◌, ℕ};
ghost use Rattle.spd_rule.specs.Shares.{IsOf, IsSame};
ghost use Rattle.spd_vertex.specs.Slots.{FirstSlotHas, FirstSlotGets};

use spd_rule::{Field, Share};
use spd_words::Body;

/// Puts a body into the slot of this vertex, which is the one that the share took last, and is empty. It
/// is no step: the words stay, and what the share knows.
pub fn put_body<B: Body>(field: &Field<B>, share: &mut Share<B>, vertex: u32, body: B)
    requires of { IsOf field.now share.old }
    requires slot { FirstSlotHas vertex None share.old }
    ensures same { IsSame share.old share.new }
    ensures put { FirstSlotGets vertex (Some body) share.old share.new }
{
    let _ = vertex;
    let _ = field.trade(share, Some(body));
}
