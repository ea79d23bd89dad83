// The make: a region's finish 0, with its first vertex ready and its last one waiting.

ghost use Rattle.std.specs.Prelude.{◌≡◌};
ghost use Rattle.spd_rule.specs.Shares.{IsOf, IsSame, share_view};
ghost use Rattle.spd_rule.specs.Kept.{IsFit};
ghost use Rattle.spd_dag.specs.Acts.{MayMake};
ghost use Rattle.spd_dag.specs.Makes.{MakesRegion};

use crate::kind::kind_number;
use crate::telling::draw_make;
use spd_rule::{Field, Share, set_pair, set_root, set_vertex};
use spd_words::{Body, FinishKind};
use std::marker::Brand;

/// Makes the finish of a region, of this kind, by the share that `Field::new` gave: vertex 1 waits for
/// that finish, and then vertex 0, with the body, is ready. It takes five steps, and no memory.
pub fn make<B: Body>(field: &Field<B>, share: &mut Share<B>, kind: FinishKind, body: B)
    requires of { IsOf field.now share.old }
    requires fit { IsFit (B.view body) }
    requires may { MayMake (share_view share.old) kind (B.view body).means }
    ensures same { IsSame share.old share.new }
    ensures made { MakesRegion field.now (B.view body).means share.old share.new }
{
    draw_make::<B, Brand>(field, share, &body);
    set_root::<B, Brand>(field, share, 0);
    let number = kind_number(kind);
    set_pair::<B, Brand, Brand>(field, share, 0, 1, number, 0, 0);
    set_vertex(field, share, 1, 1, 0, 0, 0, 0);
    drop(field.trade(share, Some(body)));
    set_vertex(field, share, 0, 2, 0, 0, 0, 0);
}
