// The claim of a handle of the running vertex's pair.

ghost use Rattle.std.specs.Prelude.{◌≡◌, ◌<◌, ℕ};
ghost use Rattle.spd_rule.specs.Steps.{MayClaim};
ghost use Rattle.spd_rule.specs.Shares.{IsOf, IsSame, share_view, field_plan};
ghost use Rattle.spd_counter.specs.Claiming.{ClaimsHandle, pair_handle};

use spd_rule::{Field, Share};
use spd_words::{Body, PairWord};

/// Claims the first handle of the running vertex's pair that wasn't claimed, and gives its node. It takes
/// one step: the share's right becomes a unit at that node, which is a root of the plan.
pub fn claim<B: Body>(field: &Field<B>, share: &mut Share<B>) -> u32
    requires of { IsOf field.now share.old }
    requires may { MayClaim (share_view share.old) }
    ensures same { IsSame share.old share.new }
    ensures root { result < (field_plan field.now).moves }
    ensures claims { ClaimsHandle field.now result share.old share.new }
{
    let old = spd_rule::claim(field, share);
    handle_of(old)
}

// The handle that a claim takes that found this word.
fn handle_of(word: u64) -> u32
    ensures { result ≡ pair_handle word }
{
    if PairWord::claims(word) == 0 {
        PairWord::first(word)
    } else {
        PairWord::second(word)
    }
}
