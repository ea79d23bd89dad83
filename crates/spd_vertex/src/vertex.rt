// The start of a vertex: a look at its word, an exchange where it was ready, and the body out of its slot.

ghost use Rattle.std.specs.Prelude.{◌≡◌, ◌*◌, ◌<◌, ℕ};
ghost use Rattle.spd_rule.specs.Shares.{IsOf, IsSame, share_view, share_known, field_plan};
ghost use Rattle.spd_vertex.specs.Starting.{GivesFit, Starting, start_of_slot};

use crate::starting::Start;
use spd_rule::{Field, Share, see_vertex, start_vertex};
use spd_words::{Body, VertexWord};

/// The state of a vertex that is ready to be started.
const READY: u32 = 2;

/// Starts the vertex: loads its word and, where it is ready, exchanges it to started. `Taken` comes exactly
/// where one of the two steps saw a state other than ready.
pub fn start<B: Body>(field: &Field<B>, share: &mut Share<B>, vertex: u32) -> Start<B>
    requires of { IsOf field.now share.old }
    requires vertex { vertex < 2 * (field_plan field.now).moves }
    requires idle { (share_view share.old).running ≡ None }
    requires landed { (share_view share.old).flight ≡ None }
    ensures same { IsSame share.old share.new }
    ensures starts { Starting (λ b. (B.view b).means) field.now vertex share.old share.new result }
    ensures fit { GivesFit B.view vertex share.old result }
{
    let seen = see_vertex(field, share, vertex);
    let state = VertexWord::state(seen);
    if state != READY {
        return Start::Taken { state };
    }
    match start_vertex(field, share, vertex, seen) {
        Ok(_) => taken_out(field.trade(share, None)),
        Err(found) => Start::Taken {
            state: VertexWord::state(found),
        },
    }
}

// What a started vertex's slot had: vertex 1's has nothing.
fn taken_out<B: Drop>(body: Option<B>) -> Start<B>
    ensures { result ≡ start_of_slot body }
{
    match body {
        Some(body) => Start::Ours(body),
        None => Start::End,
    }
}
