// How the shares of a region become one again.

ghost use Rattle.std.specs.Prelude.{◌≡◌, ◌+◌, ◌<◌, All, Some, length};
ghost use Rattle.spd_state.specs.declared.promise.Whole.{Whole};
ghost use Rattle.spd_rule.specs.Shares.{IsOf, share_view};
ghost use Rattle.spd_work.specs.Crew.{HasLeft, all_seats, seats_held};
ghost use Rattle.spd_work.specs.Workers.{EndsWell};

use crate::hands::Hands;
use crate::worker::Worker;
use spd_book::Collected;
use spd_ready::Ready;
use spd_rule::{Field, Share};
use spd_words::Body;

/// The one share that has the seats of all, and what the worker that ran the end has collected.
pub(crate) fn gather<B: Body, Q: Ready + Drop>(
    field: &Field<B>,
    workers: Vec<Worker<B, Q>>,
) -> (Share<B>, Option<Collected>)
    requires some { 0 < length workers.items }
    requires left { (made : Whole) × All (HasLeft field.now made) workers.items }
    requires total { all_seats workers.items ≡ 64 }
    ensures of { IsOf field.now result.0 }
    ensures all { seats_held (share_view result.0) ≡ 64 }
    ensures ends { EndsWell (share_view result.0) result.1 }
    ensures carries { (made : Whole) → All (HasLeft field.now made) workers.items
        → (share_view result.0).whole ≡ Some made }
{
    let mut workers = workers;
    let Some(first) = workers.pop() else {
        unreachable!()
    };
    let Worker {
        hands,
        number: _,
        ended,
    } = first;
    let Hands {
        share,
        ready: _,
        spawned: _,
    } = hands;
    let mut share = share;
    let mut ended = ended;
    loop {
        let Some(worker) = workers.pop() else {
            return (share, ended);
        };
        ended = take_in(field, &mut share, ended, worker);
    }
}

/// Joins one more share. What either has collected stays.
fn take_in<B: Body, Q: Ready + Drop>(
    field: &Field<B>,
    share: &mut Share<B>,
    ended: Option<Collected>,
    worker: Worker<B, Q>,
) -> Option<Collected>
    requires of { IsOf field.now share.old }
    requires ends { EndsWell (share_view share.old) ended }
    requires left { (made : Whole) × HasLeft field.now made worker × ((share_view share.old).whole ≡ Some made) }
    requires spare { seats_held (share_view share.old) + seats_held (share_view worker.hands.share) < 65 }
    ensures of { IsOf field.now share.new }
    ensures carries { (share_view share.new).whole ≡ (share_view share.old).whole }
    ensures seats { seats_held (share_view share.new)
        ≡ seats_held (share_view share.old) + seats_held (share_view worker.hands.share) }
    ensures ends { EndsWell (share_view share.new) result }
{
    let Worker {
        hands,
        number: _,
        ended: theirs,
    } = worker;
    let Hands {
        share: other,
        ready: _,
        spawned: _,
    } = hands;
    field.join(share, other);
    if theirs.is_some() { theirs } else { ended }
}
