// How shares are split off and joined, and what a share tells of itself.

ghost use Rattle.std.specs.Prelude.{◌≡◌, ◌≢◌, ◌+◌, ◌<◌, ℕ, [], Option};
ghost use Rattle.spd_state.specs.Seats.{kept_view, given_view, joined_view, spent_view, IsEmpty};
ghost use Rattle.spd_rule.specs.Steps.{vertex_in, joined_known};
ghost use Rattle.spd_rule.specs.Shares.{IsOf, IsSame, share_view, IsTraded, share_bodies, share_known, field_plan};
ghost use Rattle.spd_rule.specs.Closings.{IsClosedBy, ClosesAllStarted, ClosesStarted, ClosesMoves, ClosesStarts, closed_plan};

use crate::beside::Beside;
use crate::closed::Closed;
use crate::field::{Field, Share};
use atomic_table::{Join, Split};
use spd_state::View;
use spd_words::{Body, Plan};

/// How a view is cut in two.
pub(crate) struct CutView {}

impl Split<View> for CutView {
    ghost left = { kept_view };

    ghost right = { given_view };
}

/// How two views become one.
pub(crate) struct JoinViews {}

impl Join<View> for JoinViews {
    ghost both = { joined_view };

    ghost spent = { spent_view };
}

impl<B: Body> Field<B> {
    /// The plan that the field was made with.
    pub fn plan(&self) -> Plan
        ensures { result ≡ field_plan self.now }
    {
        self.plan
    }

    /// A new share, which holds nothing and takes one of the spare seats. It takes a load of word 0.
    pub fn split(&self, share: &mut Share<B>) -> Share<B>
        requires of { IsOf self.now share.old }
        requires spare { 0 < (share_view share.old).spare }
        ensures same { IsSame share.old share.new }
        ensures of { IsOf self.now result }
        ensures kept { share_known share.new ≡ (kept_view (share_view share.old), share_bodies share.old) }
        ensures given { share_known result ≡ (given_view (share_view share.old), []) }
    {
        let seat = self.table.shared.split_seat::<CutView>(&mut share.seat);
        share.beside.spare -= 1;
        Share {
            seat,
            beside: Beside::new(0),
        }
    }

    /// Puts `body` into the slot that the share took last, and gives what lay there. It is no step: the
    /// words stay, and what the share knows.
    pub fn trade(&self, share: &mut Share<B>, body: Option<B>) -> Option<B>
        requires of { IsOf self.now share.old }
        requires holds { share_bodies share.old ≢ [] }
        ensures same { IsSame share.old share.new }
        ensures traded { IsTraded body result share.old share.new }
    {
        let slot = share.beside.slot() as usize;
        self.table.shared.exchange(&mut share.seat, slot, body)
    }

    /// The field at its end. No other share of it is left that holds anything, since this one has all
    /// seats and spare seats. Where vertex 1 was woken, every other vertex of a drawn move is started, and
    /// every root is 0. Where the share has the mark of the end, all of them are started; and where it
    /// carries a tame make, and the code of finish 0 isn't 0, the drawn moves are as many as were promised.
    /// The share's starts are the vertices that are started.
    pub fn close(self, share: Share<B>) -> Closed<B>
        requires of { IsOf self share }
        requires all { (share_view share).seats + (share_view share).spare ≡ 64 }
        ensures plan { closed_plan result ≡ field_plan self }
        ensures rule { IsClosedBy self share result }
        ensures ended { ClosesAllStarted result }
        ensures started { ClosesStarted (share_view share) result }
        ensures moves { ClosesMoves (share_view share) result }
        ensures starts { ClosesStarts (share_view share) result }
    {
        let Field { table, plan } = self;
        let Share { seat, beside } = share;
        drop(beside);
        Closed::of(table.close_with(seat), plan)
    }

    /// The other share's seats, spare seats, draws and starts go to this one. It takes a load of word 0.
    pub fn join(&self, share: &mut Share<B>, other: Share<B>)
        requires of { IsOf self.now share.old }
        requires other { IsOf self.now other }
        requires empty { IsEmpty (share_view other) }
        requires spare { (share_view share.old).spare + (share_view other).spare < 65 }
        ensures same { IsSame share.old share.new }
        ensures view { share_known share.new ≡ joined_known (share_known share.old) (share_view other) }
    {
        let Share { seat, beside } = other;
        self.table
            .shared
            .join_seat::<JoinViews>(&mut share.seat, seat);
        share.beside.join(beside);
    }
}

impl<B> Share<B> {
    /// The vertex that the share runs.
    pub fn running(&self) -> Option<u32>
        ensures { result ≡ vertex_in (share_view self.now).running }
    {
        match self.beside.running {
            Some(running) => Some(running.vertex),
            None => None,
        }
    }

    /// How many shares may still be split off.
    pub fn spare(&self) -> u32
        ensures { result ≡ (share_view self.now).spare }
    {
        self.beside.spare
    }

    /// How many vertices the share has started, by itself or by the shares that were joined into it: that
    /// number where its seats are 64 at most, as those of all shares of a field together are.
    pub fn starts(&self) -> u64
        ensures { (share_view self.now).seats < 65 → result ≡ (share_view self.now).starts }
    {
        self.beside.starts
    }
}
