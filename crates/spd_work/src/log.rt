// What is kept of the regions that ran.

ghost use Rattle.std.specs.Prelude.{◌≡◌, Some, None};
ghost use Rattle.spd_rule.specs.Closings.{EveryStarted, closed_plan, closed_words, drawn_moves};
ghost use Rattle.spd_work.specs.Logs.{empty_log, with_region};

use spd_rule::Closed;
use spd_words::{Body, Plan};
use std::marker::Model;

/// How many regions ran, how many moves they drew, and the plan of the last one.
#[derive(Drop)]
pub struct RunLog {
    regions: u64,
    moves: u64,
    plan: Option<Plan>,
}

impl Model for RunLog {
    ghost use Rattle.spd_work.specs.Logs.{RunLogView};

    ghost Value = { RunLogView };

    ghost view = { λ log. record { regions = log.regions; moves = log.moves; plan = log.plan } };
}

impl RunLog {
    /// A log of no region.
    pub fn new() -> RunLog
        ensures { result ≡ empty_log }
    {
        RunLog {
            regions: 0,
            moves: 0,
            plan: None,
        }
    }

    /// Adds the field of a region that has ended, with each vertex of a drawn move started, and lets it go.
    pub fn add<B: Body>(&mut self, closed: Closed<B>)
        requires { EveryStarted (closed_plan closed) (closed_words closed) }
        ensures { self.new
            ≡ with_region (closed_plan closed) (drawn_moves (closed_plan closed) (closed_words closed)) self.old }
    {
        self.regions = self.regions.wrapping_add(1);
        self.moves = self.moves.wrapping_add(u64::from(closed.moves()));
        self.plan = Some(closed.plan());
    }

    /// How many regions were added, modulo 2^64.
    pub fn regions(&self) -> u64
        ensures { result ≡ self.now.regions }
    {
        self.regions
    }

    /// How many moves they drew, modulo 2^64.
    pub fn moves(&self) -> u64
        ensures { result ≡ self.now.moves }
    {
        self.moves
    }

    /// The plan of the last one; `None` where none was added.
    pub fn plan(&self) -> Option<Plan>
        ensures { result ≡ self.now.plan }
    {
        self.plan
    }
}
