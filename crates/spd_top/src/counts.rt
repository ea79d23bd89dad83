// How much a run adds to the counts of a log.

ghost use Rattle.std.specs.Prelude.{◌≡◌, ◌<◌, ◌^◌, if◌then◌else◌, Some, None};
ghost use Rattle.spd_top.specs.Rising.{counts_of, risen};

use spd_work::RunLog;

/// How many regions ran and how many moves they drew, both modulo 2^64.
#[derive(Clone, Copy, Debug, PartialEq, Eq)]
pub(crate) struct RegionCounts {
    pub regions: u64,
    pub moves: u64,
}

impl RegionCounts {
    /// Those of a log.
    pub(crate) fn of(log: &RunLog) -> RegionCounts
        ensures counts { result ≡ counts_of log.now }
        ensures fits { (result.regions < 2 ^ 64) × (result.moves < 2 ^ 64) }
    {
        RegionCounts {
            regions: log.regions(),
            moves: log.moves(),
        }
    }

    /// How much those of a log have risen since, modulo 2^64, if that is asked for.
    pub(crate) fn risen_in(self, log: &RunLog, asked: bool) -> Option<RegionCounts>
        ensures { result ≡ (if asked then Some (risen self (counts_of log.now)) else None) }
    {
        if !asked {
            return None;
        }
        let now = RegionCounts::of(log);
        Some(RegionCounts {
            regions: now.regions.wrapping_sub(self.regions),
            moves: now.moves.wrapping_sub(self.moves),
        })
    }
}
