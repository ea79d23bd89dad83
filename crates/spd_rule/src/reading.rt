// What a share tells of the vertex that it runs.

ghost use Rattle.std.specs.Prelude.{◌≡◌, ◌<◌, ◌↔◌, IsTrue};
ghost use Rattle.spd_rule.specs.Shares.{share_view};

use crate::field::Share;
use spd_state::Running;

impl<B> Share<B> {
    /// The vertex that the share runs, with the numbers of its word, and 1 while its right to claim is
    /// unused.
    pub fn runs(&self) -> Option<Running>
        ensures { result ≡ (share_view self.now).running }
    {
        self.beside.running
    }

    /// Whether the share has seen the moves full: a draw of its own, or of one that was joined to it,
    /// found none left.
    pub fn has_seen_full(&self) -> bool
        ensures { IsTrue result ↔ (0 < (share_view self.now).full_draws) }
    {
        self.beside.full
    }
}
