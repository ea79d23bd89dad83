// The handle that a claim takes.

ghost use Rattle.std.specs.Prelude.{◌≡◌, ◌<◌};
ghost use Rattle.spd_words.specs.Words.{pair_of};
ghost use Rattle.spd_state.specs.Dag.{next_handle};

use spd_words::PairWord;

/// The handle that a claim takes which found this word: the first for whoever comes first.
pub(crate) fn next_of(pair: u64) -> u32
    requires { (pair_of pair).claims < 2 }
    ensures { result ≡ next_handle (pair_of pair) }
{
    if PairWord::claims(pair) == 0 {
        PairWord::first(pair)
    } else {
        PairWord::second(pair)
    }
}
