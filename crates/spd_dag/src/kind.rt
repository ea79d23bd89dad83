// The number of a kind of finish in the word of a pair.

ghost use Rattle.std.specs.Prelude.{◌≡◌};
ghost use Rattle.spd_rule.specs.Moves.{pair_kind};

use spd_words::FinishKind;

/// The number of a kind of finish in the word of a pair.
pub(crate) fn kind_number(kind: FinishKind) -> u32
    ensures { result ≡ pair_kind kind }
{
    match kind {
        FinishKind::Plain => 0,
        FinishKind::Sum => 1,
        FinishKind::Least => 2,
        FinishKind::Greatest => 3,
    }
}
