// How a gift stands in the word of a finish.

ghost use Rattle.std.specs.Prelude.{◌≡◌, ◌≢◌};
ghost use Rattle.spd_words.specs.Gift.{join, identity};
ghost use Rattle.spd_words.specs.declared.finish_kind.FinishKind.TheVariants.{Sum};
ghost use Rattle.spd_debts.specs.Worth.{gift_of};

use spd_words::FinishKind;

/// The word of a value in a least or a greatest: the better value has the greater word. In a plain finish
/// each value has the word 0.
pub(crate) fn best_word(kind: FinishKind, value: i64) -> u64
    ensures { kind ≢ Sum → gift_of kind result ≡ join kind value (identity kind) }
{
    match kind {
        FinishKind::Plain | FinishKind::Sum => 0,
        FinishKind::Least => i64::MAX.wrapping_sub(value).cast_unsigned(),
        FinishKind::Greatest => value.wrapping_sub(i64::MIN).cast_unsigned(),
    }
}

/// The gift that a word of this kind of finish stands for.
pub(crate) fn gift_in(kind: FinishKind, word: u64) -> i64
    ensures { result ≡ gift_of kind word }
{
    match kind {
        FinishKind::Plain => 0,
        FinishKind::Sum => word.cast_signed(),
        FinishKind::Least => i64::MAX.wrapping_sub(word.cast_signed()),
        FinishKind::Greatest => word.cast_signed().wrapping_add(i64::MIN),
    }
}
