// Reading numbers.

ghost use Rattle.std.specs.Prelude.{◌≡◌, ℕ, true, false, MatchOption, pos, nat_le};
ghost use Rattle.spd_syntax.specs.Symbols.{all_seen, value_of, greatest_literal};
ghost use Rattle.spd_syntax.specs.Grammar.{literal};
ghost use Rattle.spd_read.specs.Reading.{reads_at};
ghost use Rattle.spd_read.specs.Gives.{Gives};

use crate::reading::{Read, ReadError, StopKind};
use crate::tokens::text_of;
use spd_syntax::{Expr, Token, TokenKind};

/// The value of digits, if it is a literal's.
fn value(digits: &[u8]) -> Option<i64>
    ensures { MatchOption result (nat_le (value_of digits.now) greatest_literal ≡ false)
        (λ v. (v ≡ pos (value_of digits.now)) × (nat_le (value_of digits.now) greatest_literal ≡ true)) }
{
    let mut value: u64 = 0;
    for digit in digits {
        let digit = u64::from(digit.saturating_sub(b'0'));
        value = value.checked_mul(10)?.checked_add(digit)?;
    }
    i64::try_from(value).ok()
}

#[tactic(auto, unfolding(spd_syntax::specs::Grammar::literal))]
pub(crate) fn literal<'a>(text: &[u8], tokens: &'a [Token]) -> Read<'a, Expr>
    ensures { (depth : ℕ) → Gives text.now result (reads_at depth literal (all_seen text.now tokens.now)) }
{
    match tokens {
        [token, rest @ ..] => match token.kind {
            TokenKind::Number => match value(text_of(text, token)) {
                Some(value) => Ok((Expr::Number(value), rest)),
                None => Err(ReadError::Fault(StopKind::Literal, tokens)),
            },
            _ => Err(ReadError::Fault(StopKind::Expected, tokens)),
        },
        [] => Err(ReadError::Fault(StopKind::Expected, tokens)),
    }
}
