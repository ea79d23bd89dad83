// Reading one operator.

ghost use Rattle.std.specs.Prelude.{◌≡◌, ℕ, List};
ghost use Rattle.spd_syntax.specs.Symbols.{all_seen};
ghost use Rattle.spd_syntax.specs.Grammar.{unary_operator, operators, operator_in, operator};
ghost use Rattle.spd_syntax.specs.declared.operators.TheConstants.{OPERATORS};
ghost use Rattle.spd_read.specs.Reading.{next_in, reads_at};
ghost use Rattle.spd_read.specs.Gives.{Gives};

use crate::reading::{Read, ReadError, StopKind};
use crate::tokens::next;
use spd_syntax::{BinOp, Mark, OPERATORS, Token, TokenKind, UnOp};

#[tactic(auto, unfolding(spd_syntax::specs::Grammar::unary_operator, spd_syntax::specs::Symbols::same_mark))]
/// Reads a sign before an operand.
pub(crate) fn unary_operator<'a>(tokens: &'a [Token]) -> Read<'a, UnOp>
    ensures { (text : List ℕ) (depth : ℕ) → Gives text result
        (reads_at depth unary_operator (all_seen text tokens.now)) }
{
    match tokens {
        [token, rest @ ..] => match token.kind {
            TokenKind::Mark(Mark::Minus) => Ok((UnOp::Neg, rest)),
            TokenKind::Mark(Mark::Not) => Ok((UnOp::Not, rest)),
            _ => Err(ReadError::Fault(StopKind::Expected, tokens)),
        },
        [] => Err(ReadError::Fault(StopKind::Expected, tokens)),
    }
}

/// The operator of a level that a mark is.
#[tactic(auto, unfolding(spd_syntax::specs::Grammar::operator_in, spd_syntax::specs::Symbols::same_mark))]
fn operator_of(mark: Mark, level: u32) -> Option<BinOp>
    ensures { result ≡ operator_in level mark OPERATORS }
{
    let mut table = OPERATORS.as_slice();
    while let [row, rest @ ..] = table {
        if row.2 == level && row.0 == mark {
            return Some(row.1);
        }
        table = rest;
    }
    None
}

/// Whether an operator of a level stands next.
#[tactic(auto, unfolding(spd_syntax::specs::Grammar::operators), using(crate::proofs::OperatorRows::tested, crate::proofs::OperatorRows::untested))]
pub(crate) fn next_is_operator(tokens: &[Token], level: u32) -> bool
    ensures { (text : List ℕ) → result ≡ next_in (operators level) (all_seen text tokens.now) }
{
    match next(tokens) {
        Some(TokenKind::Mark(mark)) => operator_of(mark, level).is_some(),
        _ => false,
    }
}

#[tactic(auto, unfolding(spd_syntax::specs::Grammar::operator), using(crate::proofs::OperatorRows::found, crate::proofs::OperatorRows::unfound))]
pub(crate) fn operator<'a>(tokens: &'a [Token], level: u32) -> Read<'a, BinOp>
    ensures { (text : List ℕ) (depth : ℕ) → Gives text result
        (reads_at depth (operator level) (all_seen text tokens.now)) }
{
    let [token, rest @ ..] = tokens else {
        return Err(ReadError::Fault(StopKind::Expected, tokens));
    };
    match token.kind {
        TokenKind::Mark(mark) => match operator_of(mark, level) {
            Some(op) => Ok((op, rest)),
            None => Err(ReadError::Fault(StopKind::Expected, tokens)),
        },
        _ => Err(ReadError::Fault(StopKind::Expected, tokens)),
    }
}
