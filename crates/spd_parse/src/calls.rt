// Reading arguments, and `run` statements.

ghost use Rattle.std.specs.Prelude.{◌≡◌, ◌∷◌, [], ◌++◌, ℕ, List};
ghost use Rattle.spd_syntax.specs.Symbols.{all_seen};
ghost use Rattle.spd_syntax.specs.Shapes.{after_mark, snoc, a_mark, separated};
ghost use Rattle.spd_read.specs.Reading.{reads_at, step, loops};
ghost use Rattle.spd_syntax.specs.Grammar.{expression, arguments, called, run_statement};
ghost use Rattle.spd_read.specs.Gives.{Gives};
ghost use Rattle.spd_syntax.specs.declared.token.Mark.TheVariants.{Comma};

use spd_read::{Read, deeper, expression, mark, name, next, next_is, word};
use spd_syntax::{Expr, Exprs, Mark, Stmt, StmtKind, Token, TokenKind, Word};
use std::alloc::Global;

/// Reads a comma and an argument, which it adds to those that were found.
fn next_argument<'a>(
    alloc: Global,
    text: &[u8],
    depth: u32,
    found: Exprs,
    tokens: &'a [Token],
) -> Read<'a, Exprs>
    ensures { Gives text.now result
        (step depth snoc (after_mark Comma expression) found (all_seen text.now tokens.now)) }
{
    let mut found = found;
    let (_, rest) = mark(tokens, Mark::Comma)?;
    let (argument, rest) = expression(alloc, text, depth, rest)?;
    found.push(argument)?;
    Ok((found, rest))
}

/// Reads the arguments behind the first one.
fn more_arguments<'a>(
    alloc: Global,
    text: &[u8],
    depth: u32,
    first: Expr,
    tokens: &'a [Token],
) -> Read<'a, Exprs>
    ensures { Gives text.now result
        (loops depth (a_mark Comma) snoc (after_mark Comma expression) (first ∷ []) (all_seen text.now tokens.now)) }
{
    let mut found = Exprs::new(alloc);
    found.push(first)?;
    let mut rest = tokens;
    let limit = tokens.len();
    for _ in 0..limit {
        if !next_is(rest, Mark::Comma) {
            return Ok((found, rest));
        }
        let (next, after) = next_argument(alloc, text, depth, found, rest)?;
        found = next;
        rest = after;
    }
    Ok((found, rest))
}

#[tactic(auto, unfolding(spd_syntax::specs::Grammar::arguments, spd_syntax::specs::Symbols::same_word, spd_syntax::specs::Symbols::same_mark))]
fn arguments<'a>(alloc: Global, text: &[u8], depth: u32, tokens: &'a [Token]) -> Read<'a, Exprs>
    ensures { Gives text.now result (reads_at depth arguments (all_seen text.now tokens.now)) }
{
    match next(tokens) {
        Some(
            TokenKind::Number
            | TokenKind::Name
            | TokenKind::Mark(Mark::LeftParen | Mark::Minus | Mark::Not)
            | TokenKind::Word(Word::Len | Word::Size | Word::At | Word::Same | Word::Begins),
        ) => {
            let (first, rest) = expression(alloc, text, depth, tokens)?;
            more_arguments(alloc, text, depth, first, rest)
        }
        _ => Ok((Exprs::new(alloc), tokens)),
    }
}

pub(crate) fn called<'a>(
    alloc: Global,
    text: &[u8],
    depth: u32,
    tokens: &'a [Token],
) -> Read<'a, Exprs>
    ensures { Gives text.now result (reads_at depth called (all_seen text.now tokens.now)) }
{
    let (_, rest) = mark(tokens, Mark::LeftParen)?;
    let depth = deeper(depth, tokens)?;
    let (found, rest) = arguments(alloc, text, depth, rest)?;
    let (_, rest) = mark(rest, Mark::RightParen)?;
    Ok((found, rest))
}

#[tactic(auto, unfolding(spd_syntax::specs::Grammar::run_statement))]
pub(crate) fn run_statement<'a>(
    alloc: Global,
    text: &[u8],
    depth: u32,
    tokens: &'a [Token],
) -> Read<'a, Stmt>
    ensures { Gives text.now result (reads_at depth run_statement (all_seen text.now tokens.now)) }
{
    let (line, rest) = word(tokens, Word::Run)?;
    let (callee, rest) = name(alloc, text, rest)?;
    let (args, rest) = called(alloc, text, depth, rest)?;
    let (_, rest) = mark(rest, Mark::Semicolon)?;
    let what = StmtKind::Run { callee, args };
    Ok((Stmt { line, what }, rest))
}
