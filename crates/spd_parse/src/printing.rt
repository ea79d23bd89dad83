// Reading `print` statements.

ghost use Rattle.std.specs.Prelude.{◌≡◌, ◌∷◌, [], ◌++◌, ℕ, List};
ghost use Rattle.spd_syntax.specs.Symbols.{all_seen};
ghost use Rattle.spd_syntax.specs.Shapes.{after_mark, snoc, a_mark};
ghost use Rattle.spd_read.specs.Reading.{reads_at, step, loops};
ghost use Rattle.spd_syntax.specs.Grammar.{quoted, part, parts, print_statement};
ghost use Rattle.spd_read.specs.Gives.{Gives};
ghost use Rattle.spd_syntax.specs.declared.token.Mark.TheVariants.{Comma};

use spd_read::{Read, expression, lit, mark, next, next_is, word};
use spd_syntax::{Mark, Parts, PrintPart, Stmt, StmtKind, Token, TokenKind, Word};
use std::alloc::Global;

#[tactic(auto, unfolding(spd_syntax::specs::Grammar::quoted))]
fn quoted<'a>(alloc: Global, text: &[u8], tokens: &'a [Token]) -> Read<'a, PrintPart>
    ensures { (depth : ℕ) → Gives text.now result (reads_at depth quoted (all_seen text.now tokens.now)) }
{
    let (found, rest) = lit(alloc, text, tokens)?;
    Ok((PrintPart::Lit(found), rest))
}

#[tactic(auto, unfolding(spd_syntax::specs::Grammar::part))]
fn part<'a>(alloc: Global, text: &[u8], depth: u32, tokens: &'a [Token]) -> Read<'a, PrintPart>
    ensures { Gives text.now result (reads_at depth part (all_seen text.now tokens.now)) }
{
    match next(tokens) {
        Some(TokenKind::Lit) => quoted(alloc, text, tokens),
        _ => {
            let (value, rest) = expression(alloc, text, depth, tokens)?;
            Ok((PrintPart::Value(value), rest))
        }
    }
}

/// Reads a comma and a part, which it adds to those that were found.
fn next_part<'a>(
    alloc: Global,
    text: &[u8],
    depth: u32,
    found: Parts,
    tokens: &'a [Token],
) -> Read<'a, Parts>
    ensures { Gives text.now result (step depth snoc (after_mark Comma part) found (all_seen text.now tokens.now)) }
{
    let mut found = found;
    let (_, rest) = mark(tokens, Mark::Comma)?;
    let (part, rest) = part(alloc, text, depth, rest)?;
    found.push(part)?;
    Ok((found, rest))
}

/// Reads the parts behind the first one.
fn more_parts<'a>(
    alloc: Global,
    text: &[u8],
    depth: u32,
    first: PrintPart,
    tokens: &'a [Token],
) -> Read<'a, Parts>
    ensures { Gives text.now result
        (loops depth (a_mark Comma) snoc (after_mark Comma part) (first ∷ []) (all_seen text.now tokens.now)) }
{
    let mut found = Parts::new(alloc);
    found.push(first)?;
    let mut rest = tokens;
    let limit = tokens.len();
    for _ in 0..limit {
        if !next_is(rest, Mark::Comma) {
            return Ok((found, rest));
        }
        let (next, after) = next_part(alloc, text, depth, found, rest)?;
        found = next;
        rest = after;
    }
    Ok((found, rest))
}

#[tactic(auto, unfolding(spd_syntax::specs::Grammar::parts))]
fn parts<'a>(alloc: Global, text: &[u8], depth: u32, tokens: &'a [Token]) -> Read<'a, Parts>
    ensures { Gives text.now result (reads_at depth parts (all_seen text.now tokens.now)) }
{
    let (first, rest) = part(alloc, text, depth, tokens)?;
    more_parts(alloc, text, depth, first, rest)
}

#[tactic(auto, unfolding(spd_syntax::specs::Grammar::print_statement))]
pub(crate) fn print_statement<'a>(
    alloc: Global,
    text: &[u8],
    depth: u32,
    tokens: &'a [Token],
) -> Read<'a, Stmt>
    ensures { Gives text.now result (reads_at depth print_statement (all_seen text.now tokens.now)) }
{
    let (line, rest) = word(tokens, Word::Print)?;
    let (parts, rest) = parts(alloc, text, depth, rest)?;
    let (_, rest) = mark(rest, Mark::Semicolon)?;
    let what = StmtKind::Print { parts };
    Ok((Stmt { line, what }, rest))
}
