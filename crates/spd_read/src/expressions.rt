// Reading expressions.

ghost use Rattle.std.specs.Prelude.{◌≤◌, ◌<◌, ◌+◌, ◌==◌};
ghost use Rattle.spd_syntax.specs.Symbols.{all_seen};
ghost use Rattle.spd_syntax.specs.Grammar.{behind_name, name_led, parens, len_of, size_of, at_of, same_of, begins_of, nameless, primary, signed, unary, nameless_unary, comparisons, operators, operation, into, behind_operand, at_level, nameless_expression, expression, place, two_places, place_text};
ghost use Rattle.spd_read.specs.Reading.{reads_at, applied, step, loops, grouped_at};
ghost use Rattle.spd_read.specs.Gives.{Gives};

use crate::held::Held;
use crate::literals::literal;
use crate::operators::{next_is_operator, operator, unary_operator};
use crate::reading::Read;
use crate::tokens::{deeper, lit, mark, name, next, next_is, word};
use spd_syntax::{Expr, Lit, Mark, Name, Token, TokenKind, Word};
use sqlite_items::Boxed;
use std::alloc::Global;

/// The level of the operators that don't group.
const COMPARISONS: u32 = 3;

#[cycle(expr)]
#[tactic(auto, unfolding(spd_syntax::specs::Grammar::parens))]
fn parens<'a>(alloc: Global, text: &[u8], depth: u32, tokens: &'a [Token]) -> Read<'a, Expr>
    ensures { Gives text.now result (reads_at depth parens (all_seen text.now tokens.now)) }
{
    let (_, rest) = mark(tokens, Mark::LeftParen)?;
    let depth = deeper(depth, tokens)?;
    let (value, rest) = expression(alloc, text, depth, rest)?;
    let held = Held { value };
    let (_, rest) = mark(rest, Mark::RightParen)?;
    Ok((held.release(), rest))
}

/// Reads what may stand behind a name.
#[cycle(expr)]
#[tactic(auto, unfolding(spd_syntax::specs::Grammar::behind_name))]
pub fn behind_name<'a>(
    alloc: Global,
    text: &[u8],
    depth: u32,
    name: Name,
    tokens: &'a [Token],
) -> Read<'a, Expr>
    ensures { Gives text.now result (applied name (reads_at depth behind_name (all_seen text.now tokens.now))) }
{
    if !next_is(tokens, Mark::LeftBracket) {
        return Ok((Expr::Var(name), tokens));
    }
    let (_, rest) = mark(tokens, Mark::LeftBracket)?;
    let depth = deeper(depth, tokens)?;
    let (place, rest) = expression(alloc, text, depth, rest)?;
    let place = Boxed::new(alloc, place)?;
    let (_, rest) = mark(rest, Mark::RightBracket)?;
    Ok((Expr::Index(name, place), rest))
}

#[cycle(expr)]
#[tactic(auto, unfolding(spd_syntax::specs::Grammar::name_led))]
fn name_led<'a>(alloc: Global, text: &[u8], depth: u32, tokens: &'a [Token]) -> Read<'a, Expr>
    ensures { Gives text.now result (reads_at depth name_led (all_seen text.now tokens.now)) }
{
    let (name, rest) = name(alloc, text, tokens)?;
    behind_name(alloc, text, depth, name, rest)
}

#[tactic(auto, unfolding(spd_syntax::specs::Grammar::len_of))]
fn len_of<'a>(alloc: Global, text: &[u8], depth: u32, tokens: &'a [Token]) -> Read<'a, Expr>
    ensures { Gives text.now result (reads_at depth len_of (all_seen text.now tokens.now)) }
{
    let (_, here) = word(tokens, Word::Len)?;
    let (_, rest) = mark(here, Mark::LeftParen)?;
    let _ = deeper(depth, here)?;
    let (name, rest) = name(alloc, text, rest)?;
    let (_, rest) = mark(rest, Mark::RightParen)?;
    Ok((Expr::Len(name), rest))
}

#[cycle(expr)]
#[tactic(auto, unfolding(spd_syntax::specs::Grammar::place))]
fn place<'a>(
    alloc: Global,
    text: &[u8],
    depth: u32,
    tokens: &'a [Token],
) -> Read<'a, (Name, Boxed<Expr>)>
    ensures { Gives text.now result (reads_at depth place (all_seen text.now tokens.now)) }
{
    let (name, rest) = name(alloc, text, tokens)?;
    let (_, rest) = mark(rest, Mark::Comma)?;
    let (place, rest) = expression(alloc, text, depth, rest)?;
    Ok(((name, Boxed::new(alloc, place)?), rest))
}

#[cycle(expr)]
#[tactic(auto, unfolding(spd_syntax::specs::Grammar::size_of))]
fn size_of<'a>(alloc: Global, text: &[u8], depth: u32, tokens: &'a [Token]) -> Read<'a, Expr>
    ensures { Gives text.now result (reads_at depth size_of (all_seen text.now tokens.now)) }
{
    let (_, here) = word(tokens, Word::Size)?;
    let (_, rest) = mark(here, Mark::LeftParen)?;
    let depth = deeper(depth, here)?;
    let ((name, place), rest) = place(alloc, text, depth, rest)?;
    let (_, rest) = mark(rest, Mark::RightParen)?;
    Ok((Expr::Size(name, place), rest))
}

#[cycle(expr)]
#[tactic(auto, unfolding(spd_syntax::specs::Grammar::two_places))]
fn two_places<'a>(
    alloc: Global,
    text: &[u8],
    depth: u32,
    tokens: &'a [Token],
) -> Read<'a, (Name, Boxed<Expr>, Boxed<Expr>)>
    ensures { Gives text.now result (reads_at depth two_places (all_seen text.now tokens.now)) }
{
    let (name, rest) = name(alloc, text, tokens)?;
    let (_, rest) = mark(rest, Mark::Comma)?;
    let (place, rest) = expression(alloc, text, depth, rest)?;
    let place = Boxed::new(alloc, place)?;
    let (_, rest) = mark(rest, Mark::Comma)?;
    let (byte, rest) = expression(alloc, text, depth, rest)?;
    let byte = Boxed::new(alloc, byte)?;
    Ok(((name, place, byte), rest))
}

#[cycle(expr)]
#[tactic(auto, unfolding(spd_syntax::specs::Grammar::at_of))]
fn at_of<'a>(alloc: Global, text: &[u8], depth: u32, tokens: &'a [Token]) -> Read<'a, Expr>
    ensures { Gives text.now result (reads_at depth at_of (all_seen text.now tokens.now)) }
{
    let (_, here) = word(tokens, Word::At)?;
    let (_, rest) = mark(here, Mark::LeftParen)?;
    let depth = deeper(depth, here)?;
    let ((name, place, byte), rest) = two_places(alloc, text, depth, rest)?;
    let (_, rest) = mark(rest, Mark::RightParen)?;
    Ok((Expr::At(name, place, byte), rest))
}

#[cycle(expr)]
#[tactic(auto, unfolding(spd_syntax::specs::Grammar::place_text))]
fn place_text<'a>(
    alloc: Global,
    text: &[u8],
    depth: u32,
    tokens: &'a [Token],
) -> Read<'a, (Name, Boxed<Expr>, Lit)>
    ensures { Gives text.now result (reads_at depth place_text (all_seen text.now tokens.now)) }
{
    let (name, rest) = name(alloc, text, tokens)?;
    let (_, rest) = mark(rest, Mark::Comma)?;
    let (place, rest) = expression(alloc, text, depth, rest)?;
    let place = Boxed::new(alloc, place)?;
    let (_, rest) = mark(rest, Mark::Comma)?;
    let (found, rest) = lit(alloc, text, rest)?;
    Ok(((name, place, found), rest))
}

#[cycle(expr)]
#[tactic(auto, unfolding(spd_syntax::specs::Grammar::same_of))]
fn same_of<'a>(alloc: Global, text: &[u8], depth: u32, tokens: &'a [Token]) -> Read<'a, Expr>
    ensures { Gives text.now result (reads_at depth same_of (all_seen text.now tokens.now)) }
{
    let (_, here) = word(tokens, Word::Same)?;
    let (_, rest) = mark(here, Mark::LeftParen)?;
    let depth = deeper(depth, here)?;
    let ((name, place, found), rest) = place_text(alloc, text, depth, rest)?;
    let (_, rest) = mark(rest, Mark::RightParen)?;
    Ok((Expr::Same(name, place, found), rest))
}

#[cycle(expr)]
#[tactic(auto, unfolding(spd_syntax::specs::Grammar::begins_of))]
fn begins_of<'a>(alloc: Global, text: &[u8], depth: u32, tokens: &'a [Token]) -> Read<'a, Expr>
    ensures { Gives text.now result (reads_at depth begins_of (all_seen text.now tokens.now)) }
{
    let (_, here) = word(tokens, Word::Begins)?;
    let (_, rest) = mark(here, Mark::LeftParen)?;
    let depth = deeper(depth, here)?;
    let ((name, place, found), rest) = place_text(alloc, text, depth, rest)?;
    let (_, rest) = mark(rest, Mark::RightParen)?;
    Ok((Expr::Begins(name, place, found), rest))
}

/// Reads a primary that doesn't begin with a name.
#[cycle(expr)]
#[tactic(auto, unfolding(spd_syntax::specs::Grammar::nameless, spd_syntax::specs::Symbols::same_word, spd_syntax::specs::Symbols::same_mark))]
fn nameless<'a>(alloc: Global, text: &[u8], depth: u32, tokens: &'a [Token]) -> Read<'a, Expr>
    ensures { Gives text.now result (reads_at depth nameless (all_seen text.now tokens.now)) }
{
    match next(tokens) {
        Some(TokenKind::Number) => literal(text, tokens),
        Some(TokenKind::Word(Word::Len)) => len_of(alloc, text, depth, tokens),
        Some(TokenKind::Word(Word::Size)) => size_of(alloc, text, depth, tokens),
        Some(TokenKind::Word(Word::At)) => at_of(alloc, text, depth, tokens),
        Some(TokenKind::Word(Word::Same)) => same_of(alloc, text, depth, tokens),
        Some(TokenKind::Word(Word::Begins)) => begins_of(alloc, text, depth, tokens),
        _ => parens(alloc, text, depth, tokens),
    }
}

#[cycle(expr)]
#[tactic(auto, unfolding(spd_syntax::specs::Grammar::primary))]
fn primary<'a>(alloc: Global, text: &[u8], depth: u32, tokens: &'a [Token]) -> Read<'a, Expr>
    ensures { Gives text.now result (reads_at depth primary (all_seen text.now tokens.now)) }
{
    match next(tokens) {
        Some(TokenKind::Name) => name_led(alloc, text, depth, tokens),
        _ => nameless(alloc, text, depth, tokens),
    }
}

#[cycle(expr)]
#[tactic(auto, unfolding(spd_syntax::specs::Grammar::signed))]
fn signed<'a>(alloc: Global, text: &[u8], depth: u32, tokens: &'a [Token]) -> Read<'a, Expr>
    ensures { Gives text.now result (reads_at depth signed (all_seen text.now tokens.now)) }
{
    let (op, rest) = unary_operator(tokens)?;
    let (operand, rest) = primary(alloc, text, depth, rest)?;
    Ok((Expr::Unary(op, Boxed::new(alloc, operand)?), rest))
}

#[cycle(expr)]
#[tactic(auto, unfolding(spd_syntax::specs::Grammar::unary, spd_syntax::specs::Symbols::same_word, spd_syntax::specs::Symbols::same_mark))]
fn unary<'a>(alloc: Global, text: &[u8], depth: u32, tokens: &'a [Token]) -> Read<'a, Expr>
    ensures { Gives text.now result (reads_at depth unary (all_seen text.now tokens.now)) }
{
    match next(tokens) {
        Some(TokenKind::Mark(Mark::Minus | Mark::Not)) => signed(alloc, text, depth, tokens),
        _ => primary(alloc, text, depth, tokens),
    }
}

/// Reads an operand that doesn't begin with a name.
#[tactic(auto, unfolding(spd_syntax::specs::Grammar::nameless_unary, spd_syntax::specs::Symbols::same_word, spd_syntax::specs::Symbols::same_mark))]
fn nameless_unary<'a>(alloc: Global, text: &[u8], depth: u32, tokens: &'a [Token]) -> Read<'a, Expr>
    ensures { Gives text.now result (reads_at depth nameless_unary (all_seen text.now tokens.now)) }
{
    match next(tokens) {
        Some(TokenKind::Mark(Mark::Minus | Mark::Not)) => signed(alloc, text, depth, tokens),
        _ => nameless(alloc, text, depth, tokens),
    }
}

/// Reads an operator of a level with its right operand.
#[cycle(expr)]
#[tactic(auto, unfolding(spd_syntax::specs::Grammar::operation))]
fn operation<'a>(
    alloc: Global,
    text: &[u8],
    depth: u32,
    level: u32,
    left: Expr,
    tokens: &'a [Token],
) -> Read<'a, Expr>
    requires { level < 5 }
    ensures { Gives text.now result
        (step depth into (operation (level + 1) (at_level level)) left (all_seen text.now tokens.now)) }
{
    let left = Boxed::new(alloc, left)?;
    let (op, rest) = operator(tokens, level + 1)?;
    let (right, rest) = at_level(alloc, text, depth, level, rest)?;
    let right = Boxed::new(alloc, right)?;
    Ok((Expr::Binary(op, left, right), rest))
}

/// Reads the operators of a level, with what stands behind them.
#[cycle(expr)]
fn operations<'a>(
    alloc: Global,
    text: &[u8],
    depth: u32,
    level: u32,
    first: Expr,
    tokens: &'a [Token],
) -> Read<'a, Expr>
    requires { level < 5 }
    ensures { Gives text.now result
        (loops depth (operators (level + 1)) into
        (operation (level + 1) (at_level level)) first (all_seen text.now tokens.now)) }
{
    let mut left = first;
    let mut rest = tokens;
    let limit = tokens.len();
    for _ in 0..limit {
        if !next_is_operator(rest, level + 1) {
            return Ok((left, rest));
        }
        let (next, after) = operation(alloc, text, depth, level, left, rest)?;
        left = next;
        rest = after;
    }
    Ok((left, rest))
}

/// Reads what may stand behind an operand, up to the operators above a level.
#[cycle(expr)]
fn grouped<'a>(
    alloc: Global,
    text: &[u8],
    depth: u32,
    level: u32,
    first: Expr,
    tokens: &'a [Token],
) -> Read<'a, Expr>
    requires { level < 5 }
    ensures { Gives text.now result
        (grouped_at (level + 1 == comparisons) depth level first (all_seen text.now tokens.now)) }
{
    let (left, rest) = behind_operand(alloc, text, depth, level, first, tokens)?;
    if level + 1 != COMPARISONS {
        return operations(alloc, text, depth, level, left, rest);
    }
    if !next_is_operator(rest, level + 1) {
        return Ok((left, rest));
    }
    operation(alloc, text, depth, level, left, rest)
}

/// Reads what may stand behind an operand, up to the operators of a level.
#[cycle(expr)]
pub fn behind_operand<'a>(
    alloc: Global,
    text: &[u8],
    depth: u32,
    level: u32,
    first: Expr,
    tokens: &'a [Token],
) -> Read<'a, Expr>
    requires { level ≤ 5 }
    ensures { Gives text.now result
        (applied first (reads_at depth (behind_operand level) (all_seen text.now tokens.now))) }
{
    if level == 0 {
        return Ok((first, tokens));
    }
    grouped(alloc, text, depth, level - 1, first, tokens)
}

/// Reads an operand with the operators behind it, up to those of a level.
#[cycle(expr)]
fn at_level<'a>(
    alloc: Global,
    text: &[u8],
    depth: u32,
    level: u32,
    tokens: &'a [Token],
) -> Read<'a, Expr>
    requires { level ≤ 5 }
    ensures { Gives text.now result (reads_at depth (at_level level) (all_seen text.now tokens.now)) }
{
    let (first, rest) = unary(alloc, text, depth, tokens)?;
    behind_operand(alloc, text, depth, level, first, rest)
}

/// Reads an expression that doesn't begin with a name.
#[tactic(auto, unfolding(spd_syntax::specs::Grammar::nameless_expression))]
pub fn nameless_expression<'a>(
    alloc: Global,
    text: &[u8],
    depth: u32,
    tokens: &'a [Token],
) -> Read<'a, Expr>
    ensures { Gives text.now result (reads_at depth nameless_expression (all_seen text.now tokens.now)) }
{
    let (first, rest) = nameless_unary(alloc, text, depth, tokens)?;
    behind_operand(alloc, text, depth, 5, first, rest)
}

/// Reads an expression, where so many brackets more may be open.
#[cycle(expr)]
#[tactic(auto, unfolding(spd_syntax::specs::Grammar::expression))]
pub fn expression<'a>(alloc: Global, text: &[u8], depth: u32, tokens: &'a [Token]) -> Read<'a, Expr>
    ensures { Gives text.now result (reads_at depth expression (all_seen text.now tokens.now)) }
{
    at_level(alloc, text, depth, 5, tokens)
}
