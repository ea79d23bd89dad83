// Reading what a `let` binds.

ghost use Rattle.std.specs.Prelude.{◌≡◌, ◌∷◌, [], ℕ, List};
ghost use Rattle.spd_syntax.specs.Symbols.{all_seen};
ghost use Rattle.spd_read.specs.Reading.{reads_at, applied, lets};
ghost use Rattle.spd_syntax.specs.Grammar.{let_call, let_named, let_name, let_nameless};
ghost use Rattle.spd_read.specs.Gives.{Gives};

use crate::calls::called;
use spd_read::{Held, Read, behind_name, behind_operand, mark, name, nameless_expression, next_is};
use spd_syntax::{Mark, Name, Stmt, StmtKind, Token};
use std::alloc::Global;

/// Reads the arguments of a call whose value is bound.
#[tactic(auto, unfolding(spd_syntax::specs::Grammar::let_call))]
fn let_call<'a>(
    alloc: Global,
    text: &[u8],
    depth: u32,
    line: u32,
    name: Name,
    callee: Name,
    tokens: &'a [Token],
) -> Read<'a, Stmt>
    ensures { Gives text.now result
        (lets line name (applied callee (reads_at depth let_call (all_seen text.now tokens.now)))) }
{
    let (args, rest) = called(alloc, text, depth, tokens)?;
    let (_, rest) = mark(rest, Mark::Semicolon)?;
    let what = StmtKind::LetCall { name, callee, args };
    Ok((Stmt { line, what }, rest))
}

/// Reads what stands behind the name that an expression begins with.
#[tactic(auto, unfolding(spd_syntax::specs::Grammar::let_named))]
fn let_named<'a>(
    alloc: Global,
    text: &[u8],
    depth: u32,
    line: u32,
    name: Name,
    first: Name,
    tokens: &'a [Token],
) -> Read<'a, Stmt>
    ensures { Gives text.now result
        (lets line name (applied first (reads_at depth let_named (all_seen text.now tokens.now)))) }
{
    let (first, rest) = behind_name(alloc, text, depth, first, tokens)?;
    let (value, rest) = behind_operand(alloc, text, depth, 5, first, rest)?;
    let held = Held { value };
    let (_, rest) = mark(rest, Mark::Semicolon)?;
    let value = held.release();
    let what = StmtKind::Let { name, value };
    Ok((Stmt { line, what }, rest))
}

/// Reads a call, or an expression that begins with a name.
#[tactic(auto, unfolding(spd_syntax::specs::Grammar::let_name))]
pub(crate) fn let_name<'a>(
    alloc: Global,
    text: &[u8],
    depth: u32,
    line: u32,
    name_bound: Name,
    tokens: &'a [Token],
) -> Read<'a, Stmt>
    ensures { Gives text.now result (lets line name_bound (reads_at depth let_name (all_seen text.now tokens.now))) }
{
    let (first, rest) = name(alloc, text, tokens)?;
    if next_is(rest, Mark::LeftParen) {
        return let_call(alloc, text, depth, line, name_bound, first, rest);
    }
    let_named(alloc, text, depth, line, name_bound, first, rest)
}

/// Reads an expression that doesn't begin with a name.
#[tactic(auto, unfolding(spd_syntax::specs::Grammar::let_nameless))]
pub(crate) fn let_nameless<'a>(
    alloc: Global,
    text: &[u8],
    depth: u32,
    line: u32,
    name: Name,
    tokens: &'a [Token],
) -> Read<'a, Stmt>
    ensures { Gives text.now result (lets line name (reads_at depth let_nameless (all_seen text.now tokens.now))) }
{
    let (value, rest) = nameless_expression(alloc, text, depth, tokens)?;
    let held = Held { value };
    let (_, rest) = mark(rest, Mark::Semicolon)?;
    let value = held.release();
    let what = StmtKind::Let { name, value };
    Ok((Stmt { line, what }, rest))
}
