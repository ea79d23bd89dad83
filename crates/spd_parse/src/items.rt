// Reading items and programs.

ghost use Rattle.std.specs.Prelude.{◌≡◌, ◌∷◌, [], ℕ, List, IfOk};
ghost use Rattle.spd_syntax.specs.Symbols.{all_seen};
ghost use Rattle.spd_read.specs.Reading.{next_in, reads_at, step, loops};
ghost use Rattle.spd_syntax.specs.Shapes.{after_mark, snoc, a_mark, name as name_shape};
ghost use Rattle.spd_syntax.specs.Grammar.{parameters, between_params, column_type, column_item, lines_item, function_item, task_item, main_item, any_item, an_item, with_item, program};
ghost use Rattle.spd_read.specs.Gives.{Gives};
ghost use Rattle.spd_parse.specs.Gives.{GivesMade, column_of};
ghost use Rattle.spd_syntax.specs.declared.token.Mark.TheVariants.{Comma};

use crate::statements::body;
use spd_read::{Read, ReadError, StopKind, deeper, lit, mark, name, next, next_is, word};
use spd_syntax::{Item, ItemKind, Items, Lit, Mark, Name, Names, Program, Token, TokenKind, Word};
use std::alloc::Global;

/// Reads a comma and a name, which it adds to those that were found.
fn next_name<'a>(alloc: Global, text: &[u8], found: Names, tokens: &'a [Token]) -> Read<'a, Names>
    ensures { (depth : ℕ) → Gives text.now result
        (step depth snoc (after_mark Comma name_shape) found (all_seen text.now tokens.now)) }
{
    let mut found = found;
    let (_, rest) = mark(tokens, Mark::Comma)?;
    let (name, rest) = name(alloc, text, rest)?;
    found.push(name)?;
    Ok((found, rest))
}

/// Reads the names behind the first one.
fn more_names<'a>(alloc: Global, text: &[u8], first: Name, tokens: &'a [Token]) -> Read<'a, Names>
    ensures { Gives text.now result
        (loops 0 (a_mark Comma) snoc (after_mark Comma name_shape) (first ∷ []) (all_seen text.now tokens.now)) }
{
    let mut found = Names::new(alloc);
    found.push(first)?;
    let mut rest = tokens;
    let limit = tokens.len();
    for _ in 0..limit {
        if !next_is(rest, Mark::Comma) {
            return Ok((found, rest));
        }
        let (next, after) = next_name(alloc, text, found, rest)?;
        found = next;
        rest = after;
    }
    Ok((found, rest))
}

#[tactic(auto, unfolding(spd_syntax::specs::Grammar::parameters))]
fn parameters<'a>(alloc: Global, text: &[u8], tokens: &'a [Token]) -> Read<'a, Names>
    ensures { (depth : ℕ) → Gives text.now result (reads_at depth parameters (all_seen text.now tokens.now)) }
{
    match next(tokens) {
        Some(TokenKind::Name) => {
            let (first, rest) = name(alloc, text, tokens)?;
            more_names(alloc, text, first, rest)
        }
        _ => Ok((Names::new(alloc), tokens)),
    }
}

fn between_params<'a>(
    alloc: Global,
    text: &[u8],
    depth: u32,
    tokens: &'a [Token],
) -> Read<'a, Names>
    ensures { Gives text.now result (reads_at depth between_params (all_seen text.now tokens.now)) }
{
    let (_, rest) = mark(tokens, Mark::LeftParen)?;
    let _ = deeper(depth, tokens)?;
    let (found, rest) = parameters(alloc, text, rest)?;
    let (_, rest) = mark(rest, Mark::RightParen)?;
    Ok((found, rest))
}

/// What a column holds.
#[derive(Clone, Copy, Debug, PartialEq, Eq)]
pub(crate) enum ColumnType {
    Int,
    Text,
}

#[tactic(auto, unfolding(spd_syntax::specs::Grammar::column_type, spd_syntax::specs::Symbols::same_word))]
fn column_type<'a>(tokens: &'a [Token]) -> Read<'a, ColumnType>
    ensures { (text : List ℕ) (depth : ℕ)
        → GivesMade column_of text result (reads_at depth column_type (all_seen text tokens.now)) }
{
    match tokens {
        [token, rest @ ..] => match token.kind {
            TokenKind::Word(Word::Int) => Ok((ColumnType::Int, rest)),
            TokenKind::Word(Word::Text) => Ok((ColumnType::Text, rest)),
            _ => Err(ReadError::Fault(StopKind::Expected, tokens)),
        },
        [] => Err(ReadError::Fault(StopKind::Expected, tokens)),
    }
}

/// The item of a column of a type.
fn column(holds: ColumnType, name: Name, file: Lit, field: Lit) -> ItemKind
    ensures { result ≡ column_of holds name file field }
{
    match holds {
        ColumnType::Int => ItemKind::IntColumn { name, file, field },
        ColumnType::Text => ItemKind::TextColumn { name, file, field },
    }
}

#[tactic(auto, unfolding(spd_syntax::specs::Grammar::column_item))]
fn column_item<'a>(alloc: Global, text: &[u8], tokens: &'a [Token]) -> Read<'a, (Item, u32)>
    ensures { (depth : ℕ) → Gives text.now result (reads_at depth column_item (all_seen text.now tokens.now)) }
{
    let (line, rest) = word(tokens, Word::Column)?;
    let (name, rest) = name(alloc, text, rest)?;
    let (_, rest) = mark(rest, Mark::Colon)?;
    let (holds, rest) = column_type(rest)?;
    let (_, rest) = word(rest, Word::From)?;
    let (file, rest) = lit(alloc, text, rest)?;
    let (_, rest) = word(rest, Word::Field)?;
    let (field, rest) = lit(alloc, text, rest)?;
    let (last, rest) = mark(rest, Mark::Semicolon)?;
    let what = column(holds, name, file, field);
    Ok(((Item { line, what }, last), rest))
}

#[tactic(auto, unfolding(spd_syntax::specs::Grammar::lines_item))]
fn lines_item<'a>(alloc: Global, text: &[u8], tokens: &'a [Token]) -> Read<'a, (Item, u32)>
    ensures { (depth : ℕ) → Gives text.now result (reads_at depth lines_item (all_seen text.now tokens.now)) }
{
    let (line, rest) = word(tokens, Word::Lines)?;
    let (name, rest) = name(alloc, text, rest)?;
    let (_, rest) = word(rest, Word::From)?;
    let (file, rest) = lit(alloc, text, rest)?;
    let (last, rest) = mark(rest, Mark::Semicolon)?;
    let what = ItemKind::Lines { name, file };
    Ok(((Item { line, what }, last), rest))
}

#[tactic(auto, unfolding(spd_syntax::specs::Grammar::function_item))]
fn function_item<'a>(
    alloc: Global,
    text: &[u8],
    depth: u32,
    tokens: &'a [Token],
) -> Read<'a, (Item, u32)>
    ensures { Gives text.now result (reads_at depth function_item (all_seen text.now tokens.now)) }
{
    let (line, rest) = word(tokens, Word::Fn)?;
    let (name, rest) = name(alloc, text, rest)?;
    let (params, rest) = between_params(alloc, text, depth, rest)?;
    let ((body, last), rest) = body(alloc, text, depth, rest)?;
    let what = ItemKind::Function { name, params, body };
    Ok(((Item { line, what }, last), rest))
}

#[tactic(auto, unfolding(spd_syntax::specs::Grammar::task_item))]
fn task_item<'a>(
    alloc: Global,
    text: &[u8],
    depth: u32,
    tokens: &'a [Token],
) -> Read<'a, (Item, u32)>
    ensures { Gives text.now result (reads_at depth task_item (all_seen text.now tokens.now)) }
{
    let (line, rest) = word(tokens, Word::Task)?;
    let (name, rest) = name(alloc, text, rest)?;
    let (params, rest) = between_params(alloc, text, depth, rest)?;
    let ((body, last), rest) = body(alloc, text, depth, rest)?;
    let what = ItemKind::Task { name, params, body };
    Ok(((Item { line, what }, last), rest))
}

#[tactic(auto, unfolding(spd_syntax::specs::Grammar::main_item))]
fn main_item<'a>(
    alloc: Global,
    text: &[u8],
    depth: u32,
    tokens: &'a [Token],
) -> Read<'a, (Item, u32)>
    ensures { Gives text.now result (reads_at depth main_item (all_seen text.now tokens.now)) }
{
    let (line, rest) = word(tokens, Word::Main)?;
    let ((body, last), rest) = body(alloc, text, depth, rest)?;
    let what = ItemKind::Main { body };
    Ok(((Item { line, what }, last), rest))
}

#[tactic(auto, unfolding(spd_syntax::specs::Grammar::any_item, spd_syntax::specs::Symbols::same_word))]
fn any_item<'a>(
    alloc: Global,
    text: &[u8],
    depth: u32,
    tokens: &'a [Token],
) -> Read<'a, (Item, u32)>
    ensures { Gives text.now result (reads_at depth any_item (all_seen text.now tokens.now)) }
{
    match next(tokens) {
        Some(TokenKind::Word(Word::Column)) => column_item(alloc, text, tokens),
        Some(TokenKind::Word(Word::Lines)) => lines_item(alloc, text, tokens),
        Some(TokenKind::Word(Word::Fn)) => function_item(alloc, text, depth, tokens),
        Some(TokenKind::Word(Word::Task)) => task_item(alloc, text, depth, tokens),
        _ => main_item(alloc, text, depth, tokens),
    }
}

/// Whether an item stands next.
#[tactic(auto, unfolding(spd_syntax::specs::Symbols::same_word))]
fn next_is_item(tokens: &[Token]) -> bool
    ensures { (text : List ℕ) → result ≡ next_in an_item (all_seen text tokens.now) }
{
    match next(tokens) {
        Some(TokenKind::Word(word)) => matches!(
            word,
            Word::Column | Word::Lines | Word::Fn | Word::Task | Word::Main
        ),
        _ => false,
    }
}

/// Reads an item, and adds it to those that were found.
fn next_item<'a>(
    alloc: Global,
    text: &[u8],
    depth: u32,
    found: Program,
    tokens: &'a [Token],
) -> Read<'a, Program>
    ensures { Gives text.now result (step depth with_item any_item found (all_seen text.now tokens.now)) }
{
    let ((item, last_line), rest) = any_item(alloc, text, depth, tokens)?;
    let mut items = found.items;
    items.push(item)?;
    Ok((Program { items, last_line }, rest))
}

fn more_items<'a>(
    alloc: Global,
    text: &[u8],
    depth: u32,
    first: Program,
    tokens: &'a [Token],
) -> Read<'a, Program>
    ensures { Gives text.now result (loops depth an_item with_item any_item first (all_seen text.now tokens.now)) }
{
    let mut found = first;
    let mut rest = tokens;
    let limit = tokens.len();
    for _ in 0..limit {
        if !next_is_item(rest) {
            return Ok((found, rest));
        }
        let (next, after) = next_item(alloc, text, depth, found, rest)?;
        found = next;
        rest = after;
    }
    Ok((found, rest))
}

#[tactic(auto, unfolding(spd_syntax::specs::Grammar::program))]
pub(crate) fn program<'a>(
    alloc: Global,
    text: &[u8],
    depth: u32,
    tokens: &'a [Token],
) -> Read<'a, Program>
    ensures { Gives text.now result (reads_at depth program (all_seen text.now tokens.now)) }
{
    let items = Items::new(alloc);
    let none = Program {
        items,
        last_line: 1,
    };
    more_items(alloc, text, depth, none, tokens)
}
