// Reading statements and blocks.

ghost use Rattle.std.specs.Prelude.{◌≡◌, ◌∷◌, [], ◌++◌, ℕ, List};
ghost use Rattle.spd_syntax.specs.Symbols.{all_seen};
ghost use Rattle.spd_read.specs.Reading.{next_in, reads_at, lets, step, loops};
ghost use Rattle.spd_syntax.specs.Shapes.{snoc};
ghost use Rattle.spd_syntax.specs.Grammar.{collect_kind, let_finish, let_value, let_statement, assign_statement, offer_statement, return_statement, block, otherwise, if_statement, for_statement, async_statement, finish_statement, statement, a_statement, statements, body};
ghost use Rattle.spd_read.specs.Gives.{Gives};

use crate::calls::run_statement;
use crate::lets::{let_name, let_nameless};
use crate::printing::print_statement;
use spd_read::{
    Held, Read, ReadError, StopKind, deeper, expression, mark, name, name_and_line, next, word,
};
use spd_syntax::{Block, Collect, Mark, Name, Stmt, StmtKind, Token, TokenKind, Word};
use std::alloc::Global;

/// Reads the word for what a finish makes of its offers.
#[tactic(auto, unfolding(spd_syntax::specs::Grammar::collect_kind, spd_syntax::specs::Symbols::same_word))]
fn collect_kind<'a>(tokens: &'a [Token]) -> Read<'a, Collect>
    ensures { (text : List ℕ) (depth : ℕ) → Gives text result
        (reads_at depth collect_kind (all_seen text tokens.now)) }
{
    match tokens {
        [token, rest @ ..] => match token.kind {
            TokenKind::Word(Word::Sum) => Ok((Collect::Sum, rest)),
            TokenKind::Word(Word::Least) => Ok((Collect::Least, rest)),
            TokenKind::Word(Word::Greatest) => Ok((Collect::Greatest, rest)),
            _ => Err(ReadError::Fault(StopKind::Expected, tokens)),
        },
        [] => Err(ReadError::Fault(StopKind::Expected, tokens)),
    }
}

#[cycle(block)]
#[tactic(auto, unfolding(spd_syntax::specs::Grammar::let_finish))]
fn let_finish<'a>(
    alloc: Global,
    text: &[u8],
    depth: u32,
    line: u32,
    name: Name,
    tokens: &'a [Token],
) -> Read<'a, Stmt>
    ensures { Gives text.now result (lets line name (reads_at depth let_finish (all_seen text.now tokens.now))) }
{
    let (_, rest) = word(tokens, Word::Finish)?;
    let (kind, rest) = collect_kind(rest)?;
    let (body, rest) = block(alloc, text, depth, rest)?;
    let what = StmtKind::LetFinish { name, kind, body };
    Ok((Stmt { line, what }, rest))
}

/// Reads what stands behind `let name =`.
#[cycle(block)]
#[tactic(auto, unfolding(spd_syntax::specs::Grammar::let_value, spd_syntax::specs::Symbols::same_word))]
fn let_value<'a>(
    alloc: Global,
    text: &[u8],
    depth: u32,
    line: u32,
    name: Name,
    tokens: &'a [Token],
) -> Read<'a, Stmt>
    ensures { Gives text.now result (lets line name (reads_at depth let_value (all_seen text.now tokens.now))) }
{
    match next(tokens) {
        Some(TokenKind::Word(Word::Finish)) => let_finish(alloc, text, depth, line, name, tokens),
        Some(TokenKind::Name) => let_name(alloc, text, depth, line, name, tokens),
        _ => let_nameless(alloc, text, depth, line, name, tokens),
    }
}

#[cycle(block)]
#[tactic(auto, unfolding(spd_syntax::specs::Grammar::let_statement))]
fn let_statement<'a>(alloc: Global, text: &[u8], depth: u32, tokens: &'a [Token]) -> Read<'a, Stmt>
    ensures { Gives text.now result (reads_at depth let_statement (all_seen text.now tokens.now)) }
{
    let (line, rest) = word(tokens, Word::Let)?;
    let (name, rest) = name(alloc, text, rest)?;
    let (_, rest) = mark(rest, Mark::Assign)?;
    let_value(alloc, text, depth, line, name, rest)
}

#[tactic(auto, unfolding(spd_syntax::specs::Grammar::assign_statement))]
fn assign_statement<'a>(
    alloc: Global,
    text: &[u8],
    depth: u32,
    tokens: &'a [Token],
) -> Read<'a, Stmt>
    ensures { Gives text.now result (reads_at depth assign_statement (all_seen text.now tokens.now)) }
{
    let ((name, line), rest) = name_and_line(alloc, text, tokens)?;
    let (_, rest) = mark(rest, Mark::Assign)?;
    let (value, rest) = expression(alloc, text, depth, rest)?;
    let held = Held { value };
    let (_, rest) = mark(rest, Mark::Semicolon)?;
    let value = held.release();
    let what = StmtKind::Assign { name, value };
    Ok((Stmt { line, what }, rest))
}

#[tactic(auto, unfolding(spd_syntax::specs::Grammar::return_statement))]
fn return_statement<'a>(
    alloc: Global,
    text: &[u8],
    depth: u32,
    tokens: &'a [Token],
) -> Read<'a, Stmt>
    ensures { Gives text.now result (reads_at depth return_statement (all_seen text.now tokens.now)) }
{
    let (line, rest) = word(tokens, Word::Return)?;
    let (value, rest) = expression(alloc, text, depth, rest)?;
    let held = Held { value };
    let (_, rest) = mark(rest, Mark::Semicolon)?;
    let value = held.release();
    let what = StmtKind::Return { value };
    Ok((Stmt { line, what }, rest))
}

#[tactic(auto, unfolding(spd_syntax::specs::Grammar::offer_statement))]
fn offer_statement<'a>(
    alloc: Global,
    text: &[u8],
    depth: u32,
    tokens: &'a [Token],
) -> Read<'a, Stmt>
    ensures { Gives text.now result (reads_at depth offer_statement (all_seen text.now tokens.now)) }
{
    let (line, rest) = word(tokens, Word::Offer)?;
    let (value, rest) = expression(alloc, text, depth, rest)?;
    let held = Held { value };
    let (_, rest) = mark(rest, Mark::Semicolon)?;
    let value = held.release();
    let what = StmtKind::Offer { value };
    Ok((Stmt { line, what }, rest))
}

#[cycle(block)]
#[tactic(auto, unfolding(spd_syntax::specs::Grammar::async_statement))]
fn async_statement<'a>(
    alloc: Global,
    text: &[u8],
    depth: u32,
    tokens: &'a [Token],
) -> Read<'a, Stmt>
    ensures { Gives text.now result (reads_at depth async_statement (all_seen text.now tokens.now)) }
{
    let (line, rest) = word(tokens, Word::Async)?;
    let (body, rest) = block(alloc, text, depth, rest)?;
    let what = StmtKind::Async { body };
    Ok((Stmt { line, what }, rest))
}

#[cycle(block)]
#[tactic(auto, unfolding(spd_syntax::specs::Grammar::finish_statement))]
fn finish_statement<'a>(
    alloc: Global,
    text: &[u8],
    depth: u32,
    tokens: &'a [Token],
) -> Read<'a, Stmt>
    ensures { Gives text.now result (reads_at depth finish_statement (all_seen text.now tokens.now)) }
{
    let (line, rest) = word(tokens, Word::Finish)?;
    let (body, rest) = block(alloc, text, depth, rest)?;
    let what = StmtKind::Finish { body };
    Ok((Stmt { line, what }, rest))
}

#[cycle(block)]
#[tactic(auto, unfolding(spd_syntax::specs::Grammar::for_statement))]
fn for_statement<'a>(alloc: Global, text: &[u8], depth: u32, tokens: &'a [Token]) -> Read<'a, Stmt>
    ensures { Gives text.now result (reads_at depth for_statement (all_seen text.now tokens.now)) }
{
    let (line, rest) = word(tokens, Word::For)?;
    let (name, rest) = name(alloc, text, rest)?;
    let (_, rest) = word(rest, Word::In)?;
    let (from, rest) = expression(alloc, text, depth, rest)?;
    let from = Held { value: from };
    let (_, rest) = mark(rest, Mark::DotDot)?;
    let (to, rest) = expression(alloc, text, depth, rest)?;
    let to = Held { value: to };
    let (body, rest) = block(alloc, text, depth, rest)?;
    let what = StmtKind::For {
        name,
        from: from.release(),
        to: to.release(),
        body,
    };
    Ok((Stmt { line, what }, rest))
}

#[cycle(block)]
#[tactic(auto, unfolding(spd_syntax::specs::Grammar::otherwise, spd_syntax::specs::Symbols::same_word))]
fn otherwise<'a>(alloc: Global, text: &[u8], depth: u32, tokens: &'a [Token]) -> Read<'a, Block>
    ensures { Gives text.now result (reads_at depth otherwise (all_seen text.now tokens.now)) }
{
    match next(tokens) {
        Some(TokenKind::Word(Word::Else)) => {
            let (_, rest) = word(tokens, Word::Else)?;
            block(alloc, text, depth, rest)
        }
        _ => Ok((Block::new(alloc), tokens)),
    }
}

#[cycle(block)]
#[tactic(auto, unfolding(spd_syntax::specs::Grammar::if_statement))]
fn if_statement<'a>(alloc: Global, text: &[u8], depth: u32, tokens: &'a [Token]) -> Read<'a, Stmt>
    ensures { Gives text.now result (reads_at depth if_statement (all_seen text.now tokens.now)) }
{
    let (line, rest) = word(tokens, Word::If)?;
    let (cond, rest) = expression(alloc, text, depth, rest)?;
    let cond = Held { value: cond };
    let (yes, rest) = block(alloc, text, depth, rest)?;
    let (no, rest) = otherwise(alloc, text, depth, rest)?;
    let cond = cond.release();
    let what = StmtKind::If { cond, yes, no };
    Ok((Stmt { line, what }, rest))
}

#[cycle(block)]
#[tactic(auto, unfolding(spd_syntax::specs::Grammar::statement, spd_syntax::specs::Symbols::same_word))]
fn statement<'a>(alloc: Global, text: &[u8], depth: u32, tokens: &'a [Token]) -> Read<'a, Stmt>
    ensures { Gives text.now result (reads_at depth statement (all_seen text.now tokens.now)) }
{
    match next(tokens) {
        Some(TokenKind::Word(Word::Let)) => let_statement(alloc, text, depth, tokens),
        Some(TokenKind::Name) => assign_statement(alloc, text, depth, tokens),
        Some(TokenKind::Word(Word::If)) => if_statement(alloc, text, depth, tokens),
        Some(TokenKind::Word(Word::For)) => for_statement(alloc, text, depth, tokens),
        Some(TokenKind::Word(Word::Async)) => async_statement(alloc, text, depth, tokens),
        Some(TokenKind::Word(Word::Finish)) => finish_statement(alloc, text, depth, tokens),
        Some(TokenKind::Word(Word::Offer)) => offer_statement(alloc, text, depth, tokens),
        Some(TokenKind::Word(Word::Run)) => run_statement(alloc, text, depth, tokens),
        Some(TokenKind::Word(Word::Return)) => return_statement(alloc, text, depth, tokens),
        _ => print_statement(alloc, text, depth, tokens),
    }
}

/// Whether a statement stands next.
#[tactic(auto, unfolding(spd_syntax::specs::Symbols::same_word))]
fn next_is_statement(tokens: &[Token]) -> bool
    ensures { (text : List ℕ) → result ≡ next_in a_statement (all_seen text tokens.now) }
{
    match next(tokens) {
        Some(TokenKind::Name) => true,
        Some(TokenKind::Word(word)) => matches!(
            word,
            Word::Let
                | Word::If
                | Word::For
                | Word::Async
                | Word::Finish
                | Word::Offer
                | Word::Run
                | Word::Return
                | Word::Print
        ),
        _ => false,
    }
}

/// Reads a statement, and adds it to those that were found.
#[cycle(block)]
fn next_statement<'a>(
    alloc: Global,
    text: &[u8],
    depth: u32,
    found: Block,
    tokens: &'a [Token],
) -> Read<'a, Block>
    ensures { Gives text.now result (step depth snoc statement found (all_seen text.now tokens.now)) }
{
    let mut found = found;
    let (statement, rest) = statement(alloc, text, depth, tokens)?;
    found.push(statement)?;
    Ok((found, rest))
}

#[cycle(block)]
fn more_statements<'a>(
    alloc: Global,
    text: &[u8],
    depth: u32,
    tokens: &'a [Token],
) -> Read<'a, Block>
    ensures { Gives text.now result (loops depth a_statement snoc statement [] (all_seen text.now tokens.now)) }
{
    let mut found = Block::new(alloc);
    let mut rest = tokens;
    let limit = tokens.len();
    for _ in 0..limit {
        if !next_is_statement(rest) {
            return Ok((found, rest));
        }
        let (next, after) = next_statement(alloc, text, depth, found, rest)?;
        found = next;
        rest = after;
    }
    Ok((found, rest))
}

#[cycle(block)]
#[tactic(auto, unfolding(spd_syntax::specs::Grammar::statements))]
pub(crate) fn statements<'a>(
    alloc: Global,
    text: &[u8],
    depth: u32,
    tokens: &'a [Token],
) -> Read<'a, Block>
    ensures { Gives text.now result (reads_at depth statements (all_seen text.now tokens.now)) }
{
    more_statements(alloc, text, depth, tokens)
}

#[cycle(block)]
fn block<'a>(alloc: Global, text: &[u8], depth: u32, tokens: &'a [Token]) -> Read<'a, Block>
    ensures { Gives text.now result (reads_at depth block (all_seen text.now tokens.now)) }
{
    let (_, rest) = mark(tokens, Mark::LeftBrace)?;
    let depth = deeper(depth, tokens)?;
    let (found, rest) = statements(alloc, text, depth, rest)?;
    let (_, rest) = mark(rest, Mark::RightBrace)?;
    Ok((found, rest))
}

/// Reads a block, with the line of its last token.
pub(crate) fn body<'a>(
    alloc: Global,
    text: &[u8],
    depth: u32,
    tokens: &'a [Token],
) -> Read<'a, (Block, u32)>
    ensures { Gives text.now result (reads_at depth body (all_seen text.now tokens.now)) }
{
    let (_, rest) = mark(tokens, Mark::LeftBrace)?;
    let inner = deeper(depth, tokens)?;
    let (found, rest) = statements(alloc, text, inner, rest)?;
    let (line, rest) = mark(rest, Mark::RightBrace)?;
    Ok(((found, line), rest))
}
