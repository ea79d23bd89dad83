// Printing statements and blocks as their canonical symbols.

ghost use Rattle.std.specs.Prelude.{◌≡◌, [], map, OnOk};
ghost use Rattle.spd_canonical.specs.Canonical as spec;
ghost use Rattle.spd_canonical.specs.Layout.{laid};

use crate::page::Page;
use crate::print_expressions::{put_call, put_expr};
use spd_syntax::{Block, Collect, Expr, Exprs, Mark, Name, Parts, PrintPart, Stmt, StmtKind, Word};
use std::alloc::{AllocError, Global};

fn put_part(alloc: Global, page: &mut Page, part: &PrintPart) -> Result<(), AllocError>
    ensures { OnOk result (page.new ≡ laid page.old (spec.part_symbols part.now)) }
{
    match part {
        PrintPart::Lit(lit) => page.put_lit(alloc, lit.as_slice()),
        PrintPart::Value(value) => put_expr(alloc, page, value),
    }
}

/// Further parts, each behind a comma.
fn put_more_parts(alloc: Global, page: &mut Page, parts: &[PrintPart]) -> Result<(), AllocError>
    ensures { OnOk result (page.new ≡ laid page.old (spec.behind_commas spec.part_symbols parts.now)) }
{
    for part in parts {
        page.put_mark(Mark::Comma)?;
        put_part(alloc, page, part)?;
    }
    Ok(())
}

#[tactic(auto, using(crate::proofs::Pages::laid_append))]
fn put_parts(alloc: Global, page: &mut Page, parts: &Parts) -> Result<(), AllocError>
    ensures { OnOk result (page.new ≡ laid page.old (spec.with_commas spec.part_symbols parts.now)) }
{
    match parts.as_slice() {
        [] => Ok(()),
        [first, rest @ ..] => {
            put_part(alloc, page, first)?;
            put_more_parts(alloc, page, rest)
        }
    }
}

/// What ends with a semicolon: a statement of one word and an expression.
#[tactic(auto, using(crate::proofs::Pages::laid_append))]
fn put_word_value(
    alloc: Global,
    page: &mut Page,
    word: Word,
    value: &Expr,
) -> Result<(), AllocError>
    ensures { OnOk result (page.new ≡ laid page.old (spec.word_value word (spec.expression_symbols value.now))) }
{
    page.put_word(word)?;
    put_expr(alloc, page, value)?;
    page.put_mark(Mark::Semicolon)
}

/// A name that is assigned to, and the mark behind it.
fn put_assigned(page: &mut Page, name: &Name) -> Result<(), AllocError>
    ensures { OnOk result (page.new ≡ laid page.old (spec.assigned name.now [])) }
{
    page.put_name(name.as_slice())?;
    page.put_mark(Mark::Assign)
}

#[tactic(auto, using(crate::proofs::Pages::laid_append))]
fn put_let(alloc: Global, page: &mut Page, name: &Name, value: &Expr) -> Result<(), AllocError>
    ensures { OnOk result (page.new ≡ laid page.old (spec.let_symbols name.now (spec.expression_symbols value.now))) }
{
    page.put_word(Word::Let)?;
    put_assigned(page, name)?;
    put_expr(alloc, page, value)?;
    page.put_mark(Mark::Semicolon)
}

#[tactic(auto, using(crate::proofs::Pages::laid_append))]
fn put_let_call(
    alloc: Global,
    page: &mut Page,
    name: &Name,
    callee: &Name,
    args: &Exprs,
) -> Result<(), AllocError>
    ensures { OnOk result (page.new ≡ laid page.old (spec.let_symbols name.now
        (spec.call_symbols callee.now args.now))) }
{
    page.put_word(Word::Let)?;
    put_assigned(page, name)?;
    put_call(alloc, page, callee, args)?;
    page.put_mark(Mark::Semicolon)
}

fn collecting_word(kind: Collect) -> Word
    ensures { result ≡ spec.collecting_word kind }
{
    match kind {
        Collect::Sum => Word::Sum,
        Collect::Least => Word::Least,
        Collect::Greatest => Word::Greatest,
    }
}

/// A finish with a value, up to its block.
fn put_let_finish_front(page: &mut Page, name: &Name, kind: Collect) -> Result<(), AllocError>
    ensures { OnOk result (page.new ≡ laid page.old (spec.let_finish_front name.now kind)) }
{
    page.put_word(Word::Let)?;
    put_assigned(page, name)?;
    page.put_word(Word::Finish)?;
    page.put_word(collecting_word(kind))
}

#[tactic(auto, using(crate::proofs::Pages::laid_append))]
fn put_assign(alloc: Global, page: &mut Page, name: &Name, value: &Expr) -> Result<(), AllocError>
    ensures { OnOk result (page.new ≡ laid page.old (spec.assign_symbols name.now
        (spec.expression_symbols value.now))) }
{
    put_assigned(page, name)?;
    put_expr(alloc, page, value)?;
    page.put_mark(Mark::Semicolon)
}

/// A condition, up to its blocks.
fn put_if_front(alloc: Global, page: &mut Page, cond: &Expr) -> Result<(), AllocError>
    ensures { OnOk result (page.new ≡ laid page.old (spec.if_front (spec.expression_symbols cond.now))) }
{
    page.put_word(Word::If)?;
    put_expr(alloc, page, cond)
}

/// A loop, up to its block.
#[tactic(auto, using(crate::proofs::Pages::laid_append))]
fn put_for_front(
    alloc: Global,
    page: &mut Page,
    name: &Name,
    from: &Expr,
    to: &Expr,
) -> Result<(), AllocError>
    ensures { OnOk result (page.new ≡ laid page.old (spec.for_front name.now (spec.expression_symbols from.now)
        (spec.expression_symbols to.now))) }
{
    page.put_word(Word::For)?;
    page.put_name(name.as_slice())?;
    page.put_word(Word::In)?;
    put_expr(alloc, page, from)?;
    page.put_mark(Mark::DotDot)?;
    put_expr(alloc, page, to)
}

#[tactic(auto, using(crate::proofs::Pages::laid_append))]
fn put_run(alloc: Global, page: &mut Page, callee: &Name, args: &Exprs) -> Result<(), AllocError>
    ensures { OnOk result (page.new ≡ laid page.old (spec.run_symbols callee.now args.now)) }
{
    page.put_word(Word::Run)?;
    put_call(alloc, page, callee, args)?;
    page.put_mark(Mark::Semicolon)
}

#[tactic(auto, using(crate::proofs::Pages::laid_append))]
fn put_print(alloc: Global, page: &mut Page, parts: &Parts) -> Result<(), AllocError>
    ensures { OnOk result (page.new ≡ laid page.old (spec.print_symbols parts.now)) }
{
    page.put_word(Word::Print)?;
    put_parts(alloc, page, parts)?;
    page.put_mark(Mark::Semicolon)
}

/// What a statement does. It calls itself once for each block that stands inside another.
#[cycle(block)]
#[tactic(auto, unfolding(crate::specs::Canonical::kind_symbols, crate::specs::Canonical::statement_symbols))]
fn put_kind(alloc: Global, page: &mut Page, what: &StmtKind) -> Result<(), AllocError>
    ensures { OnOk result (page.new ≡ laid page.old (spec.kind_symbols what.now)) }
{
    match what {
        StmtKind::Let { name, value } => put_let(alloc, page, name, value),
        StmtKind::LetCall { name, callee, args } => put_let_call(alloc, page, name, callee, args),
        StmtKind::LetFinish { name, kind, body } => {
            put_let_finish_front(page, name, *kind)?;
            put_block(alloc, page, body)
        }
        StmtKind::Assign { name, value } => put_assign(alloc, page, name, value),
        StmtKind::If { cond, yes, no } => {
            put_if_front(alloc, page, cond)?;
            put_block(alloc, page, yes)?;
            put_else(alloc, page, no)
        }
        StmtKind::For {
            name,
            from,
            to,
            body,
        } => {
            put_for_front(alloc, page, name, from, to)?;
            put_block(alloc, page, body)
        }
        StmtKind::Async { body } => {
            page.put_word(Word::Async)?;
            put_block(alloc, page, body)
        }
        StmtKind::Finish { body } => {
            page.put_word(Word::Finish)?;
            put_block(alloc, page, body)
        }
        StmtKind::Offer { value } => put_word_value(alloc, page, Word::Offer, value),
        StmtKind::Run { callee, args } => put_run(alloc, page, callee, args),
        StmtKind::Return { value } => put_word_value(alloc, page, Word::Return, value),
        StmtKind::Print { parts } => put_print(alloc, page, parts),
    }
}

/// The block behind `else`, or nothing where it is empty.
#[cycle(block)]
fn put_else(alloc: Global, page: &mut Page, body: &Block) -> Result<(), AllocError>
    ensures { OnOk result (page.new ≡ laid page.old (spec.else_symbols (map spec.statement_symbols body.now))) }
{
    if body.is_empty() {
        return Ok(());
    }
    page.put_word(Word::Else)?;
    put_block(alloc, page, body)
}

/// Statements between braces.
#[cycle(block)]
#[tactic(auto, using(crate::proofs::Pages::laid_append))]
pub(crate) fn put_block(alloc: Global, page: &mut Page, body: &Block) -> Result<(), AllocError>
    ensures { OnOk result (page.new ≡ laid page.old (spec.block_symbols body.now)) }
{
    page.put_mark(Mark::LeftBrace)?;
    for stmt in body.as_slice() {
        put_stmt(alloc, page, stmt)?;
    }
    page.put_mark(Mark::RightBrace)
}

#[cycle(block)]
#[tactic(auto, unfolding(crate::specs::Canonical::kind_symbols, crate::specs::Canonical::statement_symbols))]
fn put_stmt(alloc: Global, page: &mut Page, stmt: &Stmt) -> Result<(), AllocError>
    ensures { OnOk result (page.new ≡ laid page.old (spec.statement_symbols stmt.now)) }
{
    put_kind(alloc, page, &stmt.what)
}
