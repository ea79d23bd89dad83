// Printing a program as its canonical text, in one pass over its tree.

ghost use Rattle.std.specs.Prelude.{◌≡◌, ℕ, List, IfOk, OnOk};
ghost use Rattle.spd_canonical.specs.Canonical as spec;
ghost use Rattle.spd_canonical.specs.Layout.{laid, canonical_text};
ghost use Rattle.spd_canonical.specs.Texts.{IsTextOf, IsTextAgain};

use crate::page::Page;
use crate::print_statements::put_block;
use spd_syntax::{Block, ItemKind, Lit, Mark, Name, Names, Program, Word};
use std::alloc::{AllocError, Global};

/// Further names, each behind a comma.
fn put_more_names(page: &mut Page, names: &[Name]) -> Result<(), AllocError>
    ensures { OnOk result (page.new ≡ laid page.old (spec.behind_commas spec.name_symbols names.now)) }
{
    for name in names {
        page.put_mark(Mark::Comma)?;
        page.put_name(name.as_slice())?;
    }
    Ok(())
}

fn put_names(page: &mut Page, names: &Names) -> Result<(), AllocError>
    ensures { OnOk result (page.new ≡ laid page.old (spec.with_commas spec.name_symbols names.now)) }
{
    match names.as_slice() {
        [] => Ok(()),
        [first, rest @ ..] => {
            page.put_name(first.as_slice())?;
            put_more_names(page, rest)
        }
    }
}

/// A column of such entries.
fn put_column(
    alloc: Global,
    page: &mut Page,
    holds: Word,
    name: &Name,
    file: &Lit,
    field: &Lit,
) -> Result<(), AllocError>
    ensures { OnOk result (page.new ≡ laid page.old (spec.column_symbols holds name.now file.now field.now)) }
{
    page.put_word(Word::Column)?;
    page.put_name(name.as_slice())?;
    page.put_mark(Mark::Colon)?;
    page.put_word(holds)?;
    page.put_word(Word::From)?;
    page.put_lit(alloc, file.as_slice())?;
    page.put_word(Word::Field)?;
    page.put_lit(alloc, field.as_slice())?;
    page.put_mark(Mark::Semicolon)
}

fn put_lines(alloc: Global, page: &mut Page, name: &Name, file: &Lit) -> Result<(), AllocError>
    ensures { OnOk result (page.new ≡ laid page.old (spec.lines_symbols name.now file.now)) }
{
    page.put_word(Word::Lines)?;
    page.put_name(name.as_slice())?;
    page.put_word(Word::From)?;
    page.put_lit(alloc, file.as_slice())?;
    page.put_mark(Mark::Semicolon)
}

/// A function or a task.
#[tactic(auto, using(crate::proofs::Pages::laid_append))]
fn put_callable(
    alloc: Global,
    page: &mut Page,
    word: Word,
    name: &Name,
    params: &Names,
    body: &Block,
) -> Result<(), AllocError>
    ensures { OnOk result (page.new ≡ laid page.old (spec.callable_symbols word name.now params.now body.now)) }
{
    page.put_word(word)?;
    page.put_name(name.as_slice())?;
    page.put_mark(Mark::LeftParen)?;
    put_names(page, params)?;
    page.put_mark(Mark::RightParen)?;
    put_block(alloc, page, body)
}

fn put_item(alloc: Global, page: &mut Page, what: &ItemKind) -> Result<(), AllocError>
    ensures { OnOk result (page.new ≡ laid page.old (spec.item_symbols what.now)) }
{
    match what {
        ItemKind::IntColumn { name, file, field } => {
            put_column(alloc, page, Word::Int, name, file, field)
        }
        ItemKind::TextColumn { name, file, field } => {
            put_column(alloc, page, Word::Text, name, file, field)
        }
        ItemKind::Lines { name, file } => put_lines(alloc, page, name, file),
        ItemKind::Function { name, params, body } => {
            put_callable(alloc, page, Word::Fn, name, params, body)
        }
        ItemKind::Task { name, params, body } => {
            put_callable(alloc, page, Word::Task, name, params, body)
        }
        ItemKind::Main { body } => {
            page.put_word(Word::Main)?;
            put_block(alloc, page, body)
        }
    }
}

/// A program, item by item.
#[tactic(auto, unfolding(crate::specs::Layout::layout))]
fn printed(alloc: Global, program: &Program) -> Result<Vec<u8>, AllocError>
    ensures { IfOk result (λ text. text.items ≡ canonical_text program.now) }
{
    let mut page = Page::new(alloc);
    for item in program.items.as_slice() {
        put_item(alloc, &mut page, &item.what)?;
    }
    page.into_text()
}

/// The canonical text of a program: each statement on a line of its own, indented by its blocks, and
/// parentheses only where they are needed. A program that was read from a text is read from its
/// canonical text again, but for its lines.
///
/// It calls itself once for each block, bracket and operator that stand inside another: at most 32
/// brackets and 1,000 operators in a program that was read.
pub fn print_program(alloc: Global, program: &Program) -> Result<Vec<u8>, AllocError>
    ensures text { IfOk result (λ text. text.items ≡ canonical_text program.now) }
    ensures again { IfOk result (λ text. (source : List ℕ) → IsTextOf source program.now
        → IsTextAgain program.now text.items) }
{
    let text = printed(alloc, program)?;
    Ok(text)
}
