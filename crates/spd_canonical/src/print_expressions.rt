// Printing expressions as their canonical symbols.

ghost use Rattle.std.specs.Prelude.{◌≡◌, ◌≤◌, OnOk};
ghost use Rattle.spd_syntax.specs.declared.token.Word.TheVariants.{Len};
ghost use Rattle.spd_canonical.specs.Canonical as spec;
ghost use Rattle.spd_canonical.specs.Layout.{laid};

use crate::page::Page;
use spd_syntax::{BinOp, Expr, Exprs, Lit, Mark, Name, UnOp, Word, row_of};
use std::alloc::{AllocError, Global};

/// The level of an operator, of which a lower one binds more tightly.
fn binary_level(op: BinOp) -> u32
    ensures value { result ≡ spec.binary_level op }
    ensures bound { result ≤ 5 }
{
    row_of(op).1
}

fn unary_mark(op: UnOp) -> Mark
    ensures { result ≡ spec.unary_mark op }
{
    match op {
        UnOp::Neg => Mark::Minus,
        UnOp::Not => Mark::Not,
    }
}

/// How loose an operand may be left of an operator of a level.
fn left_of_level(level: u32) -> u32
    requires { level ≤ 5 }
    ensures { result ≡ spec.left_of_level level }
{
    if level == 3 { level } else { level + 1 }
}

/// How tightly an expression holds together: 0 for a primary, 1 behind a unary operator, one more
/// than its level for a binary one.
#[tactic(auto, unfolding(crate::specs::Canonical::printed_of))]
fn hold(x: &Expr) -> u32
    ensures { result ≡ (spec.printed_of x.now).hold }
{
    match x {
        Expr::Unary(..) => 1,
        Expr::Binary(op, ..) => binary_level(*op) + 1,
        _ => 0,
    }
}

/// An operand, in parentheses if it is looser than this.
#[cycle(expr)]
#[tactic(auto, using(crate::proofs::Pages::laid_append), unfolding(crate::specs::Canonical::operand_symbols))]
fn put_operand(alloc: Global, page: &mut Page, loosest: u32, x: &Expr) -> Result<(), AllocError>
    ensures { OnOk result (page.new ≡ laid page.old (spec.operand_symbols loosest (spec.printed_of x.now))) }
{
    if hold(x) <= loosest {
        put_expr(alloc, page, x)?;
    } else {
        page.put_mark(Mark::LeftParen)?;
        put_expr(alloc, page, x)?;
        page.put_mark(Mark::RightParen)?;
    }
    Ok(())
}

/// An expression. It calls itself once for each operator and each bracket that stand inside
/// another.
#[cycle(expr)]
#[tactic(auto, unfolding(crate::specs::Canonical::printed_of))]
pub(crate) fn put_expr(alloc: Global, page: &mut Page, x: &Expr) -> Result<(), AllocError>
    ensures { OnOk result (page.new ≡ laid page.old (spec.expression_symbols x.now)) }
{
    match x {
        Expr::Number(number) => page.put_number(alloc, *number),
        Expr::Var(name) => page.put_name(name.as_slice()),
        Expr::Unary(op, x) => {
            page.put_mark(unary_mark(*op))?;
            put_operand(alloc, page, 0, x.get())
        }
        Expr::Binary(op, x, y) => {
            put_left(alloc, page, *op, x.get())?;
            put_operand(alloc, page, binary_level(*op), y.get())
        }
        Expr::Len(name) => put_len(page, name),
        Expr::Index(name, x) => put_index(alloc, page, name, x.get()),
        Expr::Size(name, x) => put_size(alloc, page, name, x.get()),
        Expr::At(name, x, y) => {
            put_at_front(alloc, page, name, x.get())?;
            put_expr(alloc, page, y.get())?;
            page.put_mark(Mark::RightParen)
        }
        Expr::Same(name, x, lit) => put_text_test(alloc, page, Word::Same, name, x.get(), lit),
        Expr::Begins(name, x, lit) => put_text_test(alloc, page, Word::Begins, name, x.get(), lit),
    }
}

/// A left operand and its operator.
#[cycle(expr)]
#[tactic(auto, using(crate::proofs::Pages::laid_append))]
fn put_left(alloc: Global, page: &mut Page, op: BinOp, x: &Expr) -> Result<(), AllocError>
    ensures { OnOk result (page.new ≡ laid page.old (spec.left_symbols op (spec.printed_of x.now))) }
{
    put_operand(alloc, page, left_of_level(binary_level(op)), x)?;
    page.put_mark(row_of(op).0)
}

fn put_len(page: &mut Page, name: &Name) -> Result<(), AllocError>
    ensures { OnOk result (page.new ≡ laid page.old (spec.word_symbols Len (spec.name_symbols name.now))) }
{
    page.put_word(Word::Len)?;
    page.put_mark(Mark::LeftParen)?;
    page.put_name(name.as_slice())?;
    page.put_mark(Mark::RightParen)
}

/// An entry of a column, by its number.
#[cycle(expr)]
#[tactic(auto, using(crate::proofs::Pages::laid_append))]
fn put_index(alloc: Global, page: &mut Page, name: &Name, x: &Expr) -> Result<(), AllocError>
    ensures { OnOk result (page.new ≡ laid page.old (spec.index_symbols name.now (spec.expression_symbols x.now))) }
{
    page.put_name(name.as_slice())?;
    page.put_mark(Mark::LeftBracket)?;
    put_expr(alloc, page, x)?;
    page.put_mark(Mark::RightBracket)
}

/// A column's name and a number of an entry.
#[cycle(expr)]
#[tactic(auto, using(crate::proofs::Pages::laid_append))]
fn put_place(alloc: Global, page: &mut Page, name: &Name, x: &Expr) -> Result<(), AllocError>
    ensures { OnOk result (page.new ≡ laid page.old (spec.place_symbols name.now (spec.expression_symbols x.now))) }
{
    page.put_name(name.as_slice())?;
    page.put_mark(Mark::Comma)?;
    put_expr(alloc, page, x)
}

#[cycle(expr)]
#[tactic(auto, using(crate::proofs::Pages::laid_append))]
fn put_size(alloc: Global, page: &mut Page, name: &Name, x: &Expr) -> Result<(), AllocError>
    ensures { OnOk result (page.new ≡ laid page.old (spec.size_symbols name.now (spec.expression_symbols x.now))) }
{
    page.put_word(Word::Size)?;
    page.put_mark(Mark::LeftParen)?;
    put_place(alloc, page, name, x)?;
    page.put_mark(Mark::RightParen)
}

/// An entry of a column by two numbers, up to the second.
#[cycle(expr)]
#[tactic(auto, using(crate::proofs::Pages::laid_append))]
fn put_at_front(alloc: Global, page: &mut Page, name: &Name, x: &Expr) -> Result<(), AllocError>
    ensures { OnOk result (page.new ≡ laid page.old (spec.at_front name.now (spec.expression_symbols x.now))) }
{
    page.put_word(Word::At)?;
    page.put_mark(Mark::LeftParen)?;
    put_place(alloc, page, name, x)?;
    page.put_mark(Mark::Comma)
}

/// A test of a text against a string.
#[cycle(expr)]
#[tactic(auto, using(crate::proofs::Pages::laid_append))]
fn put_text_test(
    alloc: Global,
    page: &mut Page,
    word: Word,
    name: &Name,
    x: &Expr,
    lit: &Lit,
) -> Result<(), AllocError>
    ensures { OnOk result (page.new ≡ laid page.old (spec.text_test_symbols word name.now
        (spec.expression_symbols x.now) lit.now)) }
{
    page.put_word(word)?;
    page.put_mark(Mark::LeftParen)?;
    put_place(alloc, page, name, x)?;
    page.put_mark(Mark::Comma)?;
    page.put_lit(alloc, lit.as_slice())?;
    page.put_mark(Mark::RightParen)
}

/// Further arguments, each behind a comma.
fn put_more_args(alloc: Global, page: &mut Page, args: &[Expr]) -> Result<(), AllocError>
    ensures { OnOk result (page.new ≡ laid page.old (spec.behind_commas spec.expression_symbols args.now)) }
{
    for arg in args {
        page.put_mark(Mark::Comma)?;
        put_expr(alloc, page, arg)?;
    }
    Ok(())
}

#[tactic(auto, using(crate::proofs::Pages::laid_append))]
fn put_args(alloc: Global, page: &mut Page, args: &Exprs) -> Result<(), AllocError>
    ensures { OnOk result (page.new ≡ laid page.old (spec.with_commas spec.expression_symbols args.now)) }
{
    match args.as_slice() {
        [] => Ok(()),
        [first, rest @ ..] => {
            put_expr(alloc, page, first)?;
            put_more_args(alloc, page, rest)
        }
    }
}

/// A function or a task with its arguments.
#[tactic(auto, using(crate::proofs::Pages::laid_append))]
pub(crate) fn put_call(
    alloc: Global,
    page: &mut Page,
    callee: &Name,
    args: &Exprs,
) -> Result<(), AllocError>
    ensures { OnOk result (page.new ≡ laid page.old (spec.call_symbols callee.now args.now)) }
{
    page.put_name(callee.as_slice())?;
    page.put_mark(Mark::LeftParen)?;
    put_args(alloc, page, args)?;
    page.put_mark(Mark::RightParen)
}
