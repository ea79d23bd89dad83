// Checking expressions, and what stands for them: arguments and the parts of a print.

ghost use Rattle.std.specs.Prelude.{◌≡◌, flat_map};
ghost use Rattle.spd_check.specs.Names.{name_texts};
ghost use Rattle.spd_check.specs.Faults.{Passes};
ghost use Rattle.spd_check.specs.Checks as spec;
ghost use Rattle.spd_check.specs.Checks.{expression_faults, expressions_faults, part_faults, called_faults, call_faults};

use crate::declared::{Entries, entries_of};
use crate::faults::{CheckFault, CheckKind, unless};
use crate::names::check_read;
use spd_syntax::{Expr, Exprs, Item, Parts, PrintPart};

/// What an expression takes of a column.
#[derive(Clone, Copy)]
pub(crate) enum ColumnUse {
    /// How many entries it has.
    Length,
    /// An entry that is a number.
    Number,
    /// An entry that is a text.
    Text,
}

fn fits_use(used: ColumnUse, entries: Entries) -> bool
    ensures { result ≡ spec.fits_use used entries }
{
    match (used, entries) {
        (ColumnUse::Length, _) => true,
        (ColumnUse::Number, Entries::Ints) => true,
        (ColumnUse::Number, Entries::Texts) => false,
        (ColumnUse::Text, Entries::Ints) => false,
        (ColumnUse::Text, Entries::Texts) => true,
    }
}

/// Checks the use of a column or lines item.
#[tactic(auto, unfolding(crate::specs::Checks::column_faults))]
fn check_column(items: &[Item], line: u32, column: &[u8], used: ColumnUse) -> Result<(), CheckFault>
    ensures { Passes result (spec.column_faults items.now column.now used line) }
{
    let Some(entries) = entries_of(items, column) else {
        return Err(CheckFault {
            line,
            kind: CheckKind::Unknown,
        });
    };
    unless(fits_use(used, entries), line, CheckKind::ColumnKind)
}

/// Checks a call with so many arguments of what has so many parameters, if it is there.
#[tactic(auto, unfolding(crate::specs::Checks::called_faults))]
fn check_called(arity: Option<u32>, given: u32, line: u32) -> Result<(), CheckFault>
    ensures { Passes result (called_faults arity given line) }
{
    let Some(params) = arity else {
        return Err(CheckFault {
            line,
            kind: CheckKind::Unknown,
        });
    };
    unless(params == given, line, CheckKind::Arity)
}

/// Checks an expression of a statement at a line, where these names are visible.
#[tactic(auto, using(crate::proofs::Passing::first_more, crate::proofs::Passing::none_more))]
pub(crate) fn check_expr(
    items: &[Item],
    names: &[&[u8]],
    line: u32,
    expr: &Expr,
) -> Result<(), CheckFault>
    ensures { Passes result (expression_faults items.now (name_texts names.now) line expr.now) }
{
    match expr {
        Expr::Number(_) => Ok(()),
        Expr::Var(name) => check_read(names, line, name.as_slice()),
        Expr::Unary(_, inner) => check_expr(items, names, line, inner.get()),
        Expr::Binary(_, left, right) => {
            check_expr(items, names, line, left.get())?;
            check_expr(items, names, line, right.get())
        }
        Expr::Len(column) => check_column(items, line, column.as_slice(), ColumnUse::Length),
        Expr::Index(column, at) => {
            check_column(items, line, column.as_slice(), ColumnUse::Number)?;
            check_expr(items, names, line, at.get())
        }
        Expr::Size(column, at) => {
            check_column(items, line, column.as_slice(), ColumnUse::Text)?;
            check_expr(items, names, line, at.get())
        }
        Expr::At(column, at, byte) => {
            check_column(items, line, column.as_slice(), ColumnUse::Text)?;
            check_expr(items, names, line, at.get())?;
            check_expr(items, names, line, byte.get())
        }
        Expr::Same(column, at, _) => {
            check_column(items, line, column.as_slice(), ColumnUse::Text)?;
            check_expr(items, names, line, at.get())
        }
        Expr::Begins(column, at, _) => {
            check_column(items, line, column.as_slice(), ColumnUse::Text)?;
            check_expr(items, names, line, at.get())
        }
    }
}

/// Checks the arguments of a call, from left to right.
#[tactic(auto, using(crate::proofs::Passing::first_more, crate::proofs::Passing::none_more))]
fn check_exprs(items: &[Item], names: &[&[u8]], line: u32, exprs: &Exprs) -> Result<(), CheckFault>
    ensures { Passes result (expressions_faults items.now (name_texts names.now) line exprs.now) }
{
    for expr in exprs.as_slice() {
        check_expr(items, names, line, expr)?;
    }
    Ok(())
}

/// Checks a call of what has so many parameters, if it is there.
#[tactic(auto, using(crate::proofs::Passing::first_more, crate::proofs::Passing::none_more))]
pub(crate) fn check_call(
    items: &[Item],
    names: &[&[u8]],
    line: u32,
    arity: Option<u32>,
    args: &Exprs,
) -> Result<(), CheckFault>
    ensures { Passes result (call_faults items.now arity (name_texts names.now) line args.now) }
{
    check_called(arity, args.len(), line)?;
    check_exprs(items, names, line, args)
}

fn check_part(
    items: &[Item],
    names: &[&[u8]],
    line: u32,
    part: &PrintPart,
) -> Result<(), CheckFault>
    ensures { Passes result (part_faults items.now (name_texts names.now) line part.now) }
{
    match part {
        PrintPart::Lit(_) => Ok(()),
        PrintPart::Value(value) => check_expr(items, names, line, value),
    }
}

/// Checks the parts of a print, from left to right.
#[tactic(auto, using(crate::proofs::Passing::first_more, crate::proofs::Passing::none_more))]
pub(crate) fn check_parts(
    items: &[Item],
    names: &[&[u8]],
    line: u32,
    parts: &Parts,
) -> Result<(), CheckFault>
    ensures { Passes result (flat_map (part_faults items.now (name_texts names.now) line) parts.now) }
{
    for part in parts.as_slice() {
        check_part(items, names, line, part)?;
    }
    Ok(())
}
