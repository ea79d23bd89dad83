// The code of expressions, and of what stands for them: arguments and the parts of a print.

ghost use Rattle.std.specs.Prelude.{◌≡◌, map, IfOk};
ghost use Rattle.spd_code.specs.Places as places;
ghost use Rattle.spd_code.specs.Resolved.{expression_code, part_code};
ghost use Rattle.spd_check.specs.Names.{name_texts};

use crate::names::{place_of, to_u32};
use crate::spaces::SpaceNames;
use spd_code::{CodeExpr, CodeExprs, CodeParts, CodePrintPart};
use spd_list::Seq;
use spd_syntax::{Expr, Exprs, Parts, PrintPart};
use sqlite_items::Boxed;
use std::alloc::{AllocError, Global};

/// The place of a variable.
pub(crate) fn variable(names: &[&[u8]], name: &[u8]) -> Result<u32, AllocError>
    ensures { IfOk result (λ place. place ≡ places.place_of (name_texts names.now) name.now) }
{
    to_u32(place_of(names, name))
}

/// An operand, in a box of its own.
#[cycle(values)]
fn operand(
    alloc: Global,
    spaces: &SpaceNames,
    names: &[&[u8]],
    expr: &Expr,
) -> Result<Boxed<CodeExpr>, AllocError>
    ensures { IfOk result (λ code. code ≡ expression_code spaces.now (name_texts names.now) expr.now) }
{
    let code = expression(alloc, spaces, names, expr)?;
    Ok(Boxed::new(alloc, code)?)
}

/// The code of an expression where these names are visible.
#[cycle(values)]
pub(crate) fn expression(
    alloc: Global,
    spaces: &SpaceNames,
    names: &[&[u8]],
    expr: &Expr,
) -> Result<CodeExpr, AllocError>
    ensures { IfOk result (λ code. code ≡ expression_code spaces.now (name_texts names.now) expr.now) }
{
    match expr {
        Expr::Number(number) => Ok(CodeExpr::Number(*number)),
        Expr::Var(name) => Ok(CodeExpr::Var(variable(names, name.as_slice())?)),
        Expr::Unary(op, inner) => Ok(CodeExpr::Unary(
            *op,
            operand(alloc, spaces, names, inner.get())?,
        )),
        Expr::Binary(op, left, right) => {
            let left = operand(alloc, spaces, names, left.get())?;
            let right = operand(alloc, spaces, names, right.get())?;
            Ok(CodeExpr::Binary(*op, left, right))
        }
        Expr::Len(column) => Ok(CodeExpr::Len(spaces.column(column.as_slice())?)),
        Expr::Index(column, at) => {
            let column = spaces.column(column.as_slice())?;
            Ok(CodeExpr::Index(column, operand(alloc, spaces, names, at.get())?))
        }
        Expr::Size(column, at) => {
            let column = spaces.column(column.as_slice())?;
            Ok(CodeExpr::Size(column, operand(alloc, spaces, names, at.get())?))
        }
        Expr::At(column, at, byte) => {
            let column = spaces.column(column.as_slice())?;
            let at = operand(alloc, spaces, names, at.get())?;
            Ok(CodeExpr::At(column, at, operand(alloc, spaces, names, byte.get())?))
        }
        Expr::Same(column, at, text) => {
            let column = spaces.column(column.as_slice())?;
            let at = operand(alloc, spaces, names, at.get())?;
            Ok(CodeExpr::Same(column, at, Seq::from_slice(alloc, text.as_slice())?))
        }
        Expr::Begins(column, at, text) => {
            let column = spaces.column(column.as_slice())?;
            let at = operand(alloc, spaces, names, at.get())?;
            Ok(CodeExpr::Begins(column, at, Seq::from_slice(alloc, text.as_slice())?))
        }
    }
}

/// The code of the arguments of a call.
pub(crate) fn arguments(
    alloc: Global,
    spaces: &SpaceNames,
    names: &[&[u8]],
    exprs: &Exprs,
) -> Result<CodeExprs, AllocError>
    ensures { IfOk result (λ code. code ≡ map (expression_code spaces.now (name_texts names.now)) exprs.now) }
{
    let mut coded = Seq::new(alloc);
    for expr in exprs.as_slice() {
        coded.push(expression(alloc, spaces, names, expr)?)?;
    }
    Ok(coded)
}

fn part(
    alloc: Global,
    spaces: &SpaceNames,
    names: &[&[u8]],
    part: &PrintPart,
) -> Result<CodePrintPart, AllocError>
    ensures { IfOk result (λ code. code ≡ part_code spaces.now (name_texts names.now) part.now) }
{
    match part {
        PrintPart::Lit(text) => Ok(CodePrintPart::Lit(Seq::from_slice(alloc, text.as_slice())?)),
        PrintPart::Value(value) => Ok(CodePrintPart::Value(expression(
            alloc, spaces, names, value,
        )?)),
    }
}

/// The code of the parts of a print.
pub(crate) fn parts(
    alloc: Global,
    spaces: &SpaceNames,
    names: &[&[u8]],
    parts: &Parts,
) -> Result<CodeParts, AllocError>
    ensures { IfOk result (λ code. code ≡ map (part_code spaces.now (name_texts names.now)) parts.now) }
{
    let mut coded = Seq::new(alloc);
    for one in parts.as_slice() {
        coded.push(part(alloc, spaces, names, one)?)?;
    }
    Ok(coded)
}
