// Values of expressions, over the values of the visible names.

ghost use Rattle.std.specs.Prelude.{◌≡◌, Ok, ℕ, IfOk, map};
ghost use Rattle.spd_meaning.specs.Values.{apply_unary, apply_binary, decided, truth, all_values};
ghost use Rattle.spd_code.specs.Coded.{code_value};
ghost use Rattle.spd_code.specs.Places.{value_at};
ghost use Rattle.spd_level.specs.Columns.{around_columns};
ghost use Rattle.spd_level.specs.Found.{value_list};

use crate::columns::{
    byte_of, found_in_range, has_prefix, is_same, length_of, number_at, size_of, text_at,
};
use spd_code::CodeExpr;
use spd_data::Data;
use spd_syntax::{BinOp, UnOp};
use std::alloc::{AllocError, Global};

/// The value of an expression of a statement at this line, over columns and the values of the visible
/// names, or the code of its fault: `line * 8 + 1` for a division by zero, `line * 8 + 2` for an index
/// that is out of range.
///
/// It calls itself once for each operator that stands inside another. A place without a value reads 0,
/// and a column that isn't there or is of the other kind has no entries to read, which no checked
/// program does.
pub fn value_of(expr: &CodeExpr, columns: &Data, vars: &[i64], line: u32) -> Result<i64, u64>
    ensures { result ≡ code_value (around_columns columns.now) expr.now vars.now line }
{
    match expr {
        CodeExpr::Number(value) => Ok(*value),
        CodeExpr::Var(place) => Ok(at_place(vars, *place)),
        CodeExpr::Unary(op, inner) => {
            let a = value_of(inner.get(), columns, vars, line)?;
            Ok(apply_one(*op, a))
        }
        CodeExpr::Binary(op, left, right) => {
            let a = value_of(left.get(), columns, vars, line)?;
            if let Some(value) = decide(*op, a) {
                return Ok(value);
            }
            let b = value_of(right.get(), columns, vars, line)?;
            apply(*op, a, b, line)
        }
        CodeExpr::Len(column) => Ok(length_of(columns, *column)),
        CodeExpr::Index(column, at) => {
            let at = value_of(at.get(), columns, vars, line)?;
            found_in_range(number_at(columns, *column, at), line)
        }
        CodeExpr::Size(column, at) => {
            let at = value_of(at.get(), columns, vars, line)?;
            size_of(text_at(columns, *column, at), line)
        }
        CodeExpr::At(column, at, byte) => {
            let at = value_of(at.get(), columns, vars, line)?;
            let byte = value_of(byte.get(), columns, vars, line)?;
            byte_of(text_at(columns, *column, at), byte, line)
        }
        CodeExpr::Same(column, at, literal) => {
            let at = value_of(at.get(), columns, vars, line)?;
            is_same(text_at(columns, *column, at), literal.as_slice(), line)
        }
        CodeExpr::Begins(column, at, literal) => {
            let at = value_of(at.get(), columns, vars, line)?;
            has_prefix(text_at(columns, *column, at), literal.as_slice(), line)
        }
    }
}

/// The values of arguments from left to right, or the code of the first fault.
pub fn values_of(
    alloc: Global,
    args: &[CodeExpr],
    columns: &Data,
    vars: &[i64],
    line: u32,
) -> Result<Result<Vec<i64>, u64>, AllocError>
    ensures { IfOk result (λ values.
        value_list values
        ≡ all_values (map (λ e. code_value (around_columns columns.now) e vars.now line) args.now)) }
{
    let mut found = Vec::new(alloc);
    for arg in args {
        match value_of(arg, columns, vars, line) {
            Ok(value) => found.push(value)?,
            Err(code) => return Ok(Err(code)),
        }
    }
    Ok(Ok(found))
}

/// The value of the name at a place.
fn at_place(vars: &[i64], place: u32) -> i64
    ensures { result ≡ value_at vars.now place }
{
    vars.get(place as usize).copied().unwrap_or(0)
}

/// A test as a number: 1 where it holds, else 0.
pub(crate) fn as_number(test: bool) -> i64
    ensures { result ≡ truth test }
{
    if test { 1 } else { 0 }
}

/// An operator before an operand.
fn apply_one(op: UnOp, a: i64) -> i64
    ensures { (line : ℕ) → apply_unary op a line ≡ Ok result }
{
    match op {
        UnOp::Neg => a.wrapping_neg(),
        UnOp::Not => as_number(a == 0),
    }
}

/// What the left operand alone decides: the right one isn't evaluated then.
fn decide(op: BinOp, a: i64) -> Option<i64>
    ensures { result ≡ decided op a }
{
    match op {
        BinOp::Or => if a != 0 { Some(1) } else { None },
        BinOp::And => if a != 0 { None } else { Some(0) },
        _ => None,
    }
}

/// An operator between two operands. Sums, differences, products and quotients wrap.
fn apply(op: BinOp, a: i64, b: i64, line: u32) -> Result<i64, u64>
    ensures { result ≡ apply_binary op a b line }
{
    match op {
        BinOp::Or => Ok(as_number(b != 0)),
        BinOp::And => Ok(as_number(b != 0)),
        BinOp::Eq => Ok(as_number(a == b)),
        BinOp::Ne => Ok(as_number(a != b)),
        BinOp::Lt => Ok(as_number(a < b)),
        BinOp::Le => Ok(as_number(a <= b)),
        BinOp::Gt => Ok(as_number(a > b)),
        BinOp::Ge => Ok(as_number(a >= b)),
        BinOp::Add => Ok(a.wrapping_add(b)),
        BinOp::Sub => Ok(a.wrapping_sub(b)),
        BinOp::Mul => Ok(a.wrapping_mul(b)),
        BinOp::Div => {
            if b == 0 {
                Err(line as u64 * 8 + 1)
            } else {
                Ok(a.wrapping_div(b))
            }
        }
        BinOp::Rem => {
            if b == 0 {
                Err(line as u64 * 8 + 1)
            } else {
                Ok(a.wrapping_rem(b))
            }
        }
    }
}
