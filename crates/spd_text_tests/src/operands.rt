// Trees of two operators with their canonical texts, for every two.

use crate::levels::{COMPARISONS, OPERATORS};
use crate::pieces::joined;
use crate::trees::{binary, printing, unary};
use spd_canonical::print_program;
use spd_syntax::{BinOp, Expr, UnOp};
use std::alloc::{AllocError, Global};
use std::test::Fail;

/// The signs before an operand.
const SIGNS: [(&[u8], UnOp); 2] = [(b"-", UnOp::Neg), (b"!", UnOp::Not)];

/// The canonical text of a program that prints a value.
fn printed(alloc: Global, value: Expr) -> Result<Vec<u8>, AllocError> {
    let program = printing(alloc, value)?;
    let text = print_program(alloc, &program)?;
    Ok(text)
}

/// The text of a program that prints an expression of these pieces.
fn text_of(alloc: Global, pieces: &[&[u8]]) -> Result<Vec<u8>, AllocError> {
    let value = joined(alloc, pieces)?;
    let text = joined(alloc, &[b"main {\n  print ", value.as_slice(), b";\n}\n"])?;
    Ok(text)
}

/// The parentheses round an operand, if it has some.
fn parentheses(has: bool) -> (&'static [u8], &'static [u8]) {
    if has { (b"(", b")") } else { (b"", b"") }
}

/// Two numbers with an operator between them.
fn pair(alloc: Global, op: BinOp) -> Result<Expr, AllocError> {
    let value = binary(alloc, op, Expr::Number(1), Expr::Number(2))?;
    Ok(value)
}

#[test]
fn left_operands_have_parentheses_where_they_are_looser(rt: HostRuntime) -> Result<(), Fail> {
    let alloc = rt.alloc();
    for (mark, op, level) in OPERATORS {
        for (outer_mark, outer, outer_level) in OPERATORS {
            let both_compare = level == COMPARISONS && outer_level == COMPARISONS;
            let (open, close) = parentheses(level > outer_level || both_compare);
            let pieces: [&[u8]; 7] = [open, b"1 ", mark, b" 2", close, b" ", outer_mark];
            let left = joined(alloc, &pieces)?;
            let wanted = text_of(alloc, &[left.as_slice(), b" 3"])?;
            let value = binary(alloc, outer, pair(alloc, op)?, Expr::Number(3))?;
            let text = printed(alloc, value)?;
            assert_eq!(rt; text.as_slice(), wanted.as_slice());
        }
    }
    Ok(())
}

#[test]
fn right_operands_have_parentheses_where_they_are_not_tighter(rt: HostRuntime) -> Result<(), Fail> {
    let alloc = rt.alloc();
    for (mark, op, level) in OPERATORS {
        for (outer_mark, outer, outer_level) in OPERATORS {
            let (open, close) = parentheses(level >= outer_level);
            let pieces: [&[u8]; 7] = [b"3 ", outer_mark, b" ", open, b"1 ", mark, b" 2"];
            let right = joined(alloc, &pieces)?;
            let wanted = text_of(alloc, &[right.as_slice(), close])?;
            let value = binary(alloc, outer, Expr::Number(3), pair(alloc, op)?)?;
            let text = printed(alloc, value)?;
            assert_eq!(rt; text.as_slice(), wanted.as_slice());
        }
    }
    Ok(())
}

#[test]
fn operands_of_signs_have_parentheses_where_they_are_no_primaries(
    rt: HostRuntime,
) -> Result<(), Fail> {
    let alloc = rt.alloc();
    for (sign, outer) in SIGNS {
        for (mark, op, _) in OPERATORS {
            let wanted = text_of(alloc, &[sign, b"(1 ", mark, b" 2)"])?;
            let text = printed(alloc, unary(alloc, outer, pair(alloc, op)?)?)?;
            assert_eq!(rt; text.as_slice(), wanted.as_slice());
            let wanted = text_of(alloc, &[sign, b"1 ", mark, b" ", sign, b"2"])?;
            let left = unary(alloc, outer, Expr::Number(1))?;
            let right = unary(alloc, outer, Expr::Number(2))?;
            let text = printed(alloc, binary(alloc, op, left, right)?)?;
            assert_eq!(rt; text.as_slice(), wanted.as_slice());
        }
        for (inner_sign, inner) in SIGNS {
            let wanted = text_of(alloc, &[sign, b"(", inner_sign, b"1)"])?;
            let value = unary(alloc, inner, Expr::Number(1))?;
            let text = printed(alloc, unary(alloc, outer, value)?)?;
            assert_eq!(rt; text.as_slice(), wanted.as_slice());
        }
    }
    Ok(())
}
