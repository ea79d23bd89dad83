// Every two operators beside each other, with what is grouped of them.

use crate::faults::fault_of;
use crate::pieces::joined;
use spd_parse::parse;
use spd_syntax::{
    BinOp, Expr, Item, ItemKind, ParseFault, ParseKind, PrintPart, Program, Stmt, StmtKind, UnOp,
    lex,
};
use std::alloc::Global;
use std::test::Fail;

/// Each operator between two operands with its mark and its level, of which a lower one binds more tightly.
pub(crate) const OPERATORS: [(&[u8], BinOp, u32); 13] = [
    (b"||", BinOp::Or, 5),
    (b"&&", BinOp::And, 4),
    (b"==", BinOp::Eq, 3),
    (b"!=", BinOp::Ne, 3),
    (b"<", BinOp::Lt, 3),
    (b"<=", BinOp::Le, 3),
    (b">", BinOp::Gt, 3),
    (b">=", BinOp::Ge, 3),
    (b"+", BinOp::Add, 2),
    (b"-", BinOp::Sub, 2),
    (b"*", BinOp::Mul, 1),
    (b"/", BinOp::Div, 1),
    (b"%", BinOp::Rem, 1),
];

/// The level of the comparisons.
pub(crate) const COMPARISONS: u32 = 3;

/// What an operand is.
#[derive(Clone, Copy, Debug, PartialEq, Eq)]
enum Operand {
    Primary,
    Signed(UnOp),
    Grouped(BinOp),
}

fn operand_of(x: &Expr) -> Operand {
    match x {
        Expr::Unary(op, _) => Operand::Signed(*op),
        Expr::Binary(op, ..) => Operand::Grouped(*op),
        _ => Operand::Primary,
    }
}

/// The operator of the one expression that a program prints, and what its operands are.
fn operation(program: &Program) -> Option<(BinOp, Operand, Operand)> {
    let [Item { what, .. }] = program.items.as_slice() else {
        return None;
    };
    let ItemKind::Main { body } = what else {
        return None;
    };
    let [Stmt { what, .. }] = body.as_slice() else {
        return None;
    };
    let StmtKind::Print { parts } = what else {
        return None;
    };
    let [PrintPart::Value(Expr::Binary(op, x, y))] = parts.as_slice() else {
        return None;
    };
    Some((*op, operand_of(x.get()), operand_of(y.get())))
}

/// What is read of a text that spells a program.
fn read(alloc: Global, text: &[u8]) -> Result<Option<(BinOp, Operand, Operand)>, Fail> {
    let tokens = lex(alloc, text)?;
    let program = parse(alloc, text, tokens.as_slice())?;
    Ok(operation(&program))
}

#[test]
fn tighter_operators_are_grouped_and_equal_ones_to_the_left(rt: HostRuntime) -> Result<(), Fail> {
    for (mark, op, level) in OPERATORS {
        for (next_mark, next_op, next_level) in OPERATORS {
            let text = joined(
                rt.alloc(),
                &[b"main { print a ", mark, b" b\n", next_mark, b" c; }"],
            )?;
            if level == COMPARISONS && next_level == COMPARISONS {
                let fault = ParseFault {
                    line: 2,
                    kind: ParseKind::Expected,
                };
                assert_eq!(rt;
                    fault_of(rt.alloc(), text.as_slice())?,
                    Some(fault),
                    "of {text:?}"
                );
                continue;
            }
            let wanted = if level <= next_level {
                (next_op, Operand::Grouped(op), Operand::Primary)
            } else {
                (op, Operand::Primary, Operand::Grouped(next_op))
            };
            assert_eq!(rt;
                read(rt.alloc(), text.as_slice())?,
                Some(wanted),
                "of {text:?}"
            );
        }
    }
    Ok(())
}

#[test]
fn a_sign_belongs_to_the_operand_behind_it(rt: HostRuntime) -> Result<(), Fail> {
    for (mark, op, _) in OPERATORS {
        let text = joined(rt.alloc(), &[b"main { print -a ", mark, b" !b; }"])?;
        let wanted = (op, Operand::Signed(UnOp::Neg), Operand::Signed(UnOp::Not));
        assert_eq!(rt;
            read(rt.alloc(), text.as_slice())?,
            Some(wanted),
            "of {text:?}"
        );
    }
    Ok(())
}

#[test]
fn parentheses_group(rt: HostRuntime) -> Result<(), Fail> {
    for (mark, op, _) in OPERATORS {
        for (next_mark, next_op, _) in OPERATORS {
            let text = joined(
                rt.alloc(),
                &[b"main { print (a ", mark, b" b) ", next_mark, b" c; }"],
            )?;
            let wanted = (next_op, Operand::Grouped(op), Operand::Primary);
            assert_eq!(rt;
                read(rt.alloc(), text.as_slice())?,
                Some(wanted),
                "of {text:?}"
            );
            let text = joined(
                rt.alloc(),
                &[b"main { print a ", mark, b" (b ", next_mark, b" c); }"],
            )?;
            let wanted = (op, Operand::Primary, Operand::Grouped(next_op));
            assert_eq!(rt;
                read(rt.alloc(), text.as_slice())?,
                Some(wanted),
                "of {text:?}"
            );
        }
    }
    Ok(())
}
