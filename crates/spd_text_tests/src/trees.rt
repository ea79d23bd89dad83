// Trees with their canonical texts. Those of texts that are read first stand in `printing`.

use spd_canonical::print_program;
use spd_list::Seq;
use spd_syntax::{BinOp, Expr, Item, ItemKind, Items, PrintPart, Program, Stmt, StmtKind, UnOp};
use sqlite_items::Boxed;
use std::alloc::{AllocError, Global};
use std::test::Fail;

/// An operator before an operand.
pub(crate) fn unary(alloc: Global, op: UnOp, x: Expr) -> Result<Expr, AllocError> {
    Ok(Expr::Unary(op, Boxed::new(alloc, x)?))
}

/// An operator between two operands.
pub(crate) fn binary(alloc: Global, op: BinOp, x: Expr, y: Expr) -> Result<Expr, AllocError> {
    Ok(Expr::Binary(op, Boxed::new(alloc, x)?, Boxed::new(alloc, y)?))
}

/// A list of one entry.
fn one<T: Drop>(alloc: Global, entry: T) -> Result<Seq<T>, AllocError> {
    let mut list = Seq::new(alloc);
    list.push(entry)?;
    Ok(list)
}

/// A program that prints a value.
pub(crate) fn printing(alloc: Global, value: Expr) -> Result<Program, AllocError> {
    let parts = one(alloc, PrintPart::Value(value))?;
    let what = StmtKind::Print { parts };
    let what = ItemKind::Main {
        body: one(alloc, Stmt { line: 7, what })?,
    };
    Ok(Program {
        items: one(alloc, Item { line: 3, what })?,
        last_line: 9,
    })
}

#[test]
fn operands_have_parentheses_where_they_need_them(rt: HostRuntime) -> Result<(), Fail> {
    let alloc = rt.alloc();
    let product = binary(alloc, BinOp::Mul, Expr::Number(2), Expr::Number(3))?;
    let sum = printing(alloc, binary(alloc, BinOp::Add, Expr::Number(1), product)?)?;
    let text = print_program(alloc, &sum)?;
    assert_eq!(rt;
        text.as_slice(),
        b"main {\n  print 1 + 2 * 3;\n}\n".as_slice()
    );
    let sum = binary(alloc, BinOp::Sub, Expr::Number(2), Expr::Number(3))?;
    let sum = printing(alloc, binary(alloc, BinOp::Sub, Expr::Number(1), sum)?)?;
    let text = print_program(alloc, &sum)?;
    assert_eq!(rt;
        text.as_slice(),
        b"main {\n  print 1 - (2 - 3);\n}\n".as_slice()
    );
    Ok(())
}

/// As many operators as may stand in one stretch, each inside the next.
#[test]
fn deep_expressions_are_printed(rt: HostRuntime) -> Result<(), Fail> {
    let alloc = rt.alloc();
    let mut value = Expr::Number(0);
    for _ in 0..1000 {
        value = binary(alloc, BinOp::Sub, Expr::Number(1), value)?;
    }
    let program = printing(alloc, value)?;
    assert_eq!(rt; print_program(alloc, &program)?.len(), 19 + 5 + 999 * 6);
    Ok(())
}

#[test]
fn a_program_without_items_has_no_bytes(rt: HostRuntime) -> Result<(), Fail> {
    let program = Program {
        items: Items::new(rt.alloc()),
        last_line: 1,
    };
    assert!(rt; print_program(rt.alloc(), &program)?.is_empty());
    Ok(())
}
