// Codes that are made by hand, statement by statement.

use spd_code::{
    CodeBlock, CodeExpr, CodeExprs, CodeItem, CodeItems, CodeStmt, CodeStmtKind, CodeTree,
};
use spd_list::Seq;
use spd_syntax::{BinOp, Collect};
use sqlite_items::Boxed;
use std::alloc::{AllocError, Global};

/// A constant.
pub(crate) fn number(value: i64) -> CodeExpr {
    CodeExpr::Number(value)
}

/// The value of the name at this place.
pub(crate) fn var(place: u32) -> CodeExpr {
    CodeExpr::Var(place)
}

/// An operator between two operands.
pub(crate) fn both(
    alloc: Global,
    left: CodeExpr,
    op: BinOp,
    right: CodeExpr,
) -> Result<CodeExpr, AllocError> {
    Ok(CodeExpr::Binary(op, Boxed::new(alloc, left)?, Boxed::new(alloc, right)?))
}

/// Expressions, in order.
pub(crate) fn exprs(alloc: Global, list: Vec<CodeExpr>) -> Result<CodeExprs, AllocError> {
    let mut seq = Seq::new(alloc);
    for expr in list {
        seq.push(expr)?;
    }
    Ok(seq)
}

/// A statement at a line.
fn at(line: u32, what: CodeStmtKind) -> CodeStmt {
    CodeStmt {
        line,
        next_block: 0,
        what,
    }
}

/// A block of these statements.
pub(crate) fn block(alloc: Global, stmts: Vec<CodeStmt>) -> Result<CodeBlock, AllocError> {
    let mut seq = Seq::new(alloc);
    for stmt in stmts {
        seq.push(stmt)?;
    }
    Ok(CodeBlock {
        number: None,
        stmts: seq,
    })
}

/// Functions or tasks, in order.
pub(crate) fn items(alloc: Global, list: Vec<CodeItem>) -> Result<CodeItems, AllocError> {
    let mut seq = Seq::new(alloc);
    for item in list {
        seq.push(item)?;
    }
    Ok(seq)
}

/// A program whose main has this block.
pub(crate) fn program(functions: CodeItems, tasks: CodeItems, main: CodeBlock) -> CodeTree {
    CodeTree {
        functions,
        tasks,
        main,
    }
}

pub(crate) fn bind(line: u32, value: CodeExpr) -> CodeStmt {
    at(line, CodeStmtKind::Let { value })
}

pub(crate) fn assign(line: u32, place: u32, value: CodeExpr) -> CodeStmt {
    at(line, CodeStmtKind::Assign { place, value })
}

pub(crate) fn offer(line: u32, value: CodeExpr) -> CodeStmt {
    at(line, CodeStmtKind::Offer { value })
}

pub(crate) fn give_back(line: u32, value: CodeExpr) -> CodeStmt {
    at(line, CodeStmtKind::Return { value })
}

pub(crate) fn choose(line: u32, cond: CodeExpr, yes: CodeBlock, no: CodeBlock) -> CodeStmt {
    at(line, CodeStmtKind::If { cond, yes, no })
}

pub(crate) fn repeat(line: u32, from: CodeExpr, to: CodeExpr, body: CodeBlock) -> CodeStmt {
    at(line, CodeStmtKind::For { from, to, body })
}

pub(crate) fn start(line: u32, body: CodeBlock) -> CodeStmt {
    at(line, CodeStmtKind::Async { body })
}

pub(crate) fn finish(line: u32, body: CodeBlock) -> CodeStmt {
    at(line, CodeStmtKind::Finish { body })
}

pub(crate) fn collect(line: u32, kind: Collect, body: CodeBlock) -> CodeStmt {
    at(line, CodeStmtKind::LetFinish { kind, body })
}

pub(crate) fn call(line: u32, callee: u32, args: CodeExprs) -> CodeStmt {
    at(line, CodeStmtKind::LetCall { callee, args })
}

pub(crate) fn run(line: u32, callee: u32, args: CodeExprs) -> CodeStmt {
    at(line, CodeStmtKind::Run { callee, args })
}
