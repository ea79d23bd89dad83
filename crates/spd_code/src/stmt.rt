// Statements and blocks of a code.

use crate::expr::{CodeExpr, CodeExprs, CodeParts};
use spd_list::Seq;
use spd_syntax::Collect;

/// What a statement does. A name that it binds is the place behind those that are visible; a function
/// or a task is its number.
#[cycle(code)]
#[derive(Drop)]
pub enum CodeStmtKind {
    Let {
        value: CodeExpr,
    },
    LetCall {
        callee: u32,
        args: CodeExprs,
    },
    LetFinish {
        kind: Collect,
        body: CodeBlock,
    },
    Assign {
        place: u32,
        value: CodeExpr,
    },
    If {
        cond: CodeExpr,
        yes: CodeBlock,
        no: CodeBlock,
    },
    For {
        from: CodeExpr,
        to: CodeExpr,
        body: CodeBlock,
    },
    Async {
        body: CodeBlock,
    },
    Finish {
        body: CodeBlock,
    },
    Offer {
        value: CodeExpr,
    },
    Run {
        callee: u32,
        args: CodeExprs,
    },
    Return {
        value: CodeExpr,
    },
    Print {
        parts: CodeParts,
    },
}

/// A statement, with the line of its first token.
#[cycle(code)]
#[derive(Drop)]
pub struct CodeStmt {
    pub line: u32,
    /// The number of the first block that begins in this statement or behind it.
    pub next_block: u32,
    pub what: CodeStmtKind,
}

/// The statements of a block, in order.
pub type CodeStmts = Seq<CodeStmt>;

/// A block. The blocks of a program are numbered from 0 by the opening braces of its canonical text;
/// an `else` without statements has no brace there and so no number.
#[cycle(code)]
#[derive(Drop)]
pub struct CodeBlock {
    pub number: Option<u32>,
    pub stmts: CodeStmts,
}
