// Expressions of a code.

use spd_list::Seq;
use spd_syntax::{BinOp, Lit, UnOp};
use sqlite_items::Boxed;

/// An expression. A variable is the place of its value among those of the names that are visible, and
/// a column its number.
#[derive(Drop)]
pub enum CodeExpr {
    Number(i64),
    Var(u32),
    Unary(UnOp, Boxed<CodeExpr>),
    Binary(BinOp, Boxed<CodeExpr>, Boxed<CodeExpr>),
    Len(u32),
    Index(u32, Boxed<CodeExpr>),
    Size(u32, Boxed<CodeExpr>),
    At(u32, Boxed<CodeExpr>, Boxed<CodeExpr>),
    Same(u32, Boxed<CodeExpr>, Lit),
    Begins(u32, Boxed<CodeExpr>, Lit),
}

/// The arguments of a call.
pub type CodeExprs = Seq<CodeExpr>;

/// A part of a `print`: a string, or an expression whose value is printed.
#[derive(Drop)]
pub enum CodePrintPart {
    Lit(Lit),
    Value(CodeExpr),
}

/// The parts of a `print`.
pub type CodeParts = Seq<CodePrintPart>;
