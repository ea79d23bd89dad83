// The tree of a program.

use spd_list::Seq;
use sqlite_items::Boxed;

/// The bytes of a name.
pub type Name = Seq<u8>;

/// The bytes of a string, without its quotes and the backslashes of its escapes.
pub type Lit = Seq<u8>;

/// The names of parameters.
pub type Names = Seq<Name>;

/// An operator before an operand.
#[derive(Clone, Copy, Debug, PartialEq, Eq)]
pub enum UnOp {
    Neg,
    Not,
}

/// An operator between two operands.
#[derive(Clone, Copy, Debug, PartialEq, Eq)]
pub enum BinOp {
    Or,
    And,
    Eq,
    Ne,
    Lt,
    Le,
    Gt,
    Ge,
    Add,
    Sub,
    Mul,
    Div,
    Rem,
}

/// An expression.
#[derive(Drop)]
pub enum Expr {
    Number(i64),
    Var(Name),
    Unary(UnOp, Boxed<Expr>),
    Binary(BinOp, Boxed<Expr>, Boxed<Expr>),
    Len(Name),
    Index(Name, Boxed<Expr>),
    Size(Name, Boxed<Expr>),
    At(Name, Boxed<Expr>, Boxed<Expr>),
    Same(Name, Boxed<Expr>, Lit),
    Begins(Name, Boxed<Expr>, Lit),
}

/// The arguments of a call.
pub type Exprs = Seq<Expr>;

/// A part of a `print`: a string, or an expression whose value is printed.
#[derive(Drop)]
pub enum PrintPart {
    Lit(Lit),
    Value(Expr),
}

/// The parts of a `print`, of which there is at least one.
pub type Parts = Seq<PrintPart>;

/// What a finish with a value makes of its offers.
#[derive(Clone, Copy, Debug, PartialEq, Eq)]
pub enum Collect {
    Sum,
    Least,
    Greatest,
}

/// What a statement does.
#[cycle(stmt)]
#[derive(Drop)]
pub enum StmtKind {
    Let {
        name: Name,
        value: Expr,
    },
    LetCall {
        name: Name,
        callee: Name,
        args: Exprs,
    },
    LetFinish {
        name: Name,
        kind: Collect,
        body: Block,
    },
    Assign {
        name: Name,
        value: Expr,
    },
    If {
        cond: Expr,
        yes: Block,
        no: Block,
    },
    For {
        name: Name,
        from: Expr,
        to: Expr,
        body: Block,
    },
    Async {
        body: Block,
    },
    Finish {
        body: Block,
    },
    Offer {
        value: Expr,
    },
    Run {
        callee: Name,
        args: Exprs,
    },
    Return {
        value: Expr,
    },
    Print {
        parts: Parts,
    },
}

/// A statement, with the line of its first token.
#[cycle(stmt)]
#[derive(Drop)]
pub struct Stmt {
    pub line: u32,
    pub what: StmtKind,
}

/// The statements between two braces.
pub type Block = Seq<Stmt>;

/// What an item declares.
#[derive(Drop)]
pub enum ItemKind {
    IntColumn {
        name: Name,
        file: Lit,
        field: Lit,
    },
    TextColumn {
        name: Name,
        file: Lit,
        field: Lit,
    },
    Lines {
        name: Name,
        file: Lit,
    },
    Function {
        name: Name,
        params: Names,
        body: Block,
    },
    Task {
        name: Name,
        params: Names,
        body: Block,
    },
    Main {
        body: Block,
    },
}

/// An item, with the line of its first token.
#[derive(Drop)]
pub struct Item {
    pub line: u32,
    pub what: ItemKind,
}

/// The items of a program, in the order of its text.
pub type Items = Seq<Item>;

/// A program, with the line of its last token, or 1 where it has none.
#[derive(Drop)]
pub struct Program {
    pub items: Items,
    pub last_line: u32,
}
