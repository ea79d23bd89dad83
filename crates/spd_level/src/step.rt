// What a turn of a level met.

use spd_code::{CodeBlock, CodeItem};
use spd_words::FinishKind;

/// A finish statement that was met.
#[derive(Drop)]
pub struct FinishAt<'a> {
    pub kind: FinishKind,
    /// The gift is bound to a new name.
    pub binds: bool,
    /// The line of the statement, from 1.
    pub line: u32,
    /// How many more calls may be opened in its block.
    pub left: u32,
    pub body: &'a CodeBlock,
}

/// A call of a function or a run of a task that was met, with the values of its arguments.
#[derive(Drop)]
pub struct CallAt<'a> {
    /// What comes back is bound to a new name.
    pub binds: bool,
    /// How many more calls may be opened inside.
    pub left: u32,
    pub item: &'a CodeItem,
    pub args: Vec<i64>,
}

/// What a turn of a level met.
#[derive(Drop)]
pub enum Step<'a> {
    /// Nothing that concerns anyone else.
    Quiet,
    Offer(i64),
    /// The code of a fault of an async that ran inside.
    Fault(u64),
    /// What a print writes, without the end of line.
    Line(Vec<u8>),
    Async { body: &'a CodeBlock, left: u32 },
    Finish(FinishAt<'a>),
    Call(CallAt<'a>),
    /// A call that ended where it stands: too deep, or of no item.
    Called,
    /// No frame is left.
    Over,
}
