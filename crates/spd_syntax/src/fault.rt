// What is wrong with tokens that spell no program within the limits.

use thiserror::Error;

/// The kind of a fault of tokens.
#[derive(Clone, Copy, Debug, PartialEq, Eq, Error)]
pub enum ParseKind {
    /// The tokens before it begin a program, and those with it begin none.
    #[error("a token that can't stand here")]
    Expected,
    #[error("a number above 9223372036854775807")]
    Literal,
    #[error("a bracket where 32 are open")]
    TooDeep,
    /// The 257th function or task, the 65th name of an item, the 17th column or lines item, or the 1,001st operator
    /// with no `;`, `{` or `}` between.
    #[error("one name or operator too many")]
    TooMany,
    #[error("out of memory")]
    NoMemory,
}

/// The first fault of tokens, with its line, counted from 1.
#[derive(Clone, Copy, Debug, PartialEq, Eq, Error)]
#[error("line {line}: {kind}")]
pub struct ParseFault {
    pub line: u32,
    pub kind: ParseKind,
}
