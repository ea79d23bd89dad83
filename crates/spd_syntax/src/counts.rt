// What is counted of tokens, one after another, for the limits that know no tree.

/// What the next name would be.
#[derive(Clone, Copy, Debug, PartialEq, Eq)]
pub enum NameRole {
    /// None of those that are counted.
    Plain,
    /// That of a function or a task.
    Callable,
    /// That of a parameter.
    Parameter,
    /// One that a `let` or a `for` binds.
    Bound,
    /// That of a column or of lines.
    Column,
}

/// What was counted of the tokens so far.
#[derive(Clone, Copy, Debug, PartialEq, Eq)]
pub struct Counts {
    /// What the next name would be.
    pub role: NameRole,
    /// The functions and tasks.
    pub callables: u32,
    /// The parameters and the names that a `let` or a `for` binds, of the item at the end.
    pub names: u32,
    /// The columns and lines items.
    pub columns: u32,
    /// The operators since the last `;`, `{` or `}`.
    pub operators: u32,
}
