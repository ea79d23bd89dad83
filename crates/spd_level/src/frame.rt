// What is under way beneath the statements that run now, and how these have ended so far.

use spd_code::CodeBlock;

/// What is under way beneath what runs now. A frame that holds code says how many more calls may
/// be opened there.
#[derive(Drop)]
pub enum Frame<'a> {
    /// The statements of a block from `next` on. At its end only the first `floor` values stay.
    Block {
        block: &'a CodeBlock,
        next: u32,
        floor: usize,
        left: u32,
    },
    /// The turns of a loop from `at` on, up to but not with `end`.
    For {
        body: &'a CodeBlock,
        at: i64,
        end: i64,
        left: u32,
    },
    /// An async that runs inside, and the values behind it.
    Async {
        saved: Vec<i64>,
    },
    /// A call, and the values behind it. What comes back is a new value, or isn't kept.
    Call {
        saved: Vec<i64>,
        binds: bool,
    },
    /// The end of a job that is a call: what comes back is offered.
    Gift,
}

/// How what runs now has ended so far.
#[derive(Drop)]
pub enum Flow {
    /// It goes on.
    Fell,
    /// A `return` with its value.
    Back(i64),
    /// The code of a fault.
    Fault(u64),
}
