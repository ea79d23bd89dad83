// Steps as text.

use crate::steps::Steps;
use spd_words::FinishKind;
use std::alloc::{AllocError, Global};

/// An async or a finish of which the end was read, and what is behind it.
#[derive(Drop)]
struct Open {
    /// `None` for an async.
    kind: Option<FinishKind>,
    catches: bool,
    rest: Steps,
}

/// What was read of a text from its end.
#[derive(Drop)]
struct Read {
    steps: Steps,
    open: Vec<Open>,
    /// What stands behind the next step.
    is_fault: bool,
    kind: Option<FinishKind>,
    catches: bool,
}

/// The steps of a text: `5` offers 5, `5!` is the fault 5, `(..)` an async, `(..)S` a finish, by its
/// kind's first letter, `(..)S?` one that passes a fault over, and `~` is want of memory.
pub fn steps_of(alloc: Global, text: &[u8]) -> Result<Steps, AllocError> {
    let mut read = Read {
        steps: Steps::Over,
        open: Vec::new(alloc),
        is_fault: false,
        kind: None,
        catches: false,
    };
    for byte in text.iter().rev() {
        read = read.before(alloc, *byte)?;
    }
    Ok(read.steps)
}

impl Read {
    /// With this byte before it.
    fn before(self, alloc: Global, byte: u8) -> Result<Read, AllocError> {
        let mut read = self;
        match byte {
            b'0'..=b'9' => return read.number(alloc, byte - b'0'),
            b'(' => return read.begin(alloc),
            b')' => return read.end(),
            b'~' => read.steps = Steps::NoMemory,
            b'!' => read.is_fault = true,
            b'?' => read.catches = true,
            b'P' => read.kind = Some(FinishKind::Plain),
            b'S' => read.kind = Some(FinishKind::Sum),
            b'L' => read.kind = Some(FinishKind::Least),
            b'G' => read.kind = Some(FinishKind::Greatest),
            _ => {}
        }
        Ok(read)
    }

    fn number(self, alloc: Global, number: u8) -> Result<Read, AllocError> {
        let steps = if self.is_fault {
            Steps::fault(alloc, u64::from(number), self.steps)?
        } else {
            Steps::offer(alloc, i64::from(number), self.steps)?
        };
        Ok(Read {
            steps,
            open: self.open,
            is_fault: false,
            kind: None,
            catches: false,
        })
    }

    fn end(self) -> Result<Read, AllocError> {
        let mut open = self.open;
        open.push(Open {
            kind: self.kind,
            catches: self.catches,
            rest: self.steps,
        })?;
        Ok(Read {
            steps: Steps::Over,
            open,
            is_fault: false,
            kind: None,
            catches: false,
        })
    }

    fn begin(self, alloc: Global) -> Result<Read, AllocError> {
        let mut all = self.open;
        let Some(open) = all.pop() else {
            return Ok(Read {
                steps: self.steps,
                open: all,
                is_fault: false,
                kind: None,
                catches: false,
            });
        };
        let steps = match open.kind {
            None => Steps::fork(alloc, self.steps, open.rest)?,
            Some(kind) => Steps::finish(alloc, kind, open.catches, self.steps, open.rest)?,
        };
        Ok(Read {
            steps,
            open: all,
            is_fault: false,
            kind: None,
            catches: false,
        })
    }
}
