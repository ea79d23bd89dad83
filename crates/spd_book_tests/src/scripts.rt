// What bodies do, and what they give.

use crate::given::{Given, fault, nothing, value};
use spd_words::{FinishKind, NO_FAULT};

/// What a body does next. A script is named by its place in a table, and names later ones alone.
#[derive(Clone, Copy, Debug, PartialEq, Eq)]
pub enum Act {
    Offer(i64),
    Fault(u64),
    /// It becomes two bodies, which go on beside each other.
    Spawn(u32, u32),
    /// It becomes the body of a finish of this kind, and the one that waits for that.
    Finish(FinishKind, u32, u32),
    /// It offers what it has collected of the finish of this body.
    PassGift(u32),
    /// It puts the code that it has collected of the finish of this body, where there is one.
    PassFault(u32),
    Over,
}

/// How many acts a script has, the last ones `Over` where it has fewer.
pub const ACTS: usize = 3;

/// What a body does, for a finish of this kind.
#[derive(Clone, Copy)]
pub struct Script {
    pub kind: FinishKind,
    pub acts: [Act; 3],
}

/// The most scripts of a table.
pub const MOST_SCRIPTS: u32 = 8;

/// The scripts of a region, of which the first is that of its make, with what each gives to its finish.
#[derive(Clone, Copy)]
pub struct Books {
    scripts: [Script; 8],
    totals: [Given; 8],
}

impl Books {
    /// The books of these scripts.
    pub fn new(scripts: [Script; 8]) -> Books {
        let mut books = Books {
            scripts,
            totals: [value(0); 8],
        };
        for done in 1..MOST_SCRIPTS + 1 {
            let name = MOST_SCRIPTS.saturating_sub(done);
            let total = books.owed(name, 0);
            if let Some(given) = books.totals.get_mut(name as usize) {
                *given = total;
            }
        }
        books
    }

    /// The kind of the finish that the script gives to.
    pub fn kind(&self, name: u32) -> FinishKind {
        match self.scripts.get(name as usize) {
            Some(script) => script.kind,
            None => FinishKind::Plain,
        }
    }

    /// The act of a script that has done so many.
    pub fn act(&self, name: u32, done: usize) -> Act {
        match self.scripts.get(name as usize) {
            Some(script) => script.acts.get(done).copied().unwrap_or(Act::Over),
            None => Act::Over,
        }
    }

    /// How many acts are done once those are passed over that put no code.
    pub fn passed(&self, name: u32, done: usize) -> usize {
        for next in done..ACTS {
            match self.act(name, next) {
                Act::PassFault(body) if self.total(body).code == NO_FAULT => {}
                _ => return next,
            }
        }
        ACTS
    }

    /// What the script gives in all.
    pub fn total(&self, name: u32) -> Given {
        match self.totals.get(name as usize) {
            Some(given) => *given,
            None => value(0),
        }
    }

    /// What the script still gives once it has done so many acts.
    pub fn owed(&self, name: u32, done: usize) -> Given {
        let kind = self.kind(name);
        let mut owed = nothing(kind);
        for next in done..ACTS {
            owed = owed.with(kind, self.gives(kind, self.act(name, next)));
        }
        owed
    }

    /// What an act gives to a finish of this kind, with all that comes of it.
    fn gives(&self, kind: FinishKind, act: Act) -> Given {
        match act {
            Act::Offer(gift) => value(gift),
            Act::Fault(code) => fault(kind, code),
            Act::Spawn(left, right) => self.total(left).with(kind, self.total(right)),
            Act::Finish(_, _, rest) => self.total(rest),
            Act::PassGift(body) => value(self.total(body).gift),
            Act::PassFault(body) => fault(kind, self.total(body).code),
            Act::Over => nothing(kind),
        }
    }
}
