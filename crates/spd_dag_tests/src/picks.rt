// Who picks the next deed of a schedule.

use std::alloc::{AllocError, Global};

/// The choices of one schedule: which of how many deeds was taken at each step.
#[derive(Drop)]
pub struct Path {
    taken: Vec<(usize, usize)>,
    at: usize,
}

impl Path {
    /// The path of all first choices.
    pub fn new(alloc: Global) -> Path {
        Path {
            taken: Vec::new(alloc),
            at: 0,
        }
    }

    /// The next choice among so many: the one of the path, or the first at its end.
    ///
    /// The error comes where there is no memory for one choice more.
    fn choose(&mut self, of: usize) -> Result<usize, AllocError> {
        let at = self.at;
        self.at = at.saturating_add(1);
        if let Some((choice, _)) = self.taken.get(at).copied() {
            return Ok(choice);
        }
        self.taken.push((0, of))?;
        Ok(0)
    }

    /// Goes on to the next path; says whether there is one.
    fn advance(&mut self) -> Result<bool, AllocError> {
        self.at = 0;
        for _ in 0..u64::MAX {
            let Some((choice, of)) = self.taken.pop() else {
                return Ok(false);
            };
            let next = choice.saturating_add(1);
            if next < of {
                self.taken.push((next, of))?;
                return Ok(true);
            }
        }
        Ok(false)
    }
}

/// Who picks the next deed: a path of choices, or numbers drawn from a seed.
#[derive(Drop)]
pub enum Picks {
    Path(Path),
    Seed(u64),
}

impl Picks {
    /// The next choice among so many, 0 where there is none.
    ///
    /// The error comes where there is no memory to note it.
    pub fn pick(&mut self, of: usize) -> Result<usize, AllocError> {
        match self {
            Picks::Path(path) => path.choose(of),
            Picks::Seed(seed) => {
                *seed = seed
                    .wrapping_mul(6_364_136_223_846_793_005)
                    .wrapping_add(1_442_695_040_888_963_407);
                let high = (*seed / 4_294_967_296) as usize;
                if of == 0 { Ok(0) } else { Ok(high % of) }
            }
        }
    }

    /// Goes on to the next schedule; says whether there is one. A seed gives one alone.
    ///
    /// The error comes where there is no memory to note it.
    pub fn advance(&mut self) -> Result<bool, AllocError> {
        match self {
            Picks::Path(path) => path.advance(),
            Picks::Seed(_) => Ok(false),
        }
    }
}
