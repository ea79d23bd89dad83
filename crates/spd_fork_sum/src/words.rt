// What the words of the program ask for.

use std::alloc::Alloc;
use std::env;
use std::rt::Env;

/// What the program's words may be, for the line that refuses others.
pub const ALLOWED: &str = "no words, or GRAIN, from 1 to 4294967295, and THREADS, 1 or 2";

/// How many threads work.
#[derive(Clone, Copy, Debug, PartialEq, Eq)]
pub enum Crew {
    One,
    Two,
}

/// How the numbers are summed.
#[derive(Clone, Copy, Debug, PartialEq, Eq)]
pub struct Options {
    /// The size of a piece that isn't cut.
    pub grain: u32,
    pub crew: Crew,
}

/// What is done where there are no words.
const NO_WORDS: Options = Options {
    grain: 1000,
    crew: Crew::Two,
};

/// What the words behind the program's name ask for. `None` where they are none of the allowed ones.
pub fn asked_options<R: Env + Alloc>(rt: &R) -> Option<Options> {
    let mut words = env::args(rt).ok()?;
    let _name = words.next();
    let Some(grain) = words.next() else {
        return Some(NO_WORDS);
    };
    let crew = words.next()?;
    if words.next().is_some() {
        return None;
    }
    Some(Options {
        grain: grain_of(&grain)?,
        crew: crew_of(&crew)?,
    })
}

/// The size that a word gives. A grain of 0 would cut a piece of one number into none and itself.
fn grain_of(word: &str) -> Option<u32> {
    match word.parse::<u32>() {
        Ok(grain) if grain > 0 => Some(grain),
        _ => None,
    }
}

fn crew_of(word: &str) -> Option<Crew> {
    match word {
        "1" => Some(Crew::One),
        "2" => Some(Crew::Two),
        _ => None,
    }
}
