// What a worker may do next, and what it answers.

use spd_fork::{Began, Piece, Turned};

/// A deed of one worker. A call's first turn is taken with its beginning.
#[derive(Clone, Copy, Debug, PartialEq, Eq)]
pub enum Deed {
    Start(u32),
    Chain(Piece, Piece),
    Spawn(Piece, Piece),
    Signal,
    /// The next turn of the call under way.
    Turn,
}

/// What a deed answers.
#[derive(Clone, Copy, Debug, PartialEq, Eq)]
pub enum Answer {
    Began(Began),
    Turned(Turned),
}

/// How pieces of more than one number are cut.
#[derive(Clone, Copy, Debug, PartialEq, Eq)]
pub enum Forks {
    Spawns,
    Chains,
    /// A piece whose first number is even chains.
    Both,
}

impl Forks {
    /// What a vertex does that runs this piece: it cuts the piece in two, or ends.
    pub fn deed(self, piece: Piece) -> Deed {
        if piece.size() < 2 {
            return Deed::Signal;
        }
        let (body, rest) = piece.halves();
        let chains = match self {
            Forks::Spawns => false,
            Forks::Chains => true,
            Forks::Both => piece.low % 2 == 0,
        };
        if chains {
            Deed::Chain(body, rest)
        } else {
            Deed::Spawn(body, rest)
        }
    }
}
