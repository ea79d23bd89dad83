// A region as a plain list of vertices and of counts: what each deed must answer, and what it changes.

use crate::deeds::Forks;
use spd_fork::{Piece, PieceStage};
use std::alloc::{AllocError, Global};

/// A vertex: its state, as its word has it, its finish and its piece, and how often it was started.
#[derive(Clone, Copy)]
pub(crate) struct Vertex {
    pub state: u32,
    pub finish: u32,
    pub piece: Piece,
    pub starts: u32,
}

/// A finish: its vertices that haven't ended, and how often the vertex that waits for it was woken.
#[derive(Clone, Copy)]
pub(crate) struct Finish {
    pub live: u32,
    pub wakes: u32,
}

/// What a worker is about. A call has taken so many turns, and has the number of its move.
#[derive(Clone, Copy)]
pub(crate) enum Doing {
    Rests,
    Works,
    Chains {
        turns: u32,
        number: u32,
        body: Piece,
        rest: Piece,
    },
    Spawns {
        turns: u32,
        number: u32,
        body: Piece,
        rest: Piece,
    },
    Signals {
        turns: u32,
    },
    Ends,
}

/// A worker: what it is about, the vertex that it runs with its finish and its piece, whether that
/// vertex found no move left, and whether the worker ever did.
#[derive(Clone, Copy)]
pub(crate) struct Seat {
    pub doing: Doing,
    pub finish: u32,
    pub piece: Piece,
    pub spent: bool,
    pub full: bool,
}

/// A region of this many moves, with its workers.
#[derive(Drop)]
pub struct Model {
    pub(crate) forks: Forks,
    pub(crate) moves: u32,
    pub(crate) drawn: u32,
    pub(crate) vertices: Vec<Vertex>,
    pub(crate) finishes: Vec<Finish>,
    pub(crate) seats: Vec<Seat>,
}

const NOTHING: Piece = Piece {
    low: 0,
    high: 0,
    stage: PieceStage::Going,
};

impl Model {
    /// A region whose make is done: vertex 0 is ready, with this piece, and vertex 1 waits. No worker runs anything.
    pub fn new(
        alloc: Global,
        forks: Forks,
        moves: u32,
        piece: Piece,
        seats: usize,
    ) -> Result<Model, AllocError> {
        let none = Vertex {
            state: 0,
            finish: 0,
            piece: NOTHING,
            starts: 0,
        };
        let idle = Seat {
            doing: Doing::Rests,
            finish: 0,
            piece: NOTHING,
            spent: false,
            full: false,
        };
        let closed = Finish { live: 0, wakes: 0 };
        let mut model = Model {
            forks,
            moves,
            drawn: 1,
            vertices: Vec::from_elem(alloc, none, moves as usize * 2)?,
            finishes: Vec::from_elem(alloc, closed, moves as usize)?,
            seats: Vec::from_elem(alloc, idle, seats)?,
        };
        model.store(0, 2, 0, piece);
        model.store(1, 1, 0, NOTHING);
        model.enter(0);
        Ok(model)
    }

    /// The state of the vertex.
    pub fn state(&self, vertex: u32) -> u32 {
        match self.vertices.get(vertex as usize) {
            Some(v) => v.state,
            None => 0,
        }
    }

    /// How often the vertex was started.
    pub fn starts(&self, vertex: u32) -> u32 {
        match self.vertices.get(vertex as usize) {
            Some(v) => v.starts,
            None => 0,
        }
    }

    /// How often the vertex that waits for the finish was woken.
    pub fn wakes(&self, finish: u32) -> u32 {
        match self.finishes.get(finish as usize) {
            Some(f) => f.wakes,
            None => 0,
        }
    }

    /// The moves that were drawn, those that found none left among them.
    pub fn drawn(&self) -> u32 {
        self.drawn
    }

    /// How many vertices the region may have.
    pub fn size(&self) -> u32 {
        self.moves.saturating_mul(2)
    }

    /// Stores a vertex.
    pub(crate) fn store(&mut self, vertex: u32, state: u32, finish: u32, piece: Piece) {
        if let Some(v) = self.vertices.get_mut(vertex as usize) {
            v.state = state;
            v.finish = finish;
            v.piece = piece;
        }
    }

    /// One vertex of the finish more.
    pub(crate) fn enter(&mut self, finish: u32) {
        if let Some(f) = self.finishes.get_mut(finish as usize) {
            f.live = f.live.saturating_add(1);
        }
    }

    /// One vertex of the finish less; says whether it was the last.
    pub(crate) fn leave(&mut self, finish: u32) -> bool {
        match self.finishes.get_mut(finish as usize) {
            Some(f) => {
                f.live = f.live.saturating_sub(1);
                f.live == 0
            }
            None => false,
        }
    }

    /// Makes the vertex that waits for the finish ready.
    pub(crate) fn wake(&mut self, finish: u32) -> u32 {
        let vertex = finish.saturating_mul(2).saturating_add(1);
        if let Some(v) = self.vertices.get_mut(vertex as usize) {
            v.state = v.state.saturating_add(1);
        }
        if let Some(f) = self.finishes.get_mut(finish as usize) {
            f.wakes = f.wakes.saturating_add(1);
        }
        vertex
    }

    /// Draws a move: a worker that once found none left only looks how many were drawn.
    pub(crate) fn draw(&mut self, full: bool) -> u32 {
        let found = self.drawn;
        if !full {
            self.drawn = found.saturating_add(1);
        }
        found
    }
}
