// A region by hand: which vertices there are, what each share is about, and what is owed to each finish.

use crate::given::{Given, nothing};
use crate::scripts::Books;
use spd_words::FinishKind;
use std::alloc::AllocError;

/// A vertex: its state, as its word has it, its finish, and the script of its body.
#[derive(Clone, Copy)]
pub struct Vertex {
    pub state: u32,
    pub finish: u32,
    pub name: u32,
}

/// A finish: its vertices that haven't ended, and, once it is open, the script of its first body.
#[derive(Clone, Copy)]
pub struct Finish {
    pub live: u64,
    pub name: Option<u32>,
}

/// What a share is about. A call has taken so many turns.
#[derive(Clone, Copy, Debug, PartialEq, Eq)]
pub enum Doing {
    Rests,
    /// Its body waits for the finish of this number, which it has yet to collect.
    Collects(u32),
    /// Its body has done so many acts.
    Acts(usize),
    Spawns {
        turns: u32,
        number: u32,
        left: u32,
        right: u32,
    },
    Chains {
        turns: u32,
        number: u32,
        kind: FinishKind,
        body: u32,
        rest: u32,
    },
    Signals(u32),
    /// It runs vertex 1.
    Ends,
}

/// A share: what it is about, and the finish and the script of the vertex that it runs.
#[derive(Clone, Copy)]
pub struct Seat {
    pub doing: Doing,
    pub finish: u32,
    pub name: u32,
}

/// The finish of vertex 1, which is of none.
pub const NO_FINISH: u32 = 8;

/// A region of up to 8 moves and 3 shares, whose make is done.
#[derive(Clone, Copy)]
pub struct Model {
    pub books: Books,
    pub drawn: u32,
    pub vertices: [Vertex; 16],
    pub finishes: [Finish; 8],
    pub seats: [Seat; 3],
    pub used: usize,
}

impl Model {
    /// Vertex 0 is ready, with the first script, and vertex 1 waits. Of the shares so many are used.
    pub fn new(books: Books, used: usize) -> Model {
        let none = Vertex {
            state: 0,
            finish: 0,
            name: 0,
        };
        let idle = Seat {
            doing: Doing::Rests,
            finish: 0,
            name: 0,
        };
        let closed = Finish {
            live: 0,
            name: None,
        };
        let mut model = Model {
            books,
            drawn: 1,
            vertices: [none; 16],
            finishes: [closed; 8],
            seats: [idle; 3],
            used,
        };
        model.store(0, 2, 0, 0);
        model.store(1, 1, NO_FINISH, 0);
        model.open(0, 0);
        model
    }

    /// The vertex of this number.
    pub fn vertex(&self, vertex: u32) -> Option<Vertex> {
        self.vertices.get(vertex as usize).copied()
    }

    /// Stores a vertex.
    pub fn store(&mut self, vertex: u32, state: u32, finish: u32, name: u32) {
        if let Some(v) = self.vertices.get_mut(vertex as usize) {
            v.state = state;
            v.finish = finish;
            v.name = name;
        }
    }

    /// Raises the state of a vertex.
    pub fn raise(&mut self, vertex: u32) {
        if let Some(v) = self.vertices.get_mut(vertex as usize) {
            v.state = v.state.saturating_add(1);
        }
    }

    /// Opens a finish, with one vertex, whose body follows this script.
    pub fn open(&mut self, finish: u32, name: u32) {
        if let Some(f) = self.finishes.get_mut(finish as usize) {
            f.live = 1;
            f.name = Some(name);
        }
    }

    /// How many vertices of the finish haven't ended, in the words of roots: twice the number.
    pub fn twice(&self, finish: u32) -> u64 {
        match self.finishes.get(finish as usize) {
            Some(f) => f.live.saturating_mul(2),
            None => 0,
        }
    }

    /// One vertex of the finish more.
    pub fn enter(&mut self, finish: u32) {
        if let Some(f) = self.finishes.get_mut(finish as usize) {
            f.live = f.live.saturating_add(1);
        }
    }

    /// One vertex of the finish less.
    pub fn leave(&mut self, finish: u32) {
        if let Some(f) = self.finishes.get_mut(finish as usize) {
            f.live = f.live.saturating_sub(1);
        }
    }

    /// The script of the first body of a finish, once it is open.
    pub fn opened(&self, finish: u32) -> Option<u32> {
        match self.finishes.get(finish as usize) {
            Some(f) => f.name,
            None => None,
        }
    }

    /// What bodies in slots and bodies at hand still owe to the finish, which is of this kind.
    pub fn debts(&self, finish: u32, kind: FinishKind) -> Given {
        let mut owed = self.slot_debts(finish, kind);
        for seat in self.seats.iter() {
            owed = owed.with(kind, self.seat_debts(*seat, finish, kind));
        }
        owed
    }

    /// What the bodies of vertices owe that aren't started.
    fn slot_debts(&self, finish: u32, kind: FinishKind) -> Given {
        let mut owed = nothing(kind);
        for vertex in self.vertices.iter() {
            if vertex.finish == finish && (vertex.state == 1 || vertex.state == 2) {
                owed = owed.with(kind, self.books.total(vertex.name));
            }
        }
        owed
    }

    /// What a share owes.
    fn seat_debts(&self, seat: Seat, finish: u32, kind: FinishKind) -> Given {
        let mine = seat.finish == finish;
        match seat.doing {
            Doing::Collects(_) if mine => self.books.total(seat.name),
            Doing::Acts(done) if mine => self.books.owed(seat.name, done),
            Doing::Spawns {
                turns,
                left,
                right,
                ..
            } if mine => {
                let right = self.books.total(right);
                if turns < 5 {
                    self.books.total(left).with(kind, right)
                } else {
                    right
                }
            }
            // The rest is at hand until it is stored, the body from the opening of its finish on.
            Doing::Chains { turns, rest, .. } if mine && turns < 4 => self.books.total(rest),
            Doing::Chains {
                turns,
                number,
                body,
                ..
            } if number == finish && turns >= 2 => { self.books.total(body) }
            _ => nothing(kind),
        }
    }

    /// Each deed that some share may do next: the next step of its vertex, or, where it runs none, the start
    /// of a vertex that is ready.
    pub fn deeds(&self, list: &mut Vec<(usize, Option<u32>)>) -> Result<(), AllocError> {
        list.clear();
        for (at, seat) in self.seats.iter().enumerate() {
            if at < self.used {
                match seat.doing {
                    Doing::Rests => self.starts_of(at, list)?,
                    Doing::Ends => {}
                    _ => list.push((at, None))?,
                }
            }
        }
        Ok(())
    }

    /// The starts that a share which rests may do.
    fn starts_of(&self, at: usize, list: &mut Vec<(usize, Option<u32>)>) -> Result<(), AllocError> {
        for vertex in 0..16u32 {
            if let Some(v) = self.vertex(vertex)
                && v.state == 2
            {
                list.push((at, Some(vertex)))?;
            }
        }
        Ok(())
    }
}
