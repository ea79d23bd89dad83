// What each deed of a worker must answer, by the model, and what it changes there.

use crate::deeds::{Answer, Deed};
use crate::model::{Doing, Model, Seat};
use spd_fork::{Began, Piece, Turned};
use std::alloc::AllocError;

impl Model {
    /// Each deed that some worker may do next, with the worker's number: one that rests may start each ready vertex.
    pub fn deeds(&self, list: &mut Vec<(usize, Deed)>) -> Result<(), AllocError> {
        list.clear();
        for (at, seat) in self.seats.iter().enumerate() {
            match seat.doing {
                Doing::Rests => self.starts_of(at, list)?,
                Doing::Works if seat.spent => list.push((at, Deed::Signal))?,
                Doing::Works => list.push((at, self.forks.deed(seat.piece)))?,
                Doing::Ends => {}
                _ => list.push((at, Deed::Turn))?,
            }
        }
        Ok(())
    }

    /// The starts that a worker which rests may do.
    fn starts_of(&self, at: usize, list: &mut Vec<(usize, Deed)>) -> Result<(), AllocError> {
        for vertex in 0..self.size() {
            if self.state(vertex) == 2 {
                list.push((at, Deed::Start(vertex)))?;
            }
        }
        Ok(())
    }

    /// Does the deed, and gives what it must answer. `None` where the worker may not do it.
    pub fn play(&mut self, at: usize, deed: Deed) -> Option<Answer> {
        let mut seat = self.seats.get(at).copied()?;
        let answer = match (seat.doing, deed) {
            (Doing::Rests, Deed::Start(vertex)) => Answer::Began(self.start(&mut seat, vertex)),
            (Doing::Works, Deed::Chain(body, rest)) => {
                Answer::Turned(self.chain(&mut seat, 0, 0, body, rest))
            }
            (Doing::Works, Deed::Spawn(body, rest)) => {
                Answer::Turned(self.spawn(&mut seat, 0, 0, body, rest))
            }
            (Doing::Works, Deed::Signal) => Answer::Turned(self.signal(&mut seat, 0)),
            (
                Doing::Chains {
                    turns,
                    number,
                    body,
                    rest,
                },
                Deed::Turn,
            ) => { Answer::Turned(self.chain(&mut seat, turns, number, body, rest)) }
            (
                Doing::Spawns {
                    turns,
                    number,
                    body,
                    rest,
                },
                Deed::Turn,
            ) => { Answer::Turned(self.spawn(&mut seat, turns, number, body, rest)) }
            (Doing::Signals { turns }, Deed::Turn) => Answer::Turned(self.signal(&mut seat, turns)),
            _ => return None,
        };
        if let Some(old) = self.seats.get_mut(at) {
            *old = seat;
        }
        Some(answer)
    }

    fn start(&mut self, seat: &mut Seat, vertex: u32) -> Began {
        let Some(v) = self.vertices.get_mut(vertex as usize) else {
            return Began::Taken { state: 0 };
        };
        if v.state != 2 {
            return Began::Taken { state: v.state };
        }
        v.state = 3;
        v.starts = v.starts.saturating_add(1);
        if vertex == 1 {
            seat.doing = Doing::Ends;
            return Began::End;
        }
        seat.doing = Doing::Works;
        seat.finish = v.finish;
        seat.piece = v.piece;
        seat.spent = false;
        Began::Piece(v.piece)
    }

    /// No move was left: the vertex goes on, and only ends now.
    fn fill(&mut self, seat: &mut Seat, drawn: u64, body: Piece, rest: Piece) -> Turned {
        seat.doing = Doing::Works;
        seat.spent = true;
        seat.full = true;
        Turned::Full { drawn, body, rest }
    }

    fn chain(
        &mut self,
        seat: &mut Seat,
        turns: u32,
        number: u32,
        body: Piece,
        rest: Piece,
    ) -> Turned {
        let mut number = number;
        match turns {
            0 => {
                let found = self.draw(seat.full);
                if found >= self.moves {
                    return self.fill(seat, u64::from(found), body, rest);
                }
                number = found;
            }
            1 => self.enter(number),
            2 => {}
            3 => self.store(
                number.saturating_mul(2).saturating_add(1),
                1,
                seat.finish,
                rest,
            ),
            _ => {
                self.store(number.saturating_mul(2), 2, number, body);
                seat.doing = Doing::Rests;
                return Turned::Chained {
                    body: number.saturating_mul(2),
                    rest: number.saturating_mul(2).saturating_add(1),
                };
            }
        }
        let turns = turns.saturating_add(1);
        seat.doing = Doing::Chains {
            turns,
            number,
            body,
            rest,
        };
        Turned::More
    }

    fn spawn(
        &mut self,
        seat: &mut Seat,
        turns: u32,
        number: u32,
        body: Piece,
        rest: Piece,
    ) -> Turned {
        let mut number = number;
        match turns {
            0 => {
                let found = self.draw(seat.full);
                if found >= self.moves {
                    return self.fill(seat, u64::from(found), body, rest);
                }
                number = found;
            }
            1 => self.enter(seat.finish),
            2 | 3 => {}
            4 => self.store(number.saturating_mul(2), 2, seat.finish, body),
            _ => {
                let right = number.saturating_mul(2).saturating_add(1);
                self.store(right, 2, seat.finish, rest);
                seat.doing = Doing::Rests;
                return Turned::Spawned {
                    left: number.saturating_mul(2),
                    right,
                };
            }
        }
        let turns = turns.saturating_add(1);
        seat.doing = Doing::Spawns {
            turns,
            number,
            body,
            rest,
        };
        Turned::More
    }

    fn signal(&mut self, seat: &mut Seat, turns: u32) -> Turned {
        let finish = seat.finish;
        let woke = match turns {
            0 => {
                seat.doing = Doing::Signals { turns: 1 };
                return Turned::More;
            }
            1 => {
                if self.leave(finish) {
                    seat.doing = Doing::Signals { turns: 2 };
                    return Turned::More;
                }
                None
            }
            _ => Some(self.wake(finish)),
        };
        seat.doing = Doing::Rests;
        Turned::Signalled { woke }
    }
}
