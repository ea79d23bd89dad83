// The next step of a share, by the model: what it must answer, and what it changes there.

use crate::given::Given;
use crate::model::{Doing, Model, Seat};
use crate::scripts::Act;
use spd_rule_tests::Turn;
use spd_words::FinishKind;

/// A step of a share.
#[derive(Clone, Copy, Debug)]
pub enum Step {
    /// The start of this vertex, which is ready.
    Start(u32),
    /// A look at what this finish has got, which is this.
    Collect(u32, FinishKind, Given),
    /// One that answers this, where it is known.
    Take(Turn, Option<u64>),
}

impl Model {
    /// Does the next step of a share. `None` where it has none.
    pub fn step(&mut self, at: usize, vertex: Option<u32>) -> Option<Step> {
        let mut seat = self.seats.get(at).copied()?;
        let step = match seat.doing {
            Doing::Rests => self.start(&mut seat, vertex?)?,
            Doing::Collects(finish) => self.collect(&mut seat, finish)?,
            Doing::Acts(done) => self.act(&mut seat, done),
            Doing::Spawns {
                turns,
                number,
                left,
                right,
            } => self.spawn(&mut seat, turns, number, left, right),
            Doing::Chains {
                turns,
                number,
                kind,
                body,
                rest,
            } => self.chain(&mut seat, turns, number, kind, body, rest),
            Doing::Signals(turns) => self.signal(&mut seat, turns),
            Doing::Ends => return None,
        };
        if let Some(old) = self.seats.get_mut(at) {
            *old = seat;
        }
        Some(step)
    }

    /// A vertex other than 1 whose number is odd, and that waited, waits for the finish of half its number.
    fn start(&mut self, seat: &mut Seat, vertex: u32) -> Option<Step> {
        let started = self.vertex(vertex)?;
        self.raise(vertex);
        seat.finish = started.finish;
        seat.name = started.name;
        let waited = self.opened(vertex / 2).is_some() && vertex % 2 == 1;
        seat.doing = if vertex == 1 {
            Doing::Ends
        } else if waited {
            Doing::Collects(vertex / 2)
        } else {
            Doing::Acts(self.books.passed(started.name, 0))
        };
        Some(Step::Start(vertex))
    }

    fn collect(&mut self, seat: &mut Seat, finish: u32) -> Option<Step> {
        let body = self.opened(finish)?;
        seat.doing = Doing::Acts(self.books.passed(seat.name, 0));
        let kind = self.books.kind(body);
        Some(Step::Collect(finish, kind, self.books.total(body)))
    }

    /// The next act of the script.
    fn act(&mut self, seat: &mut Seat, done: usize) -> Step {
        let kind = self.books.kind(seat.name);
        let next = self.books.passed(seat.name, done.saturating_add(1));
        match self.books.act(seat.name, done) {
            Act::Offer(gift) => {
                seat.doing = Doing::Acts(next);
                Step::Take(Turn::Offer(kind, gift), Some(0))
            }
            Act::PassGift(body) => {
                seat.doing = Doing::Acts(next);
                Step::Take(Turn::Offer(kind, self.books.total(body).gift), Some(0))
            }
            Act::Fault(code) => {
                seat.doing = Doing::Acts(next);
                Step::Take(Turn::Fault(code), Some(0))
            }
            Act::PassFault(body) => {
                seat.doing = Doing::Acts(next);
                Step::Take(Turn::Fault(self.books.total(body).code), Some(0))
            }
            Act::Spawn(left, right) => self.spawn(seat, 0, self.drawn, left, right),
            Act::Finish(kind, body, rest) => self.chain(seat, 0, self.drawn, kind, body, rest),
            Act::Over => self.signal(seat, 0),
        }
    }

    fn spawn(&mut self, seat: &mut Seat, turns: u32, number: u32, left: u32, right: u32) -> Step {
        seat.doing = Doing::Spawns {
            turns: turns.saturating_add(1),
            number,
            left,
            right,
        };
        match turns {
            0 => self.draw(Turn::DrawSpawn),
            1 => {
                let found = self.twice(seat.finish);
                self.enter(seat.finish);
                Step::Take(Turn::Arrive, Some(found))
            }
            2 => Step::Take(Turn::Claim, None),
            3 => Step::Take(Turn::SetHandles, Some(0)),
            4 => {
                self.store(number.saturating_mul(2), 2, seat.finish, left);
                Step::Take(Turn::StoreLeft(left), Some(0))
            }
            _ => {
                let vertex = number.saturating_mul(2).saturating_add(1);
                self.store(vertex, 2, seat.finish, right);
                seat.doing = Doing::Rests;
                Step::Take(Turn::StoreRight(right), Some(0))
            }
        }
    }

    fn chain(
        &mut self,
        seat: &mut Seat,
        turns: u32,
        number: u32,
        kind: FinishKind,
        body: u32,
        rest: u32,
    ) -> Step {
        seat.doing = Doing::Chains {
            turns: turns.saturating_add(1),
            number,
            kind,
            body,
            rest,
        };
        match turns {
            0 => self.draw(Turn::DrawChain),
            1 => {
                self.open(number, body);
                Step::Take(Turn::SetRoot, Some(0))
            }
            2 => Step::Take(Turn::SetHandle, Some(0)),
            3 => {
                let vertex = number.saturating_mul(2).saturating_add(1);
                self.store(vertex, 1, seat.finish, rest);
                Step::Take(Turn::StoreWaiting(rest, kind), Some(0))
            }
            _ => {
                self.store(number.saturating_mul(2), 2, number, body);
                seat.doing = Doing::Rests;
                Step::Take(Turn::StoreBody(body), Some(0))
            }
        }
    }

    fn draw(&mut self, turn: Turn) -> Step {
        let found = u64::from(self.drawn);
        self.drawn = self.drawn.saturating_add(1);
        Step::Take(turn, Some(found))
    }

    fn signal(&mut self, seat: &mut Seat, turns: u32) -> Step {
        seat.doing = Doing::Signals(turns.saturating_add(1));
        match turns {
            0 => Step::Take(Turn::Claim, None),
            1 => {
                let found = self.twice(seat.finish);
                self.leave(seat.finish);
                if found != 2 {
                    seat.doing = Doing::Rests;
                }
                Step::Take(Turn::Depart, Some(found))
            }
            _ => {
                self.raise(seat.finish.saturating_mul(2).saturating_add(1));
                seat.doing = Doing::Rests;
                Step::Take(Turn::Wake, None)
            }
        }
    }
}
