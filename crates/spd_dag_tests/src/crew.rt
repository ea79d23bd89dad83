// Workers over one table, each deed of which is compared with the model's.

ghost use Rattle.std.specs.Prelude.{IfSome};
ghost use Rattle.spd_fork.specs.Places.{IsAt};
ghost use Rattle.spd_dag_tests.specs.Crews.{IsCrew};

use crate::deeds::{Answer, Deed};
use crate::model::Model;
use spd_fork::{Piece, Worker};
use spd_rule::{Closed, Field};
use std::alloc::Global;

/// The most workers of a field.
const MOST_WORKERS: u32 = 64;

/// A field with its workers, and one more that only looks at the vertices.
#[derive(Drop)]
pub struct Crew {
    pub field: Field<Piece>,
    pub workers: Vec<Worker>,
    pub watcher: Worker,
}

impl Crew {
    /// One worker more. Says whether there was a seat for it, and memory.
    pub fn enlist(&mut self) -> bool
        requires { IsCrew self.old }
        ensures { IsCrew self.new }
    {
        match self.watcher.split(&self.field) {
            Some(worker) => match self.workers.push(worker) {
                Ok(()) => true,
                Err(_) => false,
            },
            None => false,
        }
    }

    /// Has the worker of this number do the deed.
    pub fn play(&mut self, at: usize, deed: Deed) -> Option<Answer>
        requires { IsCrew self.old }
        ensures { IsCrew self.new }
    {
        let worker = self.workers.get_mut(at)?;
        play(&self.field, worker, deed)
    }

    /// The first vertex whose word says another state than the model, with what it says.
    pub fn differs(&mut self, model: &Model) -> Option<(u32, u32)>
        requires { IsCrew self.old }
        ensures { IsCrew self.new }
    {
        for vertex in 0..model.size() {
            let state = self.watcher.look(&self.field, vertex)?;
            if state != model.state(vertex) {
                return Some((vertex, state));
            }
        }
        None
    }

    /// The field at its end, closed by the worker that runs vertex 1, with the seats of all others. `None`
    /// where no worker ends, or another one doesn't rest.
    pub fn close(self) -> Option<Closed<Piece>>
        requires { IsCrew self }
    {
        let Crew {
            field,
            workers,
            watcher,
        } = self;
        let mut last = watcher;
        let mut workers = workers;
        for _ in 0..MOST_WORKERS {
            match workers.pop() {
                Some(worker) => last = joined(&field, last, worker)?,
                None => return last.close(field),
            }
        }
        None
    }
}

/// One worker with the seats of both: the one that ends, if one does. `None` where the other doesn't rest.
fn joined(field: &Field<Piece>, one: Worker, other: Worker) -> Option<Worker>
    requires one { IsAt field.now one }
    requires other { IsAt field.now other }
    ensures { IfSome result (λ w. IsAt field.now w) }
{
    if other.ends() {
        taken_over(field, other, one)
    } else {
        taken_over(field, one, other)
    }
}

/// The first worker, with the other's seats too.
fn taken_over(field: &Field<Piece>, one: Worker, other: Worker) -> Option<Worker>
    requires one { IsAt field.now one }
    requires other { IsAt field.now other }
    ensures { IfSome result (λ w. IsAt field.now w) }
{
    let mut one = one;
    if one.join(field, other) {
        Some(one)
    } else {
        None
    }
}

/// Does one deed.
fn play(field: &Field<Piece>, worker: &mut Worker, deed: Deed) -> Option<Answer>
    requires { IsAt field.now worker.old }
    ensures { IsAt field.now worker.new }
{
    match deed {
        Deed::Start(vertex) => Some(Answer::Began(worker.start(field, vertex)?)),
        Deed::Chain(body, rest) => {
            let begins = worker.chain(body, rest);
            turn_where(field, worker, begins)
        }
        Deed::Spawn(body, rest) => {
            let begins = worker.spawn(body, rest);
            turn_where(field, worker, begins)
        }
        Deed::Signal => {
            let begins = worker.signal();
            turn_where(field, worker, begins)
        }
        Deed::Turn => turn_where(field, worker, true),
    }
}

/// Takes the next turn, where a call has begun.
fn turn_where(field: &Field<Piece>, worker: &mut Worker, begins: bool) -> Option<Answer>
    requires { IsAt field.now worker.old }
    ensures { IsAt field.now worker.new }
{
    if !begins {
        return None;
    }
    Some(Answer::Turned(worker.turn(field)?))
}
