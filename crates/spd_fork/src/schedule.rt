// The loop of a scheduler: a worker starts what is ready, cuts it in two or works on it, until the region is over.

ghost use Rattle.spd_fork.specs.Places.{IsAt, StaysAt};

use crate::calls::Began;
use crate::piece::Piece;
use crate::turns::Turned;
use crate::worker::Worker;
use spd_rule::Field;
use std::alloc::Global;
use std::sync::Wait;
use std::thread;

/// The most turns of a call, and of a signal behind one that found no move left.
const MOST_TURNS: u32 = 9;

/// What is worked on.
pub trait Job {
    /// Whether the piece, whose vertex was just started, is to be cut in two.
    fn cuts(&mut self, vertex: u32, piece: Piece) -> bool;

    /// Works on a piece that isn't cut.
    fn take(&mut self, piece: Piece);
}

/// Works on the region of the field until vertex 1 is started, by this worker or by another one. The
/// vertices that it made ready it starts itself, the last one first; where it has none left it looks
/// through the table for others. Where memory for its list runs out it finds them so too.
pub fn work<R: Wait, J: Job>(
    rt: &R,
    alloc: Global,
    field: &Field<Piece>,
    worker: Worker,
    job: &mut J,
) -> Worker
    requires { IsAt field.now worker }
    ensures { IsAt field.now result }
{
    let mut worker = worker;
    let mut ready = Vec::new(alloc);
    let mut at = 0;
    for _ in rt.forever() {
        let vertex = match ready.pop() {
            Some(vertex) => vertex,
            None => {
                at = next_of(at, field.plan().moves());
                if at == 0 {
                    thread::yield_now();
                }
                at
            }
        };
        match worker.start(field, vertex) {
            Some(Began::Piece(piece)) => {
                let cuts = job.cuts(vertex, piece);
                begin(&mut worker, piece, cuts, job);
                turn_to_end(field, &mut worker, job, &mut ready);
            }
            Some(Began::End | Began::Lost) => return worker,
            Some(Began::Taken { state }) => {
                if vertex == 1 && state == 3 {
                    return worker;
                }
            }
            None => return worker,
        }
    }
    unreachable!()
}

/// The vertex that is looked at next.
fn next_of(at: u32, moves: u32) -> u32 {
    if at / 2 + 1 < moves || at % 2 == 0 {
        at.saturating_add(1)
    } else {
        0
    }
}

/// Begins to cut the piece in two, or works on it and begins the signal.
fn begin<J: Job>(worker: &mut Worker, piece: Piece, cuts: bool, job: &mut J)
    ensures { StaysAt worker.old worker.new }
{
    if !cuts {
        take_whole(worker, piece, job);
        return;
    }
    let (body, rest) = piece.halves();
    if !worker.spawn(body, rest) {
        take_whole(worker, piece, job);
    }
}

/// Works on the piece, and begins the signal.
fn take_whole<J: Job>(worker: &mut Worker, piece: Piece, job: &mut J)
    ensures { StaysAt worker.old worker.new }
{
    job.take(piece);
    worker.signal();
}

/// Takes the turns of the call under way, and lists the vertices that it made ready. A piece that can't
/// be cut, since no move is left, is worked on whole.
fn turn_to_end<J: Job>(field: &Field<Piece>, worker: &mut Worker, job: &mut J, ready: &mut Vec<u32>)
    requires { IsAt field.now worker.old }
    ensures { IsAt field.now worker.new }
{
    for _ in 0..MOST_TURNS {
        match worker.turn(field) {
            Some(Turned::Spawned { left, right }) => {
                let _ = ready.push(right);
                let _ = ready.push(left);
                return;
            }
            Some(Turned::Full { body, rest, .. }) => {
                job.take(body);
                job.take(rest);
                worker.signal();
            }
            Some(Turned::Signalled { woke }) => {
                if let Some(vertex) = woke {
                    let _ = ready.push(vertex);
                }
                return;
            }
            Some(Turned::More) => {}
            Some(Turned::Chained { .. }) | None => return,
        }
    }
}
