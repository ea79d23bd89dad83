//! Sums the numbers from 1 to 1,000,000, by a scheduler that stands on `spd_dag` alone: with no words on two
//! threads, in pieces of at most 1000 numbers; with two words, in pieces of so many, on so many threads.
#![tactic(auto)]

mod words;

ghost use Rattle.std.specs.Prelude.{IfOk};
ghost use Rattle.spd_fork.specs.Places.{IsAt};

use spd_fork::{Job, Piece, Worker, work};
use spd_rule::Field;
use spd_words::{Plan, Scheme};
use std::alloc::Global;
use std::process::ExitCode;
use std::sync::Wait;
use std::thread::Threads;
use std::{io, thread};
use words::{ALLOWED, Crew, Options, asked_options};

/// The moves of the region, enough for the cuts down to pieces of 245 numbers. Where none is left, a piece is
/// summed whole.
const MOVES: u32 = 4096;

/// The sum of one worker's pieces, the size of one that isn't cut, and how many were.
#[derive(Drop)]
struct Sum {
    total: u64,
    grain: u32,
    cuts: u32,
}

impl Job for Sum {
    fn cuts(&mut self, _vertex: u32, piece: Piece) -> bool {
        let cuts = piece.size() > self.grain;
        if cuts {
            self.cuts = self.cuts.saturating_add(1);
        }
        cuts
    }

    fn take(&mut self, piece: Piece) {
        for number in piece.low..piece.high {
            self.total = self.total.wrapping_add(u64::from(number));
        }
    }
}

/// Why there is no sum.
#[derive(Clone, Copy, Debug, PartialEq, Eq)]
enum Fault {
    Plan,
    Memory,
    Piece,
    Seats,
}

/// A region of the piece, and the worker that begins it.
fn region_of(alloc: Global, piece: Piece) -> Result<(Field<Piece>, Worker), Fault>
    ensures { IfOk result (λ region. IsAt region.0 region.1) }
{
    let Ok(plan) = Plan::new(Scheme::Flat, MOVES, 0) else {
        return Err(Fault::Plan);
    };
    let Ok((field, share)) = Field::new(alloc, plan) else {
        return Err(Fault::Memory);
    };
    match Worker::first(&field, share, piece) {
        Some(first) => Ok((field, first)),
        None => Err(Fault::Piece),
    }
}

/// Sums the numbers of the piece; gives the sum, the cuts of all threads and the moves drawn.
fn sum_of<R: Wait + Threads + Sync>(
    rt: &R,
    alloc: Global,
    options: Options,
    piece: Piece,
) -> Result<(u64, u32, u32), Fault> {
    let grain = options.grain;
    let (field, mut first) = region_of(alloc, piece)?;
    if options.crew == Crew::One {
        let (first, sum) = work_sum(rt, alloc, grain, &field, first);
        return Ok((sum.total, sum.cuts, moves_of(field, first)?));
    }
    let Some(second) = first.split(&field) else {
        return Err(Fault::Seats);
    };
    let ((first, one), (second, other)) = thread::join(
        rt,
        || work_sum(rt, alloc, grain, &field, first),
        || work_sum(rt, alloc, grain, &field, second),
    );
    let moves = if first.ends() {
        joined_moves(field, first, second)?
    } else {
        joined_moves(field, second, first)?
    };
    let total = one.total.wrapping_add(other.total);
    Ok((total, one.cuts.saturating_add(other.cuts), moves))
}

/// The moves of a region that is over. The worker that runs vertex 1 takes the other's seats.
fn joined_moves(field: Field<Piece>, last: Worker, rests: Worker) -> Result<u32, Fault>
    requires last { IsAt field last }
    requires rests { IsAt field rests }
{
    let mut last = last;
    if !last.join(&field, rests) {
        return Err(Fault::Seats);
    }
    moves_of(field, last)
}

/// The moves of a region that is over, by the worker that has all seats.
fn moves_of(field: Field<Piece>, last: Worker) -> Result<u32, Fault>
    requires { IsAt field last }
{
    match last.close(field) {
        Some(closed) => Ok(closed.moves()),
        None => Err(Fault::Seats),
    }
}

/// One thread's work.
fn work_sum<R: Wait>(
    rt: &R,
    alloc: Global,
    grain: u32,
    field: &Field<Piece>,
    worker: Worker,
) -> (Worker, Sum)
    requires { IsAt field.now worker }
    ensures { IsAt field.now result.0 }
{
    let mut sum = Sum {
        total: 0,
        grain,
        cuts: 0,
    };
    let worker = work(rt, alloc, field, worker, &mut sum);
    (worker, sum)
}

fn main(rt: HostRuntime) -> io::Result<ExitCode> {
    let Some(options) = asked_options(&rt) else {
        eprintln!(rt; "spd_fork_sum: words refused: give {ALLOWED}")?;
        return Ok(ExitCode::from(2));
    };
    match sum_of(&rt, rt.alloc(), options, Piece::new(1, 1_000_001)) {
        Ok((sum, cuts, moves)) => {
            println!(rt; "The sum of 1 to 1000000 is {sum}.")?;
            println!(rt; "{cuts} pieces were cut in two, by {moves} moves with the make.")?;
        }
        Err(fault) => println!(rt; "no sum: {fault:?}")?,
    }
    Ok(ExitCode::SUCCESS)
}
