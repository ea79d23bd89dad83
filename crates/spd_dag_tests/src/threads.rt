// A tree of 100,000 spawns on four threads: each vertex is started exactly once.

ghost use Rattle.spd_fork.specs.Places.{IsAt};

use spd_fork::{Job, Piece, Worker, work};
use spd_rule::Field;
use spd_words::{Plan, Scheme};
use std::alloc::Global;
use std::process::Abort;
use std::sync::Wait;
use std::test::Fail;
use std::thread;
use std::thread::Threads;

/// The moves of the tree: the make and 100,000 spawns.
const MOVES: u32 = 100_001;

/// What one worker started, and how many numbers its pieces had that it didn't cut.
#[derive(Drop)]
struct Log {
    started: Vec<u32>,
    taken: u64,
}

impl Job for Log {
    fn cuts(&mut self, vertex: u32, piece: Piece) -> bool {
        let _ = self.started.push(vertex);
        piece.size() > 1
    }

    fn take(&mut self, piece: Piece) {
        self.taken = self.taken.wrapping_add(u64::from(piece.size()));
    }
}

/// Two workers, each with what it did.
type Pair = ((Worker, Log), (Worker, Log));

/// One thread's work.
fn logged<R: Wait>(rt: &R, alloc: Global, field: &Field<Piece>, worker: Worker) -> (Worker, Log)
    requires { IsAt field.now worker }
    ensures { IsAt field.now result.0 }
{
    let mut log = Log {
        started: Vec::new(alloc),
        taken: 0,
    };
    let worker = work(rt, alloc, field, worker, &mut log);
    (worker, log)
}

/// Two threads' work.
fn pair_logged<R: Wait + Threads + Sync>(
    rt: &R,
    alloc: Global,
    field: &Field<Piece>,
    one: Worker,
    other: Worker,
) -> Pair
    requires one { IsAt field.now one }
    requires other { IsAt field.now other }
    ensures one { IsAt field.now result.0.0 }
    ensures other { IsAt field.now result.1.0 }
{
    thread::join(
        rt,
        || logged(rt, alloc, field, one),
        || logged(rt, alloc, field, other),
    )
}

/// Four threads' work.
fn four_logged<R: Wait + Threads + Sync>(
    rt: &R,
    alloc: Global,
    field: &Field<Piece>,
    a: Worker,
    b: Worker,
    c: Worker,
    d: Worker,
) -> (Pair, Pair)
    requires a { IsAt field.now a }
    requires b { IsAt field.now b }
    requires c { IsAt field.now c }
    requires d { IsAt field.now d }
{
    thread::join(
        rt,
        || -> Pair
            requires one { IsAt field.now a }
            requires other { IsAt field.now b }
        { pair_logged(rt, alloc, field, a, b) },
        || -> Pair
            requires one { IsAt field.now c }
            requires other { IsAt field.now d }
        { pair_logged(rt, alloc, field, c, d) },
    )
}

/// Counts the starts of each vertex of the log.
fn count(starts: &mut Vec<u32>, log: &Log) {
    for vertex in log.started.iter() {
        if let Some(times) = starts.get_mut(*vertex as usize) {
            *times = times.saturating_add(1);
        }
    }
}

/// Plays the tree on four threads, and gives how often each vertex was started but vertex 1, which has no
/// piece, and how many numbers were worked on.
fn on_four<R: Abort + Wait + Threads + Sync>(rt: &R, alloc: Global) -> (Vec<u32>, u64) {
    let plan = Plan::new(Scheme::Flat, MOVES, 0).expect(rt, "moves");
    let (field, share) = Field::new(alloc, plan).expect(rt, "memory");
    let whole = Piece::new(0, MOVES);
    let mut a = Worker::first(&field, share, whole).expect(rt, "a piece");
    let b = a.split(&field).expect(rt, "a spare seat");
    let mut c = a.split(&field).expect(rt, "a spare seat");
    let d = a.split(&field).expect(rt, "a spare seat");
    let (((a, one), (b, two)), ((c, three), (d, four))) = four_logged(
        rt, alloc, &field, a, b, c, d,
    );
    let ends = [a.ends(), b.ends(), c.ends(), d.ends()];
    let ended = ends.iter().filter(|end| **end).count();
    assert_eq!(rt; ended, 1, "one worker runs vertex 1");
    let mut starts = Vec::from_elem(alloc, 0, MOVES as usize * 2).expect(rt, "memory");
    for log in [&one, &two, &three, &four] {
        count(&mut starts, log);
    }
    let taken = one.taken.wrapping_add(two.taken);
    let more = three.taken.wrapping_add(four.taken);
    (starts, taken.wrapping_add(more))
}

#[test]
fn each_vertex_is_started_once(rt: HostRuntime) {
    let (starts, taken) = on_four(&rt, rt.alloc());
    for (vertex, times) in starts.iter().enumerate() {
        let expected = if vertex == 1 { 0 } else { 1 };
        assert_eq!(rt; *times, expected, "vertex {vertex}");
    }
    assert_eq!(rt; taken, u64::from(MOVES), "each number is worked on once");
}
