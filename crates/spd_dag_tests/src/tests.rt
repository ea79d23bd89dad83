// The rows of a region of two moves, answer by answer.

ghost use Rattle.spd_fork.specs.Places.{IsAt};

use spd_fork::{Began, Piece, PieceStage, Turned, Worker};
use spd_rule::Field;
use spd_words::{Plan, Scheme};
use std::alloc::Global;
use std::process::Abort;
use std::test::Fail;

const WHOLE: Piece = Piece {
    low: 0,
    high: 4,
    stage: PieceStage::Going,
};

const BODY: Piece = Piece {
    low: 0,
    high: 2,
    stage: PieceStage::Going,
};

const REST: Piece = Piece {
    low: 2,
    high: 4,
    stage: PieceStage::Going,
};

const EMPTY: Piece = Piece {
    low: 1,
    high: 1,
    stage: PieceStage::Going,
};

const WAITS: Piece = Piece {
    low: 2,
    high: 4,
    stage: PieceStage::Waits,
};

/// A new field of so many moves, whose make has this piece, and the worker that made it.
fn made(rt: &impl Abort, alloc: Global, moves: u32, piece: Piece) -> (Field<Piece>, Worker)
    ensures { IsAt result.0 result.1 }
{
    let plan = Plan::new(Scheme::Flat, moves, 0).expect(rt, "moves");
    let (field, share) = Field::new(alloc, plan).expect(rt, "memory");
    let worker = Worker::first(&field, share, piece).expect(rt, "a piece");
    (field, worker)
}

/// Takes so many turns, each of which has another one behind it.
fn more(rt: &impl Abort, field: &Field<Piece>, worker: &mut Worker, turns: u32)
    requires { IsAt field.now worker.old }
    ensures { IsAt field.now worker.new }
{
    for turn in 0..turns {
        assert_eq!(rt; worker.turn(field), Some(Turned::More), "turn {turn}");
    }
}

/// Spawns by the vertex 0 that runs.
fn spawn_of_two(rt: &impl Abort, field: &Field<Piece>, worker: &mut Worker)
    requires { IsAt field.now worker.old }
    ensures { IsAt field.now worker.new }
{
    assert_eq!(rt; worker.start(field, 0), Some(Began::Piece(WHOLE)));
    assert!(rt; worker.spawn(BODY, REST));
    more(rt, field, worker, 5);
    let spawned = Turned::Spawned { left: 2, right: 3 };
    assert_eq!(rt; worker.turn(field), Some(spawned));
}

/// A spawn that finds so many moves drawn, and none left: both bodies come back.
fn full_spawn(rt: &impl Abort, field: &Field<Piece>, worker: &mut Worker, drawn: u64)
    requires { IsAt field.now worker.old }
    ensures { IsAt field.now worker.new }
{
    assert!(rt; worker.spawn(REST, BODY));
    let full = Turned::Full {
        drawn,
        body: REST,
        rest: BODY,
    };
    assert_eq!(rt; worker.turn(field), Some(full));
}

/// A chain that finds so many moves drawn, and none left.
fn full_chain(rt: &impl Abort, field: &Field<Piece>, worker: &mut Worker, drawn: u64)
    requires { IsAt field.now worker.old }
    ensures { IsAt field.now worker.new }
{
    assert!(rt; worker.chain(BODY, REST));
    let full = Turned::Full {
        drawn,
        body: BODY,
        rest: REST,
    };
    assert_eq!(rt; worker.turn(field), Some(full));
}

/// The signal of the last vertex, which wakes vertex 1, and the two starts of that.
fn end_of_two(rt: &impl Abort, field: &Field<Piece>, worker: &mut Worker, second: &mut Worker)
    requires one { IsAt field.now worker.old }
    requires two { IsAt field.now second.old }
    ensures one { IsAt field.now worker.new }
    ensures two { IsAt field.now second.new }
{
    assert_eq!(rt; worker.start(field, 3), Some(Began::Piece(REST)));
    assert!(rt; worker.signal());
    more(rt, field, worker, 2);
    assert_eq!(rt;
        worker.turn(field),
        Some(Turned::Signalled { woke: Some(1) })
    );
    assert_eq!(rt; worker.start(field, 1), Some(Began::End));
    assert_eq!(rt; second.start(field, 1), Some(Began::Taken { state: 3 }));
}

#[test]
fn a_spawn_and_two_signals(rt: HostRuntime) {
    let (field, mut worker) = made(&rt, rt.alloc(), 2, WHOLE);
    let mut second = worker.split(&field).expect(&rt, "a spare seat");
    assert_eq!(rt; second.start(&field, 1), Some(Began::Taken { state: 1 }));
    spawn_of_two(&rt, &field, &mut worker);
    assert_eq!(rt; worker.start(&field, 2), Some(Began::Piece(BODY)));
    assert!(rt; worker.signal());
    more(&rt, &field, &mut worker, 1);
    assert_eq!(rt; worker.turn(&field), Some(Turned::Signalled { woke: None }));
    end_of_two(&rt, &field, &mut worker, &mut second);
    assert!(rt; worker.join(&field, second));
    let closed = worker.close(field).expect(&rt, "all seats");
    assert_eq!(rt; closed.moves(), 2);
}

#[test]
fn a_spawn_that_finds_no_move_left(rt: HostRuntime) {
    let (field, mut worker) = made(&rt, rt.alloc(), 2, WHOLE);
    let mut second = worker.split(&field).expect(&rt, "a spare seat");
    spawn_of_two(&rt, &field, &mut worker);
    assert_eq!(rt; worker.start(&field, 2), Some(Began::Piece(BODY)));
    full_spawn(&rt, &field, &mut worker, 2);
    full_spawn(&rt, &field, &mut worker, 3);
    full_chain(&rt, &field, &mut worker, 3);
    assert!(rt; worker.signal());
    more(&rt, &field, &mut worker, 1);
    assert_eq!(rt; worker.turn(&field), Some(Turned::Signalled { woke: None }));
    end_of_two(&rt, &field, &mut worker, &mut second);
    assert!(rt; worker.join(&field, second));
    let closed = worker.close(field).expect(&rt, "all seats");
    assert_eq!(rt; closed.moves(), 2);
}

#[test]
fn a_chain_whose_rest_is_woken(rt: HostRuntime) {
    let (field, mut worker) = made(&rt, rt.alloc(), 2, WHOLE);
    assert_eq!(rt; worker.start(&field, 0), Some(Began::Piece(WHOLE)));
    assert!(rt; worker.chain(BODY, REST));
    more(&rt, &field, &mut worker, 4);
    let chained = Turned::Chained { body: 2, rest: 3 };
    assert_eq!(rt; worker.turn(&field), Some(chained));
    assert_eq!(rt;
        worker.start(&field, 3),
        Some(Began::Taken { state: 1 }),
        "it waits"
    );
    assert_eq!(rt; worker.start(&field, 2), Some(Began::Piece(BODY)));
    assert!(rt; worker.signal());
    more(&rt, &field, &mut worker, 2);
    assert_eq!(rt;
        worker.turn(&field),
        Some(Turned::Signalled { woke: Some(3) })
    );
    assert_eq!(rt; worker.start(&field, 3), Some(Began::Piece(REST)));
    assert!(rt; worker.signal());
    more(&rt, &field, &mut worker, 2);
    assert_eq!(rt;
        worker.turn(&field),
        Some(Turned::Signalled { woke: Some(1) })
    );
}

/// Neither a spawn nor a chain of these two begins.
fn refused(rt: &impl Abort, field: &Field<Piece>, worker: &mut Worker, body: Piece, rest: Piece)
    requires { IsAt field.now worker.old }
    ensures { IsAt field.now worker.new }
{
    assert!(rt; !worker.spawn(body, rest));
    assert!(rt; !worker.chain(body, rest));
}

#[test]
fn what_a_worker_that_rests_may_not_do(rt: HostRuntime) {
    let (field, mut worker) = made(&rt, rt.alloc(), 2, WHOLE);
    assert_eq!(rt; worker.turn(&field), None, "no call is under way");
    assert!(rt; !worker.signal());
    refused(&rt, &field, &mut worker, BODY, REST);
    assert_eq!(rt; worker.start(&field, 4), None, "there is no vertex 4");
    assert_eq!(rt;
        worker.start(&field, 2),
        Some(Began::Taken { state: 0 }),
        "not stored"
    );
}

#[test]
fn what_a_worker_that_works_may_not_do(rt: HostRuntime) {
    let (field, mut worker) = made(&rt, rt.alloc(), 2, WHOLE);
    assert_eq!(rt; worker.start(&field, 0), Some(Began::Piece(WHOLE)));
    assert_eq!(rt; worker.start(&field, 0), None, "it runs vertex 0");
    assert_eq!(rt; worker.vertex(), Some(0));
    assert!(rt; worker.split(&field).is_none(), "it doesn't rest");
    refused(&rt, &field, &mut worker, EMPTY, REST);
    refused(&rt, &field, &mut worker, REST, EMPTY);
    refused(&rt, &field, &mut worker, BODY, WAITS);
    assert!(rt; worker.close(field).is_some(), "it has all seats");
}

#[test]
fn no_region_of_an_empty_piece(rt: HostRuntime) {
    let plan = Plan::new(Scheme::Flat, 2, 0).expect(&rt, "moves");
    let (field, share) = Field::new(rt.alloc(), plan).expect(&rt, "memory");
    assert!(rt; Worker::first(&field, share, EMPTY).is_none());
}
