// All interleavings of small schedules, and seeded ones of great schedules, each beside the model.

ghost use Rattle.spd_dag_tests.specs.Crews.{IsCrew};

use crate::crew::Crew;
use crate::deeds::{Deed, Forks};
use crate::model::Model;
use crate::picks::{Path, Picks};
use spd_fork::{Piece, Worker};
use spd_rule::Field;
use spd_words::{Plan, Scheme};
use std::alloc::Global;
use std::process::Abort;
use std::test::Fail;

/// A schedule: how pieces are cut, the moves, the size of the region's piece, and the workers.
#[derive(Clone, Copy)]
struct Case {
    forks: Forks,
    moves: u32,
    size: u32,
    seats: usize,
}

/// A crew of so many workers over a new field, whose make is done.
fn crew_of(rt: &impl Abort, alloc: Global, case: Case) -> Crew
    ensures { IsCrew result }
{
    let plan = Plan::new(Scheme::Flat, case.moves, 0).expect(rt, "moves");
    let (field, share) = Field::new(alloc, plan).expect(rt, "memory");
    let piece = Piece::new(0, case.size);
    let watcher = Worker::first(&field, share, piece).expect(rt, "a piece");
    let mut crew = Crew {
        field,
        workers: Vec::new(alloc),
        watcher,
    };
    for _ in 0..case.seats {
        assert!(rt; crew.enlist(), "a spare seat");
    }
    crew
}

/// Plays one schedule to its end, and compares each answer and each word of a vertex with the model.
fn play(
    rt: &impl Abort,
    alloc: Global,
    case: Case,
    picks: &mut Picks,
    deeds: &mut Vec<(usize, Deed)>,
) {
    let mut crew = crew_of(rt, alloc, case);
    let piece = Piece::new(0, case.size);
    let mut model = Model::new(alloc, case.forks, case.moves, piece, case.seats).expect(
        rt, "memory",
    );
    for step in 0..u64::MAX {
        model.deeds(deeds).expect(rt, "memory");
        if deeds.is_empty() {
            break;
        }
        let pick = picks.pick(deeds.len()).expect(rt, "memory");
        let (at, deed) = deeds.get(pick).copied().expect(rt, "a choice");
        let expected = model.play(at, deed);
        assert!(rt; expected.is_some(), "{deed:?} of {at}");
        assert_eq!(rt;
            crew.play(at, deed),
            expected,
            "{deed:?} of {at} at step {step}"
        );
        assert_eq!(rt;
            crew.differs(&model),
            None,
            "a vertex after {deed:?} of {at}"
        );
    }
    check_end(rt, crew, &model, case);
}

/// All is over: every vertex of a drawn move was started once, every finish was woken once, and each root
/// is 0.
fn check_end(rt: &impl Abort, crew: Crew, model: &Model, case: Case)
    requires { IsCrew crew }
{
    let moves = case.moves;
    let closed = crew
        .close()
        .expect(rt, "one worker ends, and the others rest");
    let drawn = closed.moves();
    assert_eq!(rt; drawn, model.drawn().min(moves));
    for vertex in 0..moves.saturating_mul(2) {
        let starts = if vertex / 2 < drawn { 1 } else { 0 };
        assert_eq!(rt; model.starts(vertex), starts, "starts of {vertex}");
        assert_eq!(rt; model.state(vertex), starts * 3, "vertex {vertex}");
    }
    assert_eq!(rt; model.wakes(0), 1, "vertex 1 is woken once");
    let count = closed.plan().words();
    for root in 3..moves.saturating_add(3) {
        if root < count {
            assert_eq!(rt; closed.word(root), 0, "the word {root}");
        }
    }
}

/// Plays all schedules of the case, and gives their number.
fn explore(rt: &impl Abort, alloc: Global, case: Case) -> u64 {
    let mut deeds = Vec::new(alloc);
    let mut picks = Picks::Path(Path::new(alloc));
    for played in 1..u64::MAX {
        play(rt, alloc, case, &mut picks, &mut deeds);
        if !picks.advance().expect(rt, "memory") {
            return played;
        }
    }
    0
}

/// Plays one schedule whose choices are drawn from a seed.
fn play_seed(rt: &impl Abort, alloc: Global, case: Case, seed: u64) {
    let mut deeds = Vec::new(alloc);
    play(rt, alloc, case, &mut Picks::Seed(seed), &mut deeds);
}

fn case_of(forks: Forks, moves: u32, size: u32, seats: usize) -> Case {
    Case {
        forks,
        moves,
        size,
        seats,
    }
}

// The numbers of schedules were counted apart, by a program of a few lines over a list of vertices, and
// the first three by hand: a spawn leaves two that are ready, in either order; a chain one at a time.
// How pieces are cut, the moves, the numbers of the piece, the workers, and the schedules.
const COUNTED: [(Forks, u32, u32, usize, u64); 12] = [
    (Forks::Spawns, 2, 2, 1, 2),
    (Forks::Chains, 2, 2, 1, 1),
    (Forks::Chains, 1, 2, 1, 1),
    (Forks::Spawns, 1, 2, 2, 4),
    (Forks::Spawns, 2, 2, 2, 248),
    (Forks::Chains, 2, 2, 2, 16),
    (Forks::Spawns, 2, 3, 2, 392),
    (Forks::Chains, 3, 3, 2, 64),
    (Forks::Both, 3, 3, 2, 992),
    (Forks::Spawns, 2, 2, 3, 1_728),
    (Forks::Chains, 2, 2, 3, 81),
    (Forks::Both, 4, 4, 2, 256),
];

#[test]
fn all_interleavings_of_small_schedules(rt: HostRuntime) {
    for (forks, moves, size, seats, count) in COUNTED {
        let case = case_of(forks, moves, size, seats);
        let played = explore(&rt, rt.alloc(), case);
        assert_eq!(rt; played, count, "{forks:?} {moves} {size} {seats}");
    }
}

#[test]
fn seeded_interleavings_of_eight_workers(rt: HostRuntime) {
    for seed in 0..3 {
        // All moves are drawn; and then some are missing.
        play_seed(&rt, rt.alloc(), case_of(Forks::Spawns, 120, 120, 8), seed);
        play_seed(&rt, rt.alloc(), case_of(Forks::Both, 90, 120, 8), seed);
    }
}
