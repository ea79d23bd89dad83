// All interleavings of small schedules of bodies that offer: after each step the words of each finish, joined
// with what is still owed to it, are what it is to give.

ghost use Rattle.spd_book_tests.specs.Crews.{IsTeam};

use crate::crew::Team;
use crate::given::nothing;
use crate::making::team_of;
use crate::model::{Doing, Model};
use crate::scripts::{Act, Books, Script};
use crate::steps::Step;
use spd_dag_tests::{Path, Picks};
use spd_words::FinishKind;
use std::alloc::Global;
use std::process::Abort;
use std::test::Fail;

/// A schedule: what the bodies do, the moves that there are, and the players.
#[derive(Clone, Copy)]
struct Case {
    scripts: [Script; 8],
    moves: u32,
    players: usize,
}

/// Takes the step, and compares what it answers.
fn take(rt: &impl Abort, team: &mut Team, at: usize, step: Step)
    requires { IsTeam team.old }
    ensures { IsTeam team.new }
{
    match step {
        Step::Start(vertex) => {
            let found = team.start(at, vertex);
            assert!(rt; found.is_some(), "the start of {vertex} by {at}");
        }
        Step::Collect(finish, kind, given) => {
            let collected = team.collect(at, finish, kind);
            assert_eq!(rt; collected, Some(given), "the finish {finish}");
        }
        Step::Take(turn, None) => {
            let found = team.take(at, turn);
            assert!(rt; found.is_some(), "{turn:?} by {at}");
        }
        Step::Take(turn, answer) => {
            let found = team.take(at, turn);
            assert_eq!(rt; found, answer, "{turn:?} by {at}");
        }
    }
}

/// Compares what each open finish has got, joined with what is owed to it, with what it is to give.
fn compare(rt: &impl Abort, team: &mut Team, model: &Model, moves: u32)
    requires { IsTeam team.old }
    ensures { IsTeam team.new }
{
    for finish in 0..moves {
        if let Some(body) = model.opened(finish) {
            let kind = model.books.kind(body);
            let words = team.look(finish, kind).expect(rt, "a finish");
            let owed = model.debts(finish, kind);
            let expected = model.books.total(body);
            assert_eq!(rt; words.with(kind, owed), expected, "the finish {finish}");
        }
    }
}

/// All is over: vertex 1 is started, all others rest, and nothing is owed to any finish.
fn check_end(rt: &impl Abort, model: &Model) {
    let mut ends = 0u32;
    for seat in model.seats.iter() {
        match seat.doing {
            Doing::Ends => ends = ends.saturating_add(1),
            doing => assert_eq!(rt; doing, Doing::Rests, "a share at the end"),
        }
    }
    assert_eq!(rt; ends, 1, "one share runs vertex 1");
    for finish in 0..8u32 {
        if let Some(body) = model.opened(finish) {
            let kind = model.books.kind(body);
            assert_eq!(rt;
                model.debts(finish, kind),
                nothing(kind),
                "the finish {finish}"
            );
        }
    }
}

/// Plays one schedule to its end.
fn play(
    rt: &impl Abort,
    alloc: Global,
    case: Case,
    picks: &mut Picks,
    deeds: &mut Vec<(usize, Option<u32>)>,
) {
    let mut team = team_of(rt, alloc, case.moves);
    let mut model = Model::new(Books::new(case.scripts), case.players);
    for _ in 0..u64::MAX {
        model.deeds(deeds).expect(rt, "memory");
        if deeds.is_empty() {
            break;
        }
        let pick = picks.pick(deeds.len()).expect(rt, "memory");
        let (at, vertex) = deeds.get(pick).copied().expect(rt, "a choice");
        let step = model.step(at, vertex).expect(rt, "a step");
        take(rt, &mut team, at, step);
        compare(rt, &mut team, &model, case.moves);
    }
    check_end(rt, &model);
}

/// Plays all schedules of the case, and gives their number.
fn explore(rt: &impl Abort, alloc: Global, case: Case) -> u64 {
    let mut deeds = Vec::new(alloc);
    let mut picks = Picks::Path(Path::new(alloc));
    for played in 1..u64::MAX {
        play(rt, alloc, case, &mut picks, &mut deeds);
        if !picks.advance().expect(rt, "memory") {
            return played;
        }
    }
    0
}

/// A script of these acts.
fn script(kind: FinishKind, first: Act, second: Act, third: Act) -> Script {
    Script {
        kind,
        acts: [first, second, third],
    }
}

/// No script.
const NONE: Script = Script {
    kind: FinishKind::Plain,
    acts: [Act::Over; 3],
};

/// Two bodies of one finish of this kind, each of which offers; the second also has a code.
fn two(kind: FinishKind) -> [Script; 8] {
    [
        script(kind, Act::Spawn(1, 2), Act::Over, Act::Over),
        script(kind, Act::Offer(4), Act::Over, Act::Over),
        script(kind, Act::Offer(-9), Act::Fault(25), Act::Over),
        NONE,
        NONE,
        NONE,
        NONE,
        NONE,
    ]
}

/// A finish of a kind inside one of another: the body offers and has a code, and the rest passes both on.
fn nested(inner: FinishKind, outer: FinishKind) -> [Script; 8] {
    [
        script(outer, Act::Offer(3), Act::Finish(inner, 2, 1), Act::Over),
        script(outer, Act::PassGift(2), Act::PassFault(2), Act::Over),
        script(inner, Act::Offer(7), Act::Fault(33), Act::Offer(-5)),
        NONE,
        NONE,
        NONE,
        NONE,
        NONE,
    ]
}

/// A finish of two bodies, of which each offers and the second has a code. The rest passes both on.
fn two_inside(inner: FinishKind, outer: FinishKind) -> [Script; 8] {
    [
        script(outer, Act::Finish(inner, 2, 1), Act::Over, Act::Over),
        script(outer, Act::PassGift(2), Act::PassFault(2), Act::Over),
        script(inner, Act::Spawn(3, 4), Act::Over, Act::Over),
        script(inner, Act::Offer(4), Act::Over, Act::Over),
        script(inner, Act::Offer(-9), Act::Fault(25), Act::Over),
        NONE,
        NONE,
        NONE,
    ]
}

/// A finish of two bodies beside a body that offers to the outer one.
fn forked(inner: FinishKind, outer: FinishKind) -> [Script; 8] {
    [
        script(outer, Act::Spawn(1, 2), Act::Over, Act::Over),
        script(outer, Act::Offer(2), Act::Offer(-6), Act::Over),
        script(outer, Act::Offer(1), Act::Finish(inner, 4, 3), Act::Over),
        script(outer, Act::PassGift(4), Act::PassFault(4), Act::Offer(8)),
        script(inner, Act::Offer(5), Act::Spawn(5, 6), Act::Over),
        script(inner, Act::Offer(9), Act::Fault(33), Act::Over),
        script(inner, Act::Offer(-2), Act::Fault(25), Act::Fault(40)),
        NONE,
    ]
}

fn case_of(scripts: [Script; 8], moves: u32, players: usize) -> Case {
    Case {
        scripts,
        moves,
        players,
    }
}

const KINDS: [FinishKind; 4] = [
    FinishKind::Plain,
    FinishKind::Sum,
    FinishKind::Least,
    FinishKind::Greatest,
];

// The numbers of schedules were counted apart, by a program of some lines over lists of steps.

#[test]
fn offers_of_two_bodies(rt: HostRuntime) {
    for kind in KINDS {
        let played = explore(&rt, rt.alloc(), case_of(two(kind), 2, 2));
        assert_eq!(rt; played, 1_376, "{kind:?}");
    }
}

#[test]
fn gifts_that_are_passed_on(rt: HostRuntime) {
    for kind in KINDS {
        let scripts = nested(kind, FinishKind::Sum);
        let played = explore(&rt, rt.alloc(), case_of(scripts, 2, 3));
        assert_eq!(rt; played, 81, "{kind:?}");
    }
}

#[test]
fn a_finish_of_two_bodies(rt: HostRuntime) {
    let scripts = two_inside(FinishKind::Greatest, FinishKind::Sum);
    let played = explore(&rt, rt.alloc(), case_of(scripts, 3, 2));
    assert_eq!(rt; played, 5_504);
}

#[test]
fn seeded_interleavings_of_three_shares(rt: HostRuntime) {
    let mut deeds = Vec::new(rt.alloc());
    for kind in KINDS {
        let case = case_of(forked(kind, FinishKind::Least), 4, 3);
        for seed in 0..500 {
            play(&rt, rt.alloc(), case, &mut Picks::Seed(seed), &mut deeds);
        }
    }
}
