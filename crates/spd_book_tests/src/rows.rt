// Finishes whose vertices offer and fault, and what is collected of them: values written by hand.

ghost use Rattle.spd_book_tests.specs.Crews.{IsTeam};

use crate::crew::Team;
use crate::given::Given;
use crate::making::team_of;
use spd_rule_tests::Turn;
use spd_words::{FinishKind, NO_FAULT};
use std::alloc::Global;
use std::process::Abort;
use std::test::Fail;

/// The turns of a spawn, of a vertex whose number doesn't matter.
const SPAWN: [Turn; 6] = [
    Turn::DrawSpawn,
    Turn::Arrive,
    Turn::Claim,
    Turn::SetHandles,
    Turn::StoreLeft(0),
    Turn::StoreRight(0),
];

/// The turns of a signal that isn't the last of its finish, and of one that is.
const LEAVE: [Turn; 2] = [Turn::Claim, Turn::Depart];

const WAKE: [Turn; 3] = [Turn::Claim, Turn::Depart, Turn::Wake];

/// The turns of a chain whose finish is of this kind.
fn chain(kind: FinishKind) -> [Turn; 5] {
    [
        Turn::DrawChain,
        Turn::SetRoot,
        Turn::SetHandle,
        Turn::StoreWaiting(0, kind),
        Turn::StoreBody(0),
    ]
}

/// Starts the vertex by the player of this number, which then takes these turns.
fn run(rt: &impl Abort, team: &mut Team, at: usize, vertex: u32, turns: &[Turn])
    requires { IsTeam team.old }
    ensures { IsTeam team.new }
{
    let found = team.start(at, vertex);
    assert!(rt; found.is_some(), "the start of {vertex} by {at}");
    follow(rt, team, at, turns);
}

/// Has the player take these turns.
fn follow(rt: &impl Abort, team: &mut Team, at: usize, turns: &[Turn])
    requires { IsTeam team.old }
    ensures { IsTeam team.new }
{
    for turn in turns {
        let found = team.take(at, *turn);
        assert!(rt; found.is_some(), "{turn:?} by {at}");
    }
}

/// Vertex 0 opens the finish 1 of this kind, whose first vertex, 2, spawns 4 and 5; vertex 4 spawns 6 and 7.
/// Vertex 3 waits for it.
fn three_bodies(rt: &impl Abort, alloc: Global, kind: FinishKind) -> Team
    ensures { IsTeam result }
{
    let mut team = team_of(rt, alloc, 4);
    run(rt, &mut team, 0, 0, &chain(kind));
    run(rt, &mut team, 0, 2, &SPAWN);
    run(rt, &mut team, 0, 4, &SPAWN);
    team
}

/// What is collected of a finish of this kind, of which two running vertices offer 4 and -9, and a third puts
/// the codes 33 and then 25.
fn collected(rt: &impl Abort, alloc: Global, kind: FinishKind) -> Option<Given> {
    let mut team = three_bodies(rt, alloc, kind);
    run(rt, &mut team, 0, 5, &[]);
    run(rt, &mut team, 1, 6, &[]);
    run(rt, &mut team, 2, 7, &[Turn::Fault(33)]);
    follow(rt, &mut team, 0, &[Turn::Offer(kind, 4)]);
    follow(rt, &mut team, 2, &[Turn::Fault(25)]);
    follow(rt, &mut team, 1, &[Turn::Offer(kind, -9)]);
    follow(rt, &mut team, 2, &LEAVE);
    follow(rt, &mut team, 0, &LEAVE);
    follow(rt, &mut team, 1, &WAKE);
    run(rt, &mut team, 0, 3, &[]);
    team.collect(0, 1, kind)
}

#[test]
fn what_three_vertices_of_a_finish_give(rt: HostRuntime) {
    for (kind, gift) in [
        (FinishKind::Plain, 0),
        (FinishKind::Sum, -5),
        (FinishKind::Least, -9),
        (FinishKind::Greatest, 4),
    ] {
        let given = collected(&rt, rt.alloc(), kind);
        assert_eq!(rt; given, Some(Given { gift, code: 25 }), "{kind:?}");
    }
}

/// What is collected of a finish of this kind to which nothing is given.
fn collected_of_nothing(rt: &impl Abort, alloc: Global, kind: FinishKind) -> Option<Given> {
    let mut team = team_of(rt, alloc, 2);
    run(rt, &mut team, 0, 0, &chain(kind));
    run(rt, &mut team, 1, 2, &WAKE);
    run(rt, &mut team, 2, 3, &[]);
    team.collect(2, 1, kind)
}

#[test]
fn what_a_finish_gives_to_which_nothing_is_given(rt: HostRuntime) {
    for (kind, gift) in [
        (FinishKind::Plain, 0),
        (FinishKind::Sum, 0),
        (FinishKind::Least, i64::MAX),
        (FinishKind::Greatest, i64::MIN),
    ] {
        let given = collected_of_nothing(&rt, rt.alloc(), kind);
        let code = NO_FAULT;
        assert_eq!(rt; given, Some(Given { gift, code }), "{kind:?}");
    }
}

/// What is collected of a finish whose one vertex gives this.
fn collected_of_one(
    rt: &impl Abort,
    alloc: Global,
    kind: FinishKind,
    gives: &[Turn],
) -> Option<Given> {
    let mut team = team_of(rt, alloc, 2);
    run(rt, &mut team, 0, 0, &chain(kind));
    run(rt, &mut team, 0, 2, gives);
    follow(rt, &mut team, 0, &WAKE);
    run(rt, &mut team, 0, 3, &[]);
    team.collect(0, 1, kind)
}

#[test]
fn offers_behind_a_fault_still_count(rt: HostRuntime) {
    let kind = FinishKind::Sum;
    let gives = [
        Turn::Offer(kind, 4),
        Turn::Fault(25),
        Turn::Offer(kind, -9),
        Turn::Fault(40),
    ];
    let given = collected_of_one(&rt, rt.alloc(), kind, &gives);
    assert_eq!(rt; given, Some(Given { gift: -5, code: 25 }));
}

#[test]
fn sums_wrap_and_the_best_values_stand(rt: HostRuntime) {
    for (kind, first, second, gift) in [
        (FinishKind::Sum, i64::MAX, 1, i64::MIN),
        (FinishKind::Sum, i64::MIN, -1, i64::MAX),
        (FinishKind::Least, i64::MIN, i64::MAX, i64::MIN),
        (FinishKind::Least, i64::MAX, i64::MAX, i64::MAX),
        (FinishKind::Greatest, i64::MIN, i64::MIN, i64::MIN),
        (FinishKind::Greatest, 0, i64::MAX, i64::MAX),
    ] {
        let gives = [Turn::Offer(kind, first), Turn::Offer(kind, second)];
        let given = collected_of_one(&rt, rt.alloc(), kind, &gives);
        let code = NO_FAULT;
        assert_eq!(rt;
            given,
            Some(Given { gift, code }),
            "{kind:?} of {first} and {second}"
        );
    }
}

/// Three finishes one in another: vertex 0 opens the finish 1, whose vertex 2 opens the finish 2, whose
/// vertex 4 opens the finish 3. Vertex 6 puts the code 0 there.
fn tainted(rt: &impl Abort, alloc: Global) -> Team
    ensures { IsTeam result }
{
    let mut team = team_of(rt, alloc, 4);
    let opens = chain(FinishKind::Sum);
    run(rt, &mut team, 0, 0, &opens);
    run(rt, &mut team, 0, 2, &opens);
    run(rt, &mut team, 0, 4, &opens);
    run(rt, &mut team, 0, 6, &[Turn::Fault(0)]);
    follow(rt, &mut team, 0, &WAKE);
    team
}

/// The vertex that waited for the finish collects the code 0. It may neither signal, chain nor spawn until it
/// has put that code; then it signals.
fn passes_on(rt: &impl Abort, team: &mut Team, at: usize, finish: u32)
    requires { IsTeam team.old }
    ensures { IsTeam team.new }
{
    let vertex = finish.saturating_mul(2).saturating_add(1);
    run(rt, team, at, vertex, &[]);
    assert_eq!(rt; team.take(at, Turn::Claim), None, "it has yet to collect");
    let given = team.collect(at, finish, FinishKind::Sum);
    assert_eq!(rt; given, Some(Given { gift: 0, code: 0 }));
    for turn in [Turn::Claim, Turn::DrawChain, Turn::DrawSpawn] {
        assert_eq!(rt; team.take(at, turn), None, "{turn:?} of a hurt share");
    }
    follow(rt, team, at, &[Turn::Fault(0)]);
    follow(rt, team, at, &WAKE);
}

#[test]
fn want_of_memory_comes_to_finish_0(rt: HostRuntime) {
    let mut team = tainted(&rt, rt.alloc());
    passes_on(&rt, &mut team, 0, 3);
    passes_on(&rt, &mut team, 1, 2);
    passes_on(&rt, &mut team, 2, 1);
    assert!(rt; team.start(0, 1).is_some());
    let given = team.look(0, FinishKind::Sum);
    assert_eq!(rt; given, Some(Given { gift: 0, code: 0 }));
}
