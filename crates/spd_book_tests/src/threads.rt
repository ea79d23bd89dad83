// 100,000 offers to one finish by four threads at once: each of them counts.

ghost use Rattle.spd_rule.specs.Shares.{IsOf};

use crate::given::{Given, read};
use crate::making::made;
use spd_rule::Field;
use spd_rule_tests::{Player, Stub, Turn};
use spd_words::FinishKind;
use std::alloc::Global;
use std::process::Abort;
use std::test::Fail;
use std::thread;
use std::thread::Threads;

/// How many values each of the four offers.
const EACH: i64 = 25_000;

/// The turns by which the running vertex becomes two.
const SPAWN: [Turn; 6] = [
    Turn::DrawSpawn,
    Turn::Arrive,
    Turn::Claim,
    Turn::SetHandles,
    Turn::StoreLeft(0),
    Turn::StoreRight(0),
];

/// Starts the vertex, which is ready.
fn start(field: &Field<Stub>, player: &mut Player, vertex: u32) -> Option<u64>
    requires { IsOf field.now player.old.share }
    ensures { IsOf field.now player.new.share }
{
    let seen = player.take(field, Turn::See(vertex))?;
    player.take(field, Turn::Start(vertex, seen))
}

/// Starts the vertex, and has it become two.
fn fork(rt: &impl Abort, field: &Field<Stub>, player: &mut Player, vertex: u32)
    requires { IsOf field.now player.old.share }
    ensures { IsOf field.now player.new.share }
{
    assert!(rt;
        start(field, player, vertex).is_some(),
        "the start of {vertex}"
    );
    for turn in SPAWN {
        assert!(rt; player.take(field, turn).is_some(), "{turn:?}");
    }
}

/// A player that runs the vertex.
fn runner(rt: &impl Abort, field: &Field<Stub>, player: &mut Player, vertex: u32) -> Player
    requires { IsOf field.now player.old.share }
    ensures same { IsOf field.now player.new.share }
    ensures other { IsOf field.now result.share }
{
    let mut other = player.split(field).expect(rt, "a spare seat");
    assert!(rt;
        start(field, &mut other, vertex).is_some(),
        "the start of {vertex}"
    );
    other
}

/// What one thread gives: values from the first on, and a code.
#[derive(Clone, Copy)]
struct Share {
    kind: FinishKind,
    first: i64,
    code: u64,
}

/// Gives all of it by the vertex that the player runs, and departs; says whether each step was taken.
fn give(field: &Field<Stub>, mut player: Player, share: Share) -> (Player, bool)
    requires { IsOf field.now player.share }
    ensures { IsOf field.now result.0.share }
{
    let mut well = true;
    for number in 0..EACH {
        let value = share.first.wrapping_add(number);
        let taken = player.take(field, Turn::Offer(share.kind, value));
        well = well && taken.is_some();
    }
    for turn in [Turn::Fault(share.code), Turn::Claim, Turn::Depart] {
        let taken = player.take(field, turn);
        well = well && taken.is_some();
    }
    (player, well)
}

/// Two threads give what is theirs.
fn pair_gives<R: Threads + Sync>(
    rt: &R,
    field: &Field<Stub>,
    one: Player,
    other: Player,
    first: Share,
    second: Share,
) -> bool
    requires one { IsOf field.now one.share }
    requires other { IsOf field.now other.share }
{
    let ((_, left), (_, right)) = thread::join(
        rt,
        || give(field, one, first),
        || give(field, other, second),
    );
    left && right
}

/// What the thread of this number gives.
fn share_of(kind: FinishKind, number: i64, code: u64) -> Share {
    let first = number.wrapping_mul(EACH).wrapping_sub(50_000);
    Share { kind, first, code }
}

/// Four players give what is theirs to a finish of this kind, on a thread each.
fn four_give<R: Threads + Sync>(
    rt: &R,
    field: &Field<Stub>,
    kind: FinishKind,
    a: Player,
    b: Player,
    c: Player,
    d: Player,
) -> bool
    requires a { IsOf field.now a.share }
    requires b { IsOf field.now b.share }
    requires c { IsOf field.now c.share }
    requires d { IsOf field.now d.share }
{
    let (first, second) = (share_of(kind, 0, 40), share_of(kind, 1, 33));
    let (third, fourth) = (share_of(kind, 2, 25), share_of(kind, 3, 47));
    let (left, right) = thread::join(
        rt,
        || -> bool
            requires one { IsOf field.now a.share }
            requires other { IsOf field.now b.share }
        { pair_gives(rt, field, a, b, first, second) },
        || -> bool
            requires one { IsOf field.now c.share }
            requires other { IsOf field.now d.share }
        { pair_gives(rt, field, c, d, third, fourth) },
    );
    left && right
}

/// What finish 0 has got once four vertices of it have given what is theirs.
fn on_four<R: Abort + Threads + Sync>(rt: &R, alloc: Global, kind: FinishKind) -> Given {
    let (field, mut maker) = made(rt, alloc, 4);
    for vertex in [0u32, 2, 3] {
        fork(rt, &field, &mut maker, vertex);
    }
    let a = runner(rt, &field, &mut maker, 4);
    let b = runner(rt, &field, &mut maker, 5);
    let c = runner(rt, &field, &mut maker, 6);
    let d = runner(rt, &field, &mut maker, 7);
    let well = four_give(rt, &field, kind, a, b, c, d);
    assert!(rt; well, "each step was taken");
    let word = maker.take(&field, Turn::SeeSum(0)).expect(rt, "a finish");
    let code = maker.take(&field, Turn::SeeFault(0)).expect(rt, "a finish");
    read(kind, word, code)
}

#[test]
fn each_of_100_000_offers_counts(rt: HostRuntime) {
    for (kind, gift) in [
        (FinishKind::Sum, -50_000),
        (FinishKind::Least, -50_000),
        (FinishKind::Greatest, 49_999),
    ] {
        let given = on_four(&rt, rt.alloc(), kind);
        assert_eq!(rt; given, Given { gift, code: 25 }, "{kind:?}");
    }
}
