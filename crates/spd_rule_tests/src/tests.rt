// A make, a spawn and a chain, played step by step. What each step answers and the word that it leaves are
// written by hand, from the layout of the words.
//
// Three moves, flat: word 0 counts the drawn ones, the roots are the words 3 to 5, the pairs 9 to 11, the
// vertices 12 to 17, the faults 21 to 23. Vertex 0 spawns 2 and 3; vertex 2 chains, with the body 4 and the
// rest 5; vertex 4 finds no move left, ends, and wakes 5; 5 and 3 end, and the later of them wakes 1.

ghost use Rattle.std.specs.Prelude.{◌≤◌};
ghost use Rattle.spd_rule.specs.Shares.{IsOf};

use crate::player::Player;
use crate::stub::Stub;
use crate::turns::Turn;
use spd_rule::{Closed, Field};
use spd_words::{NO_FAULT, Plan, Scheme};
use std::alloc::Global;
use std::process::Abort;
use std::sync::Wait;
use std::sync::atomic::{AtomicU64, Ordering};
use std::test::Fail;
use std::thread;
use std::thread::Threads;

/// A step, what it answers, and the word that it leaves at a place.
#[derive(Clone, Copy)]
struct Row(Turn, u64, usize, u64);

/// The place of no word.
const SAME: usize = 24;

/// Vertex 4: ready, left, of pair 2 and finish 2, incrementing at node 2.
const BODY: u64 = 1_099_515_822_098;

const ALONE: [Row; 34] = [
    Row(Turn::DrawMake, 0, 0, 1),
    Row(Turn::SetRoot, 0, 3, 2),
    Row(Turn::SetHandle, 0, 9, 4),
    Row(Turn::StoreEnd, 0, 13, 1),
    Row(Turn::StoreFirst(10), 0, 12, 2),
    Row(Turn::See(0), 2, SAME, 0),
    Row(Turn::Start(0, 2), 2, 12, 3),
    Row(Turn::DrawSpawn, 1, 0, 2),
    Row(Turn::Arrive, 2, 3, 4),
    Row(Turn::Claim, 4, 9, 5),
    Row(Turn::SetHandles, 0, 10, 8),
    Row(Turn::StoreLeft(12), 0, 14, 10),
    Row(Turn::StoreRight(13), 0, 15, 14),
    Row(Turn::Start(2, 14), 10, SAME, 0),
    Row(Turn::Start(2, 10), 10, 14, 11),
    Row(Turn::DrawChain, 2, 0, 3),
    Row(Turn::SetRoot, 0, 5, 2),
    Row(Turn::SetHandle, 0, 11, 132),
    Row(Turn::StoreRest(15), 0, 17, 9),
    Row(Turn::StoreBody(14), 0, 16, BODY),
    Row(Turn::Start(4, BODY), BODY, 16, BODY + 1),
    Row(Turn::DrawSpawn, 3, 0, 4),
    Row(Turn::Claim, 132, 11, 133),
    Row(Turn::Depart, 2, 5, 0),
    Row(Turn::Wake, 9, 17, 10),
    Row(Turn::Start(5, 10), 10, 17, 11),
    Row(Turn::Claim, 8, 10, 9),
    Row(Turn::Depart, 4, 3, 2),
    Row(Turn::Start(3, 14), 14, 15, 15),
    Row(Turn::Claim, 9, 10, 10),
    Row(Turn::Depart, 2, 3, 0),
    Row(Turn::See(1), 1, SAME, 0),
    Row(Turn::Wake, 1, 13, 2),
    Row(Turn::Start(1, 2), 2, 13, 3),
];

/// The word of a sum to which 4 and -9 were offered.
const GIFT: u64 = u64::MAX - 4;

/// Two vertices of finish 0 run one after the other. The first offers 4 and ends; the second offers -9,
/// fails with the codes 33, 25 and 40, and is told the finish, whose waiting vertex collects and ends all.
const BOOKS: [Row; 17] = [
    Row(Turn::Start(2, 10), 10, 14, 11),
    Row(Turn::AddSum(4), 0, 18, 4),
    Row(Turn::Claim, 8, 10, 9),
    Row(Turn::Depart, 4, 3, 2),
    Row(Turn::Start(3, 14), 14, 15, 15),
    Row(Turn::AddSum(-9), 4, 18, GIFT),
    Row(Turn::LowerFault(33), NO_FAULT, 21, 33),
    Row(Turn::LowerFault(25), 33, 21, 25),
    Row(Turn::LowerFault(40), 25, 21, 25),
    Row(Turn::Claim, 9, 10, 10),
    Row(Turn::Depart, 2, 3, 0),
    Row(Turn::Wake, 1, 13, 2),
    Row(Turn::Start(1, 2), 2, 13, 3),
    Row(Turn::SeeSum(0), GIFT, SAME, 0),
    Row(Turn::SeeFault(0), 25, SAME, 0),
    Row(Turn::SetDone, 0, 2, 1),
    Row(Turn::SeeDone, 1, SAME, 0),
];

/// The words of 7, 3 and 5 as a least counts them: the lesser value has the greater word.
const SEVEN: u64 = 9_223_372_036_854_775_800;

const THREE: u64 = 9_223_372_036_854_775_804;

const FIVE: u64 = 9_223_372_036_854_775_802;

const BEST: [Row; 5] = [
    Row(Turn::Start(2, 10), 10, 14, 11),
    Row(Turn::RaiseBest(SEVEN), 0, 18, SEVEN),
    Row(Turn::RaiseBest(THREE), SEVEN, 18, THREE),
    Row(Turn::RaiseBest(FIVE), THREE, 18, THREE),
    Row(Turn::SeeSum(0), THREE, SAME, 0),
];

/// How many of the rows make, start vertex 0 and store its spawn.
const FORKED: usize = 13;

/// What the share that starts vertex 2 does then, and the one that starts vertex 3. The last step of each is
/// taken by the one of them that is told the finish 0.
const LEFT: [Turn; 14] = [
    Turn::Start(2, 10),
    Turn::DrawChain,
    Turn::SetRoot,
    Turn::SetHandle,
    Turn::StoreRest(15),
    Turn::StoreBody(14),
    Turn::Start(4, BODY),
    Turn::Claim,
    Turn::Depart,
    Turn::Wake,
    Turn::Start(5, 10),
    Turn::Claim,
    Turn::Depart,
    Turn::Wake,
];

const RIGHT: [Turn; 4] = [Turn::Start(3, 14), Turn::Claim, Turn::Depart, Turn::Wake];

/// A new field of the plan, and its player.
fn begin(rt: &impl Abort, alloc: Global) -> (Field<Stub>, Player)
    ensures { IsOf result.0 result.1.share }
{
    let plan = Plan::new(Scheme::Flat, 3, 0).expect(rt, "three moves");
    let (field, share) = Field::new(alloc, plan).expect(rt, "memory");
    (field, Player::first(share))
}

/// Plays these rows, and looks at each answer.
fn play(rt: &impl Abort, field: &Field<Stub>, player: &mut Player, rows: &[Row])
    requires { IsOf field.now player.old.share }
    ensures { IsOf field.now player.new.share }
{
    for Row(turn, answer, _, _) in rows {
        assert_eq!(rt; player.take(field, *turn), Some(*answer), "{turn:?}");
    }
}

/// The words once so many rows are played.
fn words_after(rows: usize) -> [u64; 25] {
    let mut words = [0; 25];
    words[21] = NO_FAULT;
    words[22] = NO_FAULT;
    words[23] = NO_FAULT;
    for Row(_, _, place, word) in ALONE.iter().take(rows) {
        if *place < 24 {
            words[*place] = *word;
        }
    }
    words
}

/// Compares each word of the field with the one that is expected.
fn compare(rt: &impl Abort, closed: &Closed<Stub>, expected: &[u64]) {
    let count = closed.plan().words();
    for place in 0..count {
        let word = expected.get(place as usize).copied();
        assert_eq!(rt; Some(closed.word(place)), word, "word {place}");
    }
}

#[test]
fn every_word_after_each_step(rt: HostRuntime) {
    for rows in 0..ALONE.len() + 1 {
        let (field, mut player) = begin(&rt, rt.alloc());
        play(&rt, &field, &mut player, &ALONE[..rows]);
        let closed = player.close(field).expect(&rt, "all seats");
        compare(&rt, &closed, &words_after(rows));
    }
}

/// Plays one share to vertex 0's spawn, and splits another off.
fn forked(rt: &impl Abort, alloc: Global) -> (Field<Stub>, Player, Player)
    ensures left { IsOf result.0 result.1.share }
    ensures right { IsOf result.0 result.2.share }
{
    let (field, mut left) = begin(rt, alloc);
    play(rt, &field, &mut left, &ALONE[..FORKED]);
    let right = left.split(&field).expect(rt, "a spare seat");
    (field, left, right)
}

/// Joins the two, once the finish 0 was told to exactly one of them, and compares the words at the end.
fn end(rt: &impl Abort, field: Field<Stub>, mut left: Player, right: Player, told: usize)
    requires left { IsOf field left.share }
    requires right { IsOf field right.share }
{
    assert_eq!(rt; told, 1, "the finish 0 is told once");
    assert_eq!(rt; left.join(&field, right), Some(0), "nothing is in hand");
    let closed = left.close(field).expect(rt, "all seats");
    let mut words = words_after(ALONE.len() - 1);
    words[0] = 3;
    compare(rt, &closed, &words);
    assert_eq!(rt; closed.moves(), 3);
}

/// Which share takes each of the steps: the right one where the bit of the step is set.
fn is_right(order: u64, step: usize) -> bool {
    step < 64 && order >> step & 1 == 1
}

/// Takes the next step of a program, and says whether it woke vertex 1. A last step may be refused.
fn next(
    rt: &impl Abort,
    field: &Field<Stub>,
    player: &mut Player,
    program: &[Turn],
    at: usize,
) -> usize
    requires { IsOf field.now player.old.share }
    ensures of { IsOf field.now player.new.share }
    ensures one { result ≤ 1 }
{
    let turn = program.get(at).copied().expect(rt, "a step is left");
    let taken = player.take(field, turn).is_some();
    let last = at == program.len() - 1;
    assert!(rt; taken || last, "{turn:?} is refused");
    if taken && last { 1 } else { 0 }
}

/// Plays both programs on one thread, in this order.
fn interleave(rt: &impl Abort, alloc: Global, order: u64) {
    let (field, mut left, mut right) = forked(rt, alloc);
    let mut at_right = 0;
    let mut woken = 0;
    for step in 0..18usize {
        if is_right(order, step) {
            woken += next(rt, &field, &mut right, &RIGHT, at_right);
            at_right += 1;
        } else {
            woken += next(rt, &field, &mut left, &LEFT, step - at_right);
        }
    }
    end(rt, field, left, right, woken);
}

/// Whether the right share takes 4 of the 18 steps.
fn is_order(order: u64) -> bool {
    order.count_ones() == 4
}

#[test]
fn all_interleavings(rt: HostRuntime) {
    let mut played = 0u64;
    for order in 0..262_144u64 {
        if is_order(order) {
            interleave(&rt, rt.alloc(), order);
            played += 1;
        }
    }
    assert_eq!(rt; played, 3060);
}

/// An order of the steps, drawn from a seed.
fn order_of(seed: u64) -> u64 {
    let mut state = seed.wrapping_mul(6_364_136_223_846_793_005) | 1;
    let mut order = 0u64;
    for _ in 0..10_000 {
        if order.count_ones() == 4 {
            return order;
        }
        state = state
            .wrapping_mul(6_364_136_223_846_793_005)
            .wrapping_add(1_442_695_040_888_963_407);
        order |= 1 << (state / 8_589_934_592 % 18);
    }
    0b1111
}

/// Plays one program on a thread, whose steps are taken at their turns.
fn follow(
    rt: &(impl Abort + Wait),
    field: &Field<Stub>,
    mut player: Player,
    baton: &AtomicU64,
    order: u64,
    right: bool,
) -> (Player, usize)
    requires { IsOf field.now player.share }
    ensures { IsOf field.now result.0.share }
{
    let mut at = 0;
    let mut woken = 0;
    for step in 0..18usize {
        if is_right(order, step) == right {
            for _ in rt.forever() {
                if baton.load(Ordering::SeqCst) == step as u64 {
                    break;
                }
                thread::yield_now();
            }
            let program = if right {
                RIGHT.as_slice()
            } else {
                LEFT.as_slice()
            };
            woken += next(rt, field, &mut player, program, at);
            at += 1;
            baton.store(step as u64 + 1, Ordering::SeqCst);
        }
    }
    (player, woken)
}

/// Plays both programs on two threads, in this order.
fn in_threads<R: Abort + Wait + Threads + Sync>(rt: &R, alloc: Global, order: u64) {
    let (field, left, right) = forked(rt, alloc);
    let baton = AtomicU64::new(0);
    let ((left, first), (right, second)) = thread::join(
        rt,
        || follow(rt, &field, left, &baton, order, false),
        || follow(rt, &field, right, &baton, order, true),
    );
    end(rt, field, left, right, first.saturating_add(second));
}

#[test]
fn two_threads_in_seeded_orders(rt: HostRuntime) {
    for seed in 0..24 {
        in_threads(&rt, rt.alloc(), order_of(seed));
    }
}

#[test]
fn the_very_body_comes_out(rt: HostRuntime) {
    let (field, mut player) = begin(&rt, rt.alloc());
    play(&rt, &field, &mut player, &ALONE[..7]);
    assert_eq!(rt; player.body, Some(Stub::new(10)));
    // A share that runs a vertex has no other one to start, and no move to open.
    assert_eq!(rt; player.take(&field, Turn::Start(0, 2)), None);
    assert_eq!(rt; player.take(&field, Turn::SetRoot), None);
}

#[test]
fn a_share_with_a_seat_missing_closes_nothing(rt: HostRuntime) {
    let (field, mut left) = begin(&rt, rt.alloc());
    let right = left.split(&field).expect(&rt, "a spare seat");
    assert_eq!(rt; left.share.spare(), 62);
    assert_eq!(rt; right.share.spare(), 0);
    assert!(rt; left.close(field).is_none());
}

/// The steps of two shares: whether the right one takes it, the step, what it answers, and the starts of the
/// left and of the right share once it is taken.
#[derive(Clone, Copy)]
struct Counted(bool, Turn, u64, u64, u64);

/// The right share misses vertex 2, which the left one has started, and starts vertex 3.
const COUNTED: [Counted; 5] = [
    Counted(false, Turn::Start(2, 10), 10, 2, 0),
    Counted(true, Turn::Start(2, 10), 11, 2, 0),
    Counted(true, Turn::Start(3, 14), 14, 2, 1),
    Counted(true, Turn::Claim, 8, 2, 1),
    Counted(true, Turn::Depart, 4, 2, 1),
];

/// What is left to the left share, once it has the other's seats and starts.
const REST: [Row; 4] = [
    Row(Turn::Claim, 9, 10, 10),
    Row(Turn::Depart, 2, 3, 0),
    Row(Turn::Wake, 1, 13, 2),
    Row(Turn::Start(1, 2), 2, 13, 3),
];

#[test]
fn the_starts_of_two_shares(rt: HostRuntime) {
    let (field, mut left, mut right) = forked(&rt, rt.alloc());
    assert_eq!(rt; left.share.starts(), 1, "vertex 0");
    assert_eq!(rt; right.share.starts(), 0, "a new share");
    for Counted(at_right, turn, answer, lefts, rights) in COUNTED {
        let found = if at_right {
            right.take(&field, turn)
        } else {
            left.take(&field, turn)
        };
        assert_eq!(rt; found, Some(answer), "{turn:?}");
        assert_eq!(rt; left.share.starts(), lefts, "{turn:?}");
        assert_eq!(rt; right.share.starts(), rights, "{turn:?}");
    }
    assert_eq!(rt; left.join(&field, right), Some(0), "nothing is in hand");
    assert_eq!(rt; left.share.starts(), 3);
    play(&rt, &field, &mut left, &REST);
    assert_eq!(rt; left.share.starts(), 4, "two for each of two moves");
}

/// Plays the rows of the fork and then these, and compares each word with what the rows leave.
fn follow_fork(rt: &impl Abort, alloc: Global, rows: &[Row]) {
    let (field, mut player) = begin(rt, alloc);
    play(rt, &field, &mut player, &ALONE[..FORKED]);
    play(rt, &field, &mut player, rows);
    let mut words = words_after(FORKED);
    for Row(_, _, place, word) in rows {
        if *place < 24 {
            words[*place] = *word;
        }
    }
    let closed = player.close(field).expect(rt, "all seats");
    compare(rt, &closed, &words);
}

#[test]
fn offers_and_faults_of_one_finish(rt: HostRuntime) {
    follow_fork(&rt, rt.alloc(), &BOOKS);
    follow_fork(&rt, rt.alloc(), &BEST);
}
