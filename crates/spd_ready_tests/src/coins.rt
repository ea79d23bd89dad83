// Coins, by known words of PCG32 and by lists.
//
// The first six words of the generator with the state 42 on the stream 54 are those that the demonstration of
// PCG's C library prints: a15c02b7, 7b47f409, ba1d3330, 83d2f293, bfa4784b, cbed606e. Their low halves are
// 695, 62473, 13104, 62099, 30795 and 24686.

use spd_grow::{Coin, Heads, ListCoin, PcgCoin, Tails};
use std::process::Abort;

/// A chance, and the sides of the first six flips.
struct Row(u32, [bool; 6]);

const ROWS: [Row; 7] = [
    Row(0, [false; 6]),
    Row(695, [false; 6]),
    Row(696, [true, false, false, false, false, false]),
    Row(32_768, [true, false, true, false, true, true]),
    Row(62_473, [true, false, true, true, true, true]),
    Row(62_474, [true; 6]),
    Row(65_536, [true; 6]),
];

/// Flips a coin once for each side, and compares.
fn flip_all<C: Coin>(rt: &impl Abort, coin: &mut C, sides: &[bool], name: u32) {
    for side in sides {
        assert_eq!(rt; coin.flip(), *side, "{name}");
    }
}

#[test]
fn pcg_coins_fall_by_known_words(rt: HostRuntime) {
    for Row(chance, sides) in &ROWS {
        flip_all(&rt, &mut PcgCoin::new(42, 54, *chance), sides, *chance);
    }
    // A toss is the same, and another worker's generator is on another stream.
    assert!(rt; PcgCoin::new(42, 54, 696).toss());
    assert!(rt; !PcgCoin::new(42, 54, 695).toss());
    let mut differ = 0u32;
    let mut one = PcgCoin::new(1, 0, 32_768);
    let mut other = PcgCoin::new(1, 1, 32_768);
    for _ in 0..64u32 {
        if one.flip() != other.flip() {
            differ = differ.saturating_add(1);
        }
    }
    assert!(rt; differ > 8, "{differ}");
}

#[test]
fn lists_and_then_tails(rt: HostRuntime) {
    let list = [true, false, true];
    let mut coin = ListCoin::new(rt.alloc(), &list).expect(&rt, "memory");
    flip_all(&rt, &mut coin, &[true, false, true, false, false], 3);
    for length in 0..64usize {
        let mut coin = ListCoin::new(rt.alloc(), &[true; 64][..length]).expect(&rt, "memory");
        for _ in 0..length {
            assert!(rt; coin.flip(), "{length}");
        }
        assert!(rt; !coin.flip(), "{length}");
    }
}

#[test]
fn steady_coins(rt: HostRuntime) {
    flip_all(&rt, &mut Heads::new(), &[true; 5], 1);
    flip_all(&rt, &mut Tails::new(), &[false; 5], 0);
}
