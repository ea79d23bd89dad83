// The order in which lanes are looked at.

ghost use Rattle.std.specs.Prelude.{◌≡◌, ◌-◌};

use spd_ready::{Lane, Take, take_from};
use std::process::Abort;
use std::sync::Wait;

/// A lane with some vertices, which are taken from the first number on, and counts of its looks.
#[derive(Drop)]
struct Numbered {
    next: u32,
    end: u32,
    found: u32,
    empty: u64,
}

impl Lane for Numbered {
    ghost looks = { λ lane. lane.empty };

    fn try_take<R: Wait>(&mut self, _rt: &R) -> Option<u32> {
        if self.next < self.end {
            let vertex = self.next;
            self.next += 1;
            self.found = self.found.saturating_add(1);
            return Some(vertex);
        }
        self.empty = self.empty.saturating_add(1);
        None
    }
}

/// A lane of so many vertices.
fn lane_of(first: u32, count: u32) -> Numbered {
    Numbered {
        next: first,
        end: first.saturating_add(count),
        found: 0,
        empty: 0,
    }
}

/// Takes from four lanes again and again: the own one has two vertices, the others none, two and one.
#[test]
fn own_lane_first_and_then_the_others_in_order(rt: HostRuntime) {
    let mut own = lane_of(10, 2);
    let mut others = [lane_of(20, 0), lane_of(30, 2), lane_of(40, 1)];
    let expected = [
        Take::Got(10),
        Take::Got(11),
        Take::Got(30),
        Take::Got(31),
        Take::Got(40),
        Take::Empty,
        Take::Empty,
    ];
    for take in expected {
        assert_eq!(rt; take_from(&rt, &mut own, &mut others), take);
    }
    let [first, second, third] = &others;
    let counts = [own.empty, first.empty, second.empty, third.empty];
    assert_eq!(rt; counts, [5, 5, 3, 2]);
    let counts = [own.found, first.found, second.found, third.found];
    assert_eq!(rt; counts, [2, 0, 2, 1]);
}

#[test]
fn no_other_lanes(rt: HostRuntime) {
    let mut own = lane_of(3, 1);
    let others: &mut [Numbered] = &mut [];
    assert_eq!(rt; take_from(&rt, &mut own, others), Take::Got(3));
    assert_eq!(rt; take_from(&rt, &mut own, others), Take::Empty);
    assert_eq!(rt; own.empty, 1);
}
