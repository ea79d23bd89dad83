// A pile, by tables of what is put there and what is taken.

use spd_ready::Pile;
use std::process::Abort;

/// A number is put there, or one is expected to be taken out.
enum Act {
    Add(u32),
    Out(Option<u32>),
}

/// A room, and what is done.
struct Row(u32, &'static [Act]);

const ROWS: [Row; 5] = [
    // The newest leaves first.
    Row(
        3,
        &[
            Act::Add(7),
            Act::Add(8),
            Act::Out(Some(8)),
            Act::Add(9),
            Act::Out(Some(9)),
            Act::Out(Some(7)),
            Act::Out(None),
        ],
    ),
    // What there is no room for isn't added, and nothing else changes.
    Row(
        2,
        &[
            Act::Add(1),
            Act::Add(2),
            Act::Add(3),
            Act::Out(Some(2)),
            Act::Add(4),
            Act::Out(Some(4)),
            Act::Out(Some(1)),
            Act::Out(None),
        ],
    ),
    // A number may stand there twice.
    Row(
        2,
        &[
            Act::Add(5),
            Act::Add(5),
            Act::Out(Some(5)),
            Act::Out(Some(5)),
            Act::Out(None),
        ],
    ),
    Row(
        1,
        &[
            Act::Out(None),
            Act::Add(u32::MAX),
            Act::Out(Some(u32::MAX)),
            Act::Out(None),
        ],
    ),
    Row(0, &[Act::Add(6), Act::Out(None)]),
];

#[test]
fn piles(rt: HostRuntime) {
    for Row(room, acts) in &ROWS {
        let mut pile = Pile::new(rt.alloc(), *room).expect(&rt, "memory");
        for act in *acts {
            match act {
                Act::Add(vertex) => pile.add(*vertex),
                Act::Out(vertex) => assert_eq!(rt; pile.take_out(), *vertex, "room {room}"),
            }
        }
    }
}
