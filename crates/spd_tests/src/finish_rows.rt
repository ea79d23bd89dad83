// Programs that begin with a finish: what they print, and how that finish runs.

use spd_task_tests::Met::{self, Async, Finish, Offer, Over};
use spd_words::FinishKind;

/// A program that begins with a finish.
pub(crate) struct FinishRow {
    pub(crate) text: &'static [u8],
    pub(crate) prints: &'static [u8],
    /// What the finish gives.
    pub(crate) gift: i64,
    /// Its moves: one of its own, and one for each async and each finish inside it.
    pub(crate) moves: u64,
    /// The events of its task where every part is taken inside, in the order of the text. What is
    /// offered to a finish inside is none of them.
    pub(crate) events: &'static [Met],
}

pub(crate) static FINISH_ROWS: [FinishRow; 23] = [
    // What nothing offered gives.
    FinishRow {
        text: b"main { let x = finish least { } print x; }",
        prints: b"9223372036854775807\n",
        gift: i64::MAX,
        moves: 1,
        events: &[Over],
    },
    FinishRow {
        text: b"main { let x = finish greatest { } print x; }",
        prints: b"-9223372036854775808\n",
        gift: i64::MIN,
        moves: 1,
        events: &[Over],
    },
    FinishRow {
        text: b"main { let x = finish sum { } print x; }",
        prints: b"0\n",
        gift: 0,
        moves: 1,
        events: &[Over],
    },
    // An offer goes to the innermost finish around it.
    FinishRow {
        text: b"main { let s = finish sum { offer 2; async { offer 3; finish { async { offer 9; } } } } print s; }",
        prints: b"5\n",
        gift: 5,
        moves: 4,
        events: &[
            Offer(2),
            Async,
            Offer(3),
            Finish(FinishKind::Plain),
            Async,
            Over,
        ],
    },
    FinishRow {
        text: b"main { finish { offer 5; async { offer 6; } } print 1; }",
        prints: b"1\n",
        gift: 0,
        moves: 2,
        events: &[Offer(5), Async, Offer(6), Over],
    },
    FinishRow {
        text: b"main { let s = finish sum { finish { offer 5; async { offer 6; } } offer 1; } print s; }",
        prints: b"1\n",
        gift: 1,
        moves: 3,
        events: &[Finish(FinishKind::Plain), Async, Offer(1), Over],
    },
    FinishRow {
        text: b"main { let s = finish sum { let t = finish greatest { offer 3; async { offer 7; } } offer t; offer t; } print s; }",
        prints: b"14\n",
        gift: 14,
        moves: 3,
        events: &[
            Finish(FinishKind::Greatest),
            Async,
            Offer(7),
            Offer(7),
            Over,
        ],
    },
    FinishRow {
        text: b"main { let s = finish sum { async { let t = finish sum { async { offer 1; } offer 2; } offer t + 10; } } print s; }",
        prints: b"13\n",
        gift: 13,
        moves: 4,
        events: &[Async, Finish(FinishKind::Sum), Async, Offer(13), Over],
    },
    FinishRow {
        text: b"main { let s = finish least { async { let t = finish greatest { async { offer 1; } offer 20; } async { offer t; } } offer 21; } print s; }",
        prints: b"20\n",
        gift: 20,
        moves: 5,
        events: &[
            Async,
            Finish(FinishKind::Greatest),
            Async,
            Async,
            Offer(20),
            Offer(21),
            Over,
        ],
    },
    FinishRow {
        text: b"main { let s = finish sum { async { async { async { offer 4; } offer 40; } } offer 400; } print s; }",
        prints: b"444\n",
        gift: 444,
        moves: 4,
        events: &[Async, Async, Async, Offer(4), Offer(40), Offer(400), Over],
    },
    FinishRow {
        text: b"main { let s = finish least { finish { async { let a = finish greatest { offer 4; async { offer 6; } } offer a; } } offer 9; async { let b = finish sum { offer 1; async { finish { async { offer 100; } } offer 2; } } offer b; } } print s; }",
        prints: b"3\n",
        gift: 3,
        moves: 10,
        events: &[
            Finish(FinishKind::Plain),
            Async,
            Finish(FinishKind::Greatest),
            Async,
            Offer(9),
            Async,
            Finish(FinishKind::Sum),
            Async,
            Finish(FinishKind::Plain),
            Async,
            Offer(3),
            Over,
        ],
    },
    // Gifts.
    FinishRow {
        text: b"main { let s = finish least { offer 7; async { offer 3; } offer 5; } print s; }",
        prints: b"3\n",
        gift: 3,
        moves: 2,
        events: &[Offer(7), Async, Offer(3), Offer(5), Over],
    },
    FinishRow {
        text: b"main { let s = finish greatest { offer 7; async { offer 30; } offer 5; } print s; }",
        prints: b"30\n",
        gift: 30,
        moves: 2,
        events: &[Offer(7), Async, Offer(30), Offer(5), Over],
    },
    FinishRow {
        text: b"main { let s = finish sum { offer 9223372036854775807; async { offer 1; } } print s; }",
        prints: b"-9223372036854775808\n",
        gift: i64::MIN,
        moves: 2,
        events: &[Offer(i64::MAX), Async, Offer(1), Over],
    },
    FinishRow {
        text: b"main { let s = finish least { offer 9223372036854775807 + 2; offer 0; } print s; }",
        prints: b"-9223372036854775807\n",
        gift: -9_223_372_036_854_775_807,
        moves: 1,
        events: &[Offer(-9_223_372_036_854_775_807), Offer(0), Over],
    },
    FinishRow {
        text: b"main { let s = finish greatest { offer 9223372036854775807 + 2; } print s; }",
        prints: b"-9223372036854775807\n",
        gift: -9_223_372_036_854_775_807,
        moves: 1,
        events: &[Offer(-9_223_372_036_854_775_807), Over],
    },
    // Blocks see the values of their place, and what they bind stays in them.
    FinishRow {
        text: b"main { let s = finish sum { async { let z = 1; offer z; } async { let z = 2; offer z; } let z = 4; offer z; } print s; }",
        prints: b"7\n",
        gift: 7,
        moves: 3,
        events: &[Async, Offer(1), Async, Offer(2), Offer(4), Over],
    },
    FinishRow {
        text: b"main { let s = finish sum { let y = 2; async { let z = y + 1; offer z; } let z = 7; offer y + z; } print s; }",
        prints: b"12\n",
        gift: 12,
        moves: 2,
        events: &[Async, Offer(3), Offer(9), Over],
    },
    FinishRow {
        text: b"main { let s = finish sum { let a = finish sum { let b = finish sum { offer 1; } offer b + 1; } let b = 5; offer a + b; } print s; }",
        prints: b"7\n",
        gift: 7,
        moves: 3,
        events: &[
            Finish(FinishKind::Sum),
            Finish(FinishKind::Sum),
            Offer(7),
            Over,
        ],
    },
    FinishRow {
        text: b"main { let x = finish sum { let x = 1; offer x; } print x + x; }",
        prints: b"2\n",
        gift: 1,
        moves: 1,
        events: &[Offer(1), Over],
    },
    // Blocks without statements, and text without blanks.
    FinishRow {
        text: b"main { finish { async { } finish { } let x = finish sum { } } print \"\"; }",
        prints: b"\n",
        gift: 0,
        moves: 4,
        events: &[
            Async,
            Finish(FinishKind::Plain),
            Finish(FinishKind::Sum),
            Over,
        ],
    },
    FinishRow {
        text: b"main{let s=finish sum{async{offer 1;}finish{}offer 2;}print s;}",
        prints: b"3\n",
        gift: 3,
        moves: 3,
        events: &[Async, Offer(1), Finish(FinishKind::Plain), Offer(2), Over],
    },
    FinishRow {
        text: b"main {\n  let s = finish # why\n  sum {\n    offer 1; # one\n  }\n  print s;\n}\n",
        prints: b"1\n",
        gift: 1,
        moves: 1,
        events: &[Offer(1), Over],
    },
];
