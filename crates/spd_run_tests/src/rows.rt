// Programs by `elide`, and by `run` on so many workers and within so many moves: bytes and status are the same.

use crate::running::{Answer, Failing, expect, shelf_of};
use spd_work::RunLog;
use std::alloc::{AllocError, Global};
use std::process::Abort;
use std::sync::Wait;
use std::test::Fail;
use std::thread::Threads;

const WORKERS: [&str; 5] = ["1", "2", "3", "8", "64"];

const MOVES: [&str; 5] = ["1", "2", "3", "7", "64"];

/// The name of a program, the calls that are to fail, and what is answered, worked out by hand.
type RunRow = (&'static str, Failing, Answer<'static>);

/// A program that divides by zero at line 3, between two prints.
const DIVIDING: &[u8] = b"main {\n print 1; print 2;\n print 1 / 0;\n print 3;\n}";

/// A program that calls too deep at line 2, between two prints.
const CALLING: &[u8] =
    b"fn d(n) {\n let x = d(n + 1);\n return x;\n}\nmain { print 1; let x = d(0); print x; }";

/// A program over a column.
const SUMMING: &[u8] = b"column p: int from \"p.csv\" field \"price\";
main {
  let s = finish sum { for i in 0..len(p) { async { offer p[i]; } } }
  print s; print p[1];
}";

/// Finishes of each kind, and finishes in asyncs in finishes.
const KINDS: &[u8] = b"main {
  let s = finish sum { offer 3; async { offer 4; } }
  let l = finish least { offer 3; async { offer 1; } offer 2; }
  let g = finish greatest { async { offer 3; } async { offer 5; } }
  finish { async { finish { } } }
  print s, \" \", l, \" \", g;
  let n = finish sum { async { let t = finish sum { async { offer 2; } offer 3; } offer t; } offer 4; }
  print n;
}";

/// Of the faults of a finish, the one with the least line is told; another finish is never come to.
const FAULTS: &[u8] = b"main {
  print 1;
  finish {
    async { async { let x = 1 % 0; } }
    async { let y = 1 / 0; }
    let z = 1 / 0;
  }
  finish { let w = 1 / 0; }
  print 2;
}";

/// A call of main's and one in a finish.
const CALLS: &[u8] = b"fn f(n) {
  if n < 1 { return 0; }
  let a = f(n - 1);
  return a + n;
}
main {
  let x = f(5);
  let y = finish sum { async { let z = f(3); offer z; } offer x; }
  print x, \" \", y;
}";

/// A tree of 127 tasks, each of which offers 1.
const TREE: &[u8] = b"task t(n) {
  offer 1;
  if n > 0 { async { run t(n - 1); } async { run t(n - 1); } }
}
main { let s = finish sum { run t(6); } print s; }";

/// Files by their names.
static FILES: [(&str, &[u8]); 16] = [
    ("help", b"main { print 7; }"),
    ("a.sp", b"main { print y; }"),
    ("semicolon.sp", b"main { print 1;\n; }"),
    ("byte.sp", b"main {\n\n@ }"),
    ("two.sp", b"main { print 1; finish { } print 2; }"),
    ("lines.sp", b"main { } lines l from \"a\";"),
    ("div.sp", DIVIDING),
    ("deep.sp", CALLING),
    ("sum.sp", SUMMING),
    ("p.csv", b"price,name\n10,a\n-3,\"b,c\"\n7,\n"),
    (
        "bad.sp",
        b"column p: int from \"bad.csv\" field \"n\"; main { print 1; }",
    ),
    ("bad.csv", b"n\r\n1\r\n12x\r\n"),
    ("kinds.sp", KINDS),
    ("faults.sp", FAULTS),
    ("calls.sp", CALLS),
    ("tree.sp", TREE),
];

static ROWS: [RunRow; 30] = [
    // Programs that run.
    ("help", (0, 0, 0), (b"7\n", b"", 0)),
    ("two.sp", (0, 0, 0), (b"1\n2\n", b"", 0)),
    ("sum.sp", (0, 0, 0), (b"14\n-3\n", b"", 0)),
    ("kinds.sp", (0, 0, 0), (b"7 1 5\n9\n", b"", 0)),
    ("calls.sp", (0, 0, 0), (b"15 21\n", b"", 0)),
    ("tree.sp", (0, 0, 0), (b"127\n", b"", 0)),
    // Faults of a run, with their lines.
    (
        "div.sp",
        (0, 0, 0),
        (b"1\n2\n", b"spd: div.sp:3: division by zero\n", 3),
    ),
    (
        "deep.sp",
        (0, 0, 0),
        (b"1\n", b"spd: deep.sp:2: calls too deep\n", 3),
    ),
    (
        "faults.sp",
        (0, 0, 0),
        (b"1\n", b"spd: faults.sp:4: division by zero\n", 3),
    ),
    ("faults.sp", (0, 0, 1), (b"1\n", b"", 5)),
    // Programs that are refused.
    ("a.sp", (0, 0, 0), (b"", b"spd: a.sp:1: Unknown\n", 1)),
    ("a.sp", (0, 1, 0), (b"", b"spd: a.sp:1: Unknown\n", 1)),
    ("a.sp", (0, 0, 1), (b"", b"", 5)),
    (
        "semicolon.sp",
        (0, 0, 0),
        (b"", b"spd: semicolon.sp:2: Expected\n", 1),
    ),
    ("byte.sp", (0, 0, 0), (b"", b"spd: byte.sp:3: BadByte\n", 1)),
    // Files that can't be read: PROGRAM, or one of its data files.
    (
        "none.sp",
        (0, 0, 0),
        (b"", b"spd: none.sp: read failed\n", 4),
    ),
    ("help", (1, 0, 0), (b"", b"spd: help: read failed\n", 4)),
    ("help", (1, 0, 1), (b"", b"", 4)),
    ("lines.sp", (0, 0, 0), (b"", b"spd: a: read failed\n", 4)),
    ("sum.sp", (1, 0, 0), (b"", b"spd: sum.sp: read failed\n", 4)),
    ("sum.sp", (2, 0, 0), (b"", b"spd: p.csv: read failed\n", 4)),
    ("sum.sp", (3, 0, 0), (b"14\n-3\n", b"", 0)),
    // A data file that is refused.
    ("bad.sp", (0, 0, 0), (b"", b"spd: bad.csv:2: NotInt\n", 6)),
    ("bad.sp", (0, 1, 0), (b"", b"spd: bad.csv:2: NotInt\n", 6)),
    ("bad.sp", (0, 0, 1), (b"", b"", 5)),
    // Output that fails.
    ("two.sp", (0, 1, 0), (b"", b"spd: write failed\n", 5)),
    ("two.sp", (0, 2, 0), (b"1\n", b"spd: write failed\n", 5)),
    ("two.sp", (0, 1, 1), (b"", b"", 5)),
    ("two.sp", (0, 3, 1), (b"1\n2\n", b"", 0)),
    ("tree.sp", (0, 1, 0), (b"", b"spd: write failed\n", 5)),
];

/// Asserts that a row has its answer by these words.
fn expect_row<R: Abort + Threads + Wait + Sync>(
    rt: &R,
    alloc: Global,
    words: &[&str],
    (_, failing, answer): RunRow,
) -> Result<(), AllocError> {
    let mut shelf = shelf_of(alloc, &FILES)?;
    let mut log = RunLog::new();
    expect(rt, alloc, words, &mut shelf, failing, answer, &mut log)
}

/// A run answers what a row says on any number of workers and within any bound of moves, as the elision
/// does. This refuses a `run` that always answers 4, 5 or 7, or that gives main the identity of a finish;
/// and one in which two workers take a body, or none does, where it is met by one of these schedules.
#[test]
fn a_run_answers_as_the_elision(rt: HostRuntime) -> Result<(), Fail> {
    let alloc = rt.alloc();
    for row in ROWS {
        let name = row.0;
        expect_row(&rt, alloc, &["elide", name], row)?;
        expect_row(&rt, alloc, &["run", name], row)?;
        for workers in WORKERS {
            for moves in MOVES {
                let words = ["run", name, "--workers", workers, "--moves", moves];
                expect_row(&rt, alloc, &words, row)?;
            }
        }
    }
    Ok(())
}
