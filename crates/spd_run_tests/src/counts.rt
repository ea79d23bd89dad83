// The counts that are told behind a run, worked out by hand.

use crate::running::{Answer, Failing, expect, shelf_of};
use spd_io::MemShelf;
use spd_work::RunLog;
use std::alloc::{AllocError, Global};
use std::process::Abort;
use std::sync::Wait;
use std::test::Fail;
use std::thread::Threads;

/// The 10th number of Fibonacci, by a call that has 88 finishes, each with an async.
const FIBONACCI: &[u8] = b"fn fib(n) {
  if n < 2 { return n; }
  let r = finish sum {
    async { let a = fib(n - 1); offer a; }
    let b = fib(n - 2);
    offer b;
  }
  return r;
}
main { let x = fib(10); print x; }";

/// Three jobs: with the job's own move they have three, two and one.
const THREE: &[u8] = b"fn f() {
  let s = finish sum { offer 1; }
  return s;
}
main {
  let s = finish sum { async { offer 2; } async { offer 3; } }
  let x = f();
  finish { }
  print s, x;
}";

static FILES: [(&str, &[u8]); 6] = [
    ("fib.sp", FIBONACCI),
    ("three.sp", THREE),
    ("none.sp", b"main { print 7; }"),
    ("div.sp", b"main { finish { async { } } print 1 / 0; }"),
    ("refused.sp", b"main { print y; }"),
    ("job.csv", b"price\nx\n"),
];

/// Words, the calls that are to fail, and what is answered.
type CountsRow = (&'static [&'static str], Failing, Answer<'static>);

const OF_FIBONACCI: Answer<'static> = (b"55\n", b"spd: regions 1, moves 177\n", 0);

const OF_THREE: Answer<'static> = (b"51\n", b"spd: regions 3, moves 6\n", 0);

const DIVIDED: Answer<'static> = (b"", b"spd: div.sp:1: division by zero\n", 3);

const NOT_WRITTEN: Answer<'static> = (b"", b"spd: write failed\n", 5);

const REFUSED: Answer<'static> = (b"", b"spd: words refused\n", 2);

static ROWS: [CountsRow; 24] = [
    (&["run", "fib.sp", "--counts"], (0, 0, 0), OF_FIBONACCI),
    (
        &["run", "--counts", "fib.sp", "--workers", "1"],
        (0, 0, 0),
        OF_FIBONACCI,
    ),
    (
        &["run", "--workers", "2", "fib.sp", "--counts"],
        (0, 0, 0),
        OF_FIBONACCI,
    ),
    (
        &["run", "fib.sp", "--workers", "8", "--counts"],
        (0, 0, 0),
        OF_FIBONACCI,
    ),
    // A table has no more moves than it has room for.
    (
        &["run", "fib.sp", "--counts", "--moves", "1"],
        (0, 0, 0),
        (b"55\n", b"spd: regions 1, moves 1\n", 0),
    ),
    (
        &["run", "fib.sp", "--counts", "--moves", "176"],
        (0, 0, 0),
        (b"55\n", b"spd: regions 1, moves 176\n", 0),
    ),
    (&["run", "three.sp", "--counts"], (0, 0, 0), OF_THREE),
    (
        &["run", "three.sp", "--counts", "--moves", "2"],
        (0, 0, 0),
        (b"51\n", b"spd: regions 3, moves 5\n", 0),
    ),
    (
        &["run", "none.sp", "--counts"],
        (0, 0, 0),
        (b"7\n", b"spd: regions 0, moves 0\n", 0),
    ),
    // They are told in one call of err. Where it fails, the status is 5.
    (
        &["run", "three.sp", "--counts"],
        (0, 0, 1),
        (b"51\n", b"", 5),
    ),
    (&["run", "three.sp", "--counts"], (0, 0, 2), OF_THREE),
    (&["run", "three.sp", "--counts"], (0, 2, 0), OF_THREE),
    (&["run", "three.sp"], (0, 0, 1), (b"51\n", b"", 0)),
    // No counts are told at another status.
    (&["run", "div.sp", "--counts"], (0, 0, 0), DIVIDED),
    (&["run", "div.sp", "--counts"], (0, 0, 1), (b"", b"", 5)),
    (&["run", "three.sp", "--counts"], (0, 1, 0), NOT_WRITTEN),
    (&["run", "three.sp", "--counts"], (0, 1, 1), (b"", b"", 5)),
    (
        &["run", "refused.sp", "--counts"],
        (0, 0, 0),
        (b"", b"spd: refused.sp:1: Unknown\n", 1),
    ),
    (
        &["run", "a.sp", "--counts"],
        (0, 0, 0),
        (b"", b"spd: a.sp: read failed\n", 4),
    ),
    // Words.
    (
        &["run", "three.sp", "--counts", "--counts"],
        (0, 0, 0),
        REFUSED,
    ),
    (&["run", "three.sp", "--counts=1"], (0, 0, 0), REFUSED),
    (&["run", "three.sp", "--counts", "1"], (0, 0, 0), REFUSED),
    (&["elide", "three.sp", "--counts"], (0, 0, 0), REFUSED),
    (&["check", "three.sp", "--counts"], (0, 0, 0), REFUSED),
];

/// Asserts a row's answer, by a log that other runs were added to.
fn expect_row<R: Abort + Threads + Wait + Sync>(
    rt: &R,
    alloc: Global,
    (words, failing, answer): CountsRow,
    log: &mut RunLog,
) -> Result<(), AllocError> {
    let mut shelf = shelf_of(alloc, &FILES)?;
    expect(rt, alloc, words, &mut shelf, failing, answer, log)
}

/// The counts are those of the run alone, whatever was added to the log before.
#[test]
fn counts_are_told_behind_a_run(rt: HostRuntime) -> Result<(), Fail> {
    let alloc = rt.alloc();
    let mut log = RunLog::new();
    for row in ROWS {
        expect_row(&rt, alloc, row, &mut log)?;
    }
    Ok(())
}

const WORKERS: [&str; 4] = ["1", "2", "8", "64"];

/// A thousand prices, which are the numbers below 1,000. Each of the three sums by halves has 999 asyncs, so
/// with the job's own move 1,000 moves.
const PRICES: &[u8] = b"rows 1000\nsum 499500\nleast 0\ngreatest 999\n";

/// The moves of a table, and what is told of those that were drawn.
static MOVES: [(&str, &[u8]); 4] = [
    ("1", b"spd: regions 3, moves 3\n"),
    ("100", b"spd: regions 3, moves 300\n"),
    ("1000", b"spd: regions 3, moves 3000\n"),
    ("16384", b"spd: regions 3, moves 3000\n"),
];

#[test]
fn a_job_is_counted_on_any_number_of_workers(rt: HostRuntime) -> Result<(), Fail> {
    let alloc = rt.alloc();
    let mut log = RunLog::new();
    for workers in WORKERS {
        for (moves, told) in &MOVES {
            let words = [
                "job",
                "1000",
                "5",
                "--counts",
                "--workers",
                workers,
                "--moves",
                moves,
            ];
            let mut shelf = MemShelf::new(alloc);
            let answer = (PRICES, *told, 0);
            expect(&rt, alloc, &words, &mut shelf, (0, 0, 0), answer, &mut log)?;
        }
    }
    Ok(())
}

const OF_FIVE: &[u8] = b"rows 5\nsum 3195\nleast 1\ngreatest 920\n";

const OF_NONE: &[u8] = b"rows 0\nsum 0\nleast 9223372036854775807\ngreatest -9223372036854775808\n";

/// The prices of five rows by seed 1 are 1, 920, 839, 758 and 677.
static JOBS: [CountsRow; 18] = [
    // The shelf, which has a file of this name, isn't called.
    (&["job", "5", "1"], (0, 0, 0), (OF_FIVE, b"", 0)),
    (&["job", "5", "1"], (1, 0, 0), (OF_FIVE, b"", 0)),
    (
        &["job", "--seed", "7", "5", "--workers", "2", "1"],
        (1, 0, 0),
        (OF_FIVE, b"", 0),
    ),
    (
        &["job", "5", "1", "--counts"],
        (1, 0, 0),
        (OF_FIVE, b"spd: regions 3, moves 15\n", 0),
    ),
    (&["job", "0", "5"], (0, 0, 0), (OF_NONE, b"", 0)),
    (
        &["job", "0", "5", "--counts"],
        (0, 0, 0),
        (OF_NONE, b"spd: regions 3, moves 3\n", 0),
    ),
    (
        &["job", "1", "1005", "--counts"],
        (0, 0, 0),
        (
            b"rows 1\nsum 5\nleast 5\ngreatest 5\n",
            b"spd: regions 3, moves 3\n",
            0,
        ),
    ),
    // Each print is one call of out.
    (&["job", "5", "1"], (0, 1, 0), NOT_WRITTEN),
    (
        &["job", "5", "1", "--counts"],
        (0, 3, 0),
        (b"rows 5\nsum 3195\n", b"spd: write failed\n", 5),
    ),
    (&["job", "5", "1", "--counts"], (0, 1, 1), (b"", b"", 5)),
    (&["job", "5", "1", "--counts"], (0, 0, 1), (OF_FIVE, b"", 5)),
    // Words.
    (&["job"], (0, 0, 0), REFUSED),
    (&["job", "5"], (0, 0, 0), REFUSED),
    (&["job", "5", "1", "2"], (0, 0, 0), REFUSED),
    (&["job", "1000001", "1"], (0, 0, 0), REFUSED),
    (&["job", "5", "1", "--workers", "0"], (0, 0, 0), REFUSED),
    (&["job", "a.sp", "1"], (1, 0, 0), REFUSED),
    (
        &["job", "5", "1", "--counts", "--counts"],
        (0, 0, 0),
        REFUSED,
    ),
];

#[test]
fn a_job_reads_files_of_its_own(rt: HostRuntime) -> Result<(), Fail> {
    let alloc = rt.alloc();
    let mut log = RunLog::new();
    for row in JOBS {
        expect_row(&rt, alloc, row, &mut log)?;
    }
    // Eight came to main's end, behind three regions each, and one to its third print, behind two.
    assert_eq!(&rt; log.regions(), 26);
    Ok(())
}
