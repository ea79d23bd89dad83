// What the log of regions says after words.

use crate::running::{Answer, expect, shelf_of};
use spd_io::MemShelf;
use spd_work::RunLog;
use std::alloc::{AllocError, Global};
use std::process::Abort;
use std::sync::Wait;
use std::test::Fail;
use std::thread::Threads;

/// Three jobs: a finish with two asyncs, a call with a finish, and a finish of nothing. With the job's own
/// move they have three, two and one.
const THREE: &[u8] = b"fn f() {
  let s = finish sum { offer 1; }
  return s;
}
main {
  let s = finish sum { async { offer 2; } async { offer 3; } }
  let x = f();
  finish { }
  print s, x;
}";

/// Two jobs, of which the second ends with a fault, and one that is never come to.
const FAULTING: &[u8] = b"main {
  finish { async { } }
  finish { async { let x = 1 / 0; } async { } }
  finish { }
}";

static FILES: [(&str, &[u8]); 3] = [
    ("three.sp", THREE),
    ("fault.sp", FAULTING),
    ("none.sp", b"main { print 7; }"),
];

const PRINTED: Answer<'static> = (b"51\n", b"", 0);

const FAULTED: Answer<'static> = (b"", b"spd: fault.sp:3: division by zero\n", 3);

const OF_JOB: Answer<'static> = (b"rows 5\nsum 3195\nleast 1\ngreatest 920\n", b"", 0);

/// Words, what is answered, and by how much the regions and the moves rise, worked out by hand.
type LogRow = (&'static [&'static str], Answer<'static>, u64, u64);

static ROWS: [LogRow; 13] = [
    (&["run", "three.sp"], PRINTED, 3, 6),
    (&["run", "three.sp", "--workers", "64"], PRINTED, 3, 6),
    (&["run", "three.sp", "--moves", "3"], PRINTED, 3, 6),
    (&["run", "three.sp", "--moves", "2"], PRINTED, 3, 5),
    (&["run", "three.sp", "--moves", "1"], PRINTED, 3, 3),
    (&["run", "fault.sp"], FAULTED, 2, 5),
    (&["run", "fault.sp", "--moves", "2"], FAULTED, 2, 4),
    (&["run", "none.sp"], (b"7\n", b"", 0), 0, 0),
    // Each of three sums by halves over five prices has four asyncs.
    (&["job", "5", "1"], OF_JOB, 3, 15),
    (&["job", "5", "1", "--moves", "2"], OF_JOB, 3, 6),
    (&["elide", "three.sp"], PRINTED, 0, 0),
    (&["make", "0", "1"], (b"id,price,name\n", b"", 0), 0, 0),
    (
        &["run", "three.sp", "--moves", "0"],
        (b"", b"spd: words refused\n", 2),
        0,
        0,
    ),
];

/// Asserts a row's answer, and by how much the log rises in it.
fn expect_logged<R: Abort + Threads + Wait + Sync>(
    rt: &R,
    alloc: Global,
    shelf: &mut MemShelf,
    (words, answer, regions, moves): LogRow,
    log: &mut RunLog,
) -> Result<(), AllocError> {
    let (regions_before, moves_before) = (log.regions(), log.moves());
    expect(rt, alloc, words, shelf, (0, 0, 0), answer, log)?;
    assert_eq!(rt;
        log.regions().wrapping_sub(regions_before),
        regions,
        "{words:?}"
    );
    assert_eq!(rt; log.moves().wrapping_sub(moves_before), moves, "{words:?}");
    Ok(())
}

/// A log rises by a region for each job of main, and by the moves that each draws from its table.
#[test]
fn a_log_is_told_of_each_job(rt: HostRuntime) -> Result<(), Fail> {
    let alloc = rt.alloc();
    let mut shelf = shelf_of(alloc, &FILES)?;
    let mut log = RunLog::new();
    for row in ROWS {
        expect_logged(&rt, alloc, &mut shelf, row, &mut log)?;
    }
    assert_eq!(&rt; log.regions(), 25);
    assert_eq!(&rt; log.moves(), 56);
    Ok(())
}

/// The plan is that of the last run with a job. Its trees are flat, whatever the options say.
#[test]
fn a_log_has_the_plan_of_the_options(rt: HostRuntime) -> Result<(), Fail> {
    let alloc = rt.alloc();
    let mut shelf = shelf_of(alloc, &FILES)?;
    let mut log = RunLog::new();
    expect_logged(
        &rt,
        alloc,
        &mut shelf,
        (&["run", "none.sp"], (b"7\n", b"", 0), 0, 0),
        &mut log,
    )?;
    assert!(&rt; log.plan().is_none());
    let words = ["run", "three.sp", "--moves", "5", "--tree", "grow"];
    expect(&rt, alloc, &words, &mut shelf, (0, 0, 0), PRINTED, &mut log)?;
    let plan = log.plan().expect(&rt, "a plan");
    assert_eq!(&rt; plan.moves(), 5);
    assert_eq!(&rt; plan.grown(), 0);
    Ok(())
}
