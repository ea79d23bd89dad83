// The options of a run: those that are refused, and those that change nothing of the answer.

use crate::running::{Answer, expect, shelf_of};
use spd_work::RunLog;
use std::test::Fail;

static FILES: [(&str, &[u8]); 2] = [
    (
        "a.sp",
        b"main { let s = finish sum { async { offer 2; } offer 3; } print s; }",
    ),
    ("--", b"main { print 1; }"),
];

const WORDS_REFUSED: Answer<'static> = (b"", b"spd: words refused\n", 2);

const PRINTED: Answer<'static> = (b"5\n", b"", 0);

static REFUSED: [&[&str]; 22] = [
    &["run"],
    &["run", "a.sp", "a.sp"],
    &["run", "-a.sp"],
    &["run", "--", "a.sp"],
    &["run", "a.sp", "--workers"],
    &["run", "a.sp", "--workers", "0"],
    &["run", "a.sp", "--workers", "65"],
    &["run", "a.sp", "--workers", "+1"],
    &["run", "a.sp", "--workers=1"],
    &["run", "a.sp", "--worker", "1"],
    &["run", "a.sp", "--workers", "1", "--workers", "1"],
    &["run", "--workers", "1"],
    &["run", "a.sp", "--moves", "0"],
    &["run", "a.sp", "--moves", "262145"],
    &["run", "a.sp", "--nodes", "262145"],
    &["run", "a.sp", "--tree", "Flat"],
    &["run", "a.sp", "--grow", "65537"],
    &["run", "a.sp", "--seed", "4294967296"],
    &["run", "a.sp", "--seed", "00000000001"],
    &["run", "a.sp", "--counts", "--counts"],
    &["elide", "a.sp", "--workers", "1"],
    &["check", "a.sp", "--seed", "1"],
];

static TAKEN: [&[&str]; 14] = [
    &["run", "a.sp"],
    &["run", "--workers", "64", "a.sp"],
    &["run", "--workers", "0000000001", "a.sp"],
    &["run", "a.sp", "--moves", "1", "--workers", "2"],
    &["run", "--moves", "262144", "a.sp", "--workers", "2"],
    &["run", "a.sp", "--nodes", "0"],
    &["run", "a.sp", "--nodes", "262144"],
    &["run", "a.sp", "--tree", "flat"],
    &["run", "a.sp", "--tree", "level"],
    &["run", "a.sp", "--tree", "grow"],
    &["run", "a.sp", "--grow", "0"],
    &["run", "a.sp", "--grow", "65536"],
    &["run", "a.sp", "--seed", "0"],
    &["run", "a.sp", "--seed", "4294967295"],
];

#[test]
fn options_out_of_their_ranges_are_refused(rt: HostRuntime) -> Result<(), Fail> {
    let alloc = rt.alloc();
    for words in REFUSED {
        let mut shelf = shelf_of(alloc, &FILES)?;
        let mut log = RunLog::new();
        expect(
            &rt,
            alloc,
            words,
            &mut shelf,
            (1, 0, 0),
            WORDS_REFUSED,
            &mut log,
        )?;
    }
    Ok(())
}

#[test]
fn options_change_nothing_of_the_answer(rt: HostRuntime) -> Result<(), Fail> {
    let alloc = rt.alloc();
    for words in TAKEN {
        let mut shelf = shelf_of(alloc, &FILES)?;
        let mut log = RunLog::new();
        expect(&rt, alloc, words, &mut shelf, (0, 0, 0), PRINTED, &mut log)?;
    }
    Ok(())
}
