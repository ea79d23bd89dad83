// Commands whose operands are numbers, and the option that stands alone.

use crate::lines::{expect_asked, expect_refused};
use spd_command::{Command, Settings};
use spd_words::Scheme;
use std::test::Fail;

/// Words with the command that they ask for.
type Row = (&'static [&'static str], Command<'static>);

/// The standard settings, but for the counts and the seed of the coins.
const fn settings(counts: bool, seed: u32) -> Settings {
    Settings {
        workers: 4,
        moves: 16384,
        nodes: 16384,
        tree: Scheme::Grow,
        grow: 32768,
        seed,
        counts,
    }
}

const fn make(rows: u32, seed: u32) -> Command<'static> {
    Command::Make { rows, seed }
}

const fn job(rows: u32, seed: u32, settings: Settings) -> Command<'static> {
    Command::Job {
        rows,
        seed,
        settings,
    }
}

const fn run(program: &'static str, settings: Settings) -> Command<'static> {
    Command::Run { program, settings }
}

/// Words of `make` that are no command line.
static MAKE: [&[&str]; 14] = [
    &["make"],
    &["make", "1"],
    &["make", "1", "1", "1"],
    &["make", "1000001", "1"],
    &["make", "1", "4294967296"],
    &["make", "-1", "1"],
    &["make", "1", "-1"],
    &["make", "+1", "1"],
    &["make", "", "1"],
    &["make", "a.csv", "1"],
    &["make", "00000000001", "1"],
    &["make", "1", "1", "--counts"],
    &["make", "1", "1", "--seed", "1"],
    &["make", "1", "--SEED", "1"],
];

/// Words of `job` that are no command line.
static JOB: [&[&str]; 8] = [
    &["job", "a.sp"],
    &["job", "1"],
    &["job", "1", "1", "1"],
    &["job", "1", "1", "a.sp"],
    &["job", "1000001", "1"],
    &["job", "1", "--seed", "1"],
    &["job", "1", "1", "--seed", "1", "--seed", "1"],
    &["job", "1", "1", "--rows", "1"],
];

/// Words with `--counts` that are no command line.
static COUNTS: [&[&str]; 12] = [
    &["job", "1", "1", "--counts", "--counts"],
    &["run", "--counts", "a.sp", "--counts"],
    &["run", "a.sp", "--counts", "true"],
    &["run", "a.sp", "--counts=true"],
    &["run", "a.sp", "--workers", "--counts"],
    &["run", "a.sp", "--workers", "--counts", "4"],
    &["run", "a.sp", "--tree", "--counts"],
    &["run", "--counts"],
    &["run", "a.sp", "--count"],
    &["run", "a.sp", "-counts"],
    &["elide", "a.sp", "--counts"],
    &["check", "--counts", "a.sp"],
];

#[test]
fn a_file_is_made_of_two_numbers(rt: HostRuntime) -> Result<(), Fail> {
    let rows: [Row; 4] = [
        (&["make", "3", "5"], make(3, 5)),
        (&["make", "0", "0"], make(0, 0)),
        (
            &["make", "1000000", "4294967295"],
            make(1000000, 4294967295),
        ),
        (&["make", "0000000007", "10"], make(7, 10)),
    ];
    expect_asked(&rt, &rows)
}

#[test]
fn counts_stand_in_any_place(rt: HostRuntime) -> Result<(), Fail> {
    let rows: [Row; 8] = [
        (
            &["job", "1000", "5", "--counts"],
            job(1000, 5, settings(true, 1)),
        ),
        (
            &["job", "1000", "--counts", "5"],
            job(1000, 5, settings(true, 1)),
        ),
        (
            &["job", "--counts", "1000", "5"],
            job(1000, 5, settings(true, 1)),
        ),
        (&["job", "1000", "5"], job(1000, 5, settings(false, 1))),
        (
            &["run", "f.sp", "--counts", "--seed", "3"],
            run("f.sp", settings(true, 3)),
        ),
        (
            &["run", "--seed", "3", "--counts", "f.sp"],
            run("f.sp", settings(true, 3)),
        ),
        (&["run", "--counts", "true"], run("true", settings(true, 1))),
        (&["run", "false"], run("false", settings(false, 1))),
    ];
    expect_asked(&rt, &rows)
}

#[test]
fn the_seeds_of_a_file_and_of_coins_are_two(rt: HostRuntime) -> Result<(), Fail> {
    let rows: [Row; 3] = [
        (
            &["job", "3", "5", "--seed", "7"],
            job(3, 5, settings(false, 7)),
        ),
        (
            &["job", "--seed", "7", "3", "5"],
            job(3, 5, settings(false, 7)),
        ),
        (
            &["job", "1000000", "4294967295"],
            job(1000000, 4294967295, settings(false, 1)),
        ),
    ];
    expect_asked(&rt, &rows)
}

#[test]
fn other_words_of_make_are_refused(rt: HostRuntime) -> Result<(), Fail> {
    expect_refused(&rt, &MAKE)
}

#[test]
fn other_words_of_job_are_refused(rt: HostRuntime) -> Result<(), Fail> {
    expect_refused(&rt, &JOB)
}

#[test]
fn counts_stand_alone_and_once(rt: HostRuntime) -> Result<(), Fail> {
    expect_refused(&rt, &COUNTS)
}
