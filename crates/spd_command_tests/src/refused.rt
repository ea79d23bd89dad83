// Words that are no command line.

use crate::lines::expect_refused;
use std::test::Fail;

/// The command and its operands.
static OPERANDS: [&[&str]; 24] = [
    &[],
    &[""],
    &["elide"],
    &["check"],
    &["run"],
    &["elide", "a.sp", "b.sp"],
    &["check", "a.sp", "b.sp"],
    &["run", "a.sp", "b.sp"],
    &["elide", ""],
    &["elide", "-"],
    &["elide", "-a.sp"],
    &["check", "-"],
    &["run", "-"],
    &["run", ""],
    &["elide", "--"],
    &["elide", "--", "a.sp"],
    &["elide", "a.sp", "--"],
    &["elide", "a.sp", ""],
    &["a.sp"],
    &["a.sp", "elide"],
    &["Elide", "a.sp"],
    &["elid", "a.sp"],
    &["elides", "a.sp"],
    &["elide ", "a.sp"],
];

/// Words for help and for the version.
static HELP: [&[&str]; 12] = [
    &["help"],
    &["--help"],
    &["-h"],
    &["--version"],
    &["-V"],
    &["help", "elide"],
    &["elide", "--help"],
    &["elide", "a.sp", "--help"],
    &["run", "a.sp", "-h"],
    &["run", "a.sp", "--help"],
    &["run", "a.sp", "--version"],
    &["run", "--help", "a.sp"],
];

/// Options.
static OPTIONS: [&[&str]; 20] = [
    &["run", "a.sp", "--seed", "1", "--seed", "1"],
    &["run", "--tree", "flat", "a.sp", "--tree", "grow"],
    &[
        "run",
        "a.sp",
        "--workers",
        "4",
        "--moves",
        "1",
        "--workers",
        "4",
    ],
    &["run", "a.sp", "--seed=1"],
    &["run", "a.sp", "--seed=", "1"],
    &["run", "a.sp", "--workers"],
    &["run", "--workers", "4"],
    &["run", "--workers", "a.sp"],
    &["run", "a.sp", "--workers", "--seed", "1"],
    &["run", "a.sp", "--tree", "--tree", "flat"],
    &["run", "a.sp", "--work", "4"],
    &["run", "a.sp", "--Workers", "4"],
    &["run", "a.sp", "-workers", "4"],
    &["run", "a.sp", "workers", "4"],
    &["run", "a.sp", "-w", "4"],
    &["run", "a.sp", "--speed", "4"],
    &["run", "a.sp", "--PROGRAM", "b.sp"],
    &["--workers", "4", "run", "a.sp"],
    &["elide", "a.sp", "--workers", "4"],
    &["check", "--seed", "1", "a.sp"],
];

/// Values.
static VALUES: [&[&str]; 25] = [
    &["run", "a.sp", "--workers", "0"],
    &["run", "a.sp", "--workers", "65"],
    &["run", "a.sp", "--moves", "0"],
    &["run", "a.sp", "--moves", "262145"],
    &["run", "a.sp", "--nodes", "262145"],
    &["run", "a.sp", "--grow", "65537"],
    &["run", "a.sp", "--seed", "4294967296"],
    &["run", "a.sp", "--seed", "9999999999"],
    &["run", "a.sp", "--seed", "10000000000"],
    &["run", "a.sp", "--seed", "00000000001"],
    &["run", "a.sp", "--seed", "18446744073709551617"],
    &["run", "a.sp", "--seed", ""],
    &["run", "a.sp", "--seed", "-"],
    &["run", "a.sp", "--seed", "-1"],
    &["run", "a.sp", "--seed", "+1"],
    &["run", "a.sp", "--seed", " 1"],
    &["run", "a.sp", "--seed", "1 "],
    &["run", "a.sp", "--seed", "1_0"],
    &["run", "a.sp", "--seed", "0x1"],
    &["run", "a.sp", "--seed", "1.0"],
    &["run", "a.sp", "--tree", ""],
    &["run", "a.sp", "--tree", "Flat"],
    &["run", "a.sp", "--tree", "flats"],
    &["run", "a.sp", "--tree", "leve"],
    &["run", "a.sp", "--tree", "1"],
];

/// Commands and options without a row.
static NO_ROWS: [&[&str]; 6] = [
    &["replay", "p1"],
    &["audit", "a.sp"],
    &["span", "d"],
    &["fold", "3", "5", "1"],
    &["room", "r"],
    &["run", "a.sp", "--progress"],
];

#[test]
fn operands_are_each_given_once(rt: HostRuntime) -> Result<(), Fail> {
    expect_refused(&rt, &OPERANDS)
}

#[test]
fn there_are_no_words_for_help(rt: HostRuntime) -> Result<(), Fail> {
    expect_refused(&rt, &HELP)
}

#[test]
fn options_are_whole_words_and_given_once(rt: HostRuntime) -> Result<(), Fail> {
    expect_refused(&rt, &OPTIONS)
}

#[test]
fn values_are_in_range(rt: HostRuntime) -> Result<(), Fail> {
    expect_refused(&rt, &VALUES)
}

#[test]
fn what_has_no_row_is_refused(rt: HostRuntime) -> Result<(), Fail> {
    expect_refused(&rt, &NO_ROWS)
}
