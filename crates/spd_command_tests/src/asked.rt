// What command lines ask for.

use crate::lines::{expect_asked, strings_of};
use spd_command::{Command, Settings, read_command};
use spd_words::Scheme;
use std::test::Fail;

/// Words with the command that they ask for.
type Row = (&'static [&'static str], Command<'static>);

/// Commands with one operand.
static OPERANDS: [Row; 10] = [
    (&["elide", "a.sp"], Command::Elide { program: "a.sp" }),
    (&["check", "a.sp"], Command::Check { program: "a.sp" }),
    (&["elide", "help"], Command::Elide { program: "help" }),
    (&["check", "elide"], Command::Check { program: "elide" }),
    (&["elide", "a=b"], Command::Elide { program: "a=b" }),
    (&["elide", "+"], Command::Elide { program: "+" }),
    (&["elide", " -"], Command::Elide { program: " -" }),
    (&["elide", "a--"], Command::Elide { program: "a--" }),
    (&["elide", "ü.sp"], Command::Elide { program: "ü.sp" }),
    (&["elide", "workers"], Command::Elide { program: "workers" }),
];

const fn run(
    program: &'static str,
    (workers, moves, nodes): (u32, u32, u32),
    tree: Scheme,
    (grow, seed): (u32, u32),
) -> Command<'static> {
    Command::Run {
        program,
        settings: Settings {
            workers,
            moves,
            nodes,
            tree,
            grow,
            seed,
            counts: false,
        },
    }
}

#[test]
fn operands_are_read(rt: HostRuntime) -> Result<(), Fail> {
    expect_asked(&rt, &OPERANDS)
}

#[test]
fn options_stand_in_any_place(rt: HostRuntime) -> Result<(), Fail> {
    let size = (4, 16384, 16384);
    let rows: [Row; 7] = [
        (
            &["run", "a.sp"],
            run("a.sp", size, Scheme::Grow, (32768, 1)),
        ),
        (
            &["run", "--workers", "8", "a.sp"],
            run("a.sp", (8, 16384, 16384), Scheme::Grow, (32768, 1)),
        ),
        (
            &["run", "a.sp", "--workers", "8", "--seed", "7"],
            run("a.sp", (8, 16384, 16384), Scheme::Grow, (32768, 7)),
        ),
        (
            &["run", "--seed", "7", "a.sp", "--workers", "8"],
            run("a.sp", (8, 16384, 16384), Scheme::Grow, (32768, 7)),
        ),
        (
            &["run", "--workers", "4", "4"],
            run("4", size, Scheme::Grow, (32768, 1)),
        ),
        (
            &["run", "--tree", "flat", "flat"],
            run("flat", size, Scheme::Flat, (32768, 1)),
        ),
        (
            &[
                "run",
                "--grow",
                "2",
                "--tree",
                "level",
                "--nodes",
                "3",
                "x",
                "--moves",
                "5",
                "--seed",
                "6",
                "--workers",
                "9",
            ],
            run("x", (9, 5, 3), Scheme::Level, (2, 6)),
        ),
    ];
    expect_asked(&rt, &rows)
}

#[test]
fn ends_of_ranges_are_read(rt: HostRuntime) -> Result<(), Fail> {
    let rows: [Row; 4] = [
        (
            &[
                "run",
                "a",
                "--workers",
                "1",
                "--moves",
                "1",
                "--nodes",
                "0",
                "--grow",
                "0",
                "--seed",
                "0",
            ],
            run("a", (1, 1, 0), Scheme::Grow, (0, 0)),
        ),
        (
            &[
                "run",
                "a",
                "--workers",
                "64",
                "--moves",
                "262144",
                "--nodes",
                "262144",
                "--grow",
                "65536",
                "--seed",
                "4294967295",
                "--tree",
                "grow",
            ],
            run("a", (64, 262144, 262144), Scheme::Grow, (65536, 4294967295)),
        ),
        (
            &["run", "a", "--seed", "0000000012"],
            run("a", (4, 16384, 16384), Scheme::Grow, (32768, 12)),
        ),
        (
            &["run", "a", "--seed", "3000000000"],
            run("a", (4, 16384, 16384), Scheme::Grow, (32768, 3000000000)),
        ),
    ];
    expect_asked(&rt, &rows)
}

#[test]
fn many_words_are_refused(rt: HostRuntime) -> Result<(), Fail> {
    let mut words = strings_of(rt.alloc(), &["run", "a.sp"])?;
    for _ in 0..1000 {
        words.push(String::from_str(rt.alloc(), "--seed")?)?;
        words.push(String::from_str(rt.alloc(), "1")?)?;
    }
    assert!(&rt; read_command(rt.alloc(), words.as_slice()).is_err());
    Ok(())
}
