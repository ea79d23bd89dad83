// What is answered to words, over files and sinks of which calls fail.

use crate::serving::{Answer, Failing, NO_DATA, expect, sink_failing_at, words_of};
use spd_io::{MemShelf, StillShelf, StillSink};
use spd_top::serve_still;
use std::alloc::{AllocError, Global};
use std::process::Abort;
use std::test::Fail;

const WORDS_REFUSED: Answer<'static> = (b"", b"spd: words refused\n", 2);

const UNKNOWN: Answer<'static> = (b"", b"spd: a.sp:1: Unknown\n", 1);

/// A fault of a run: what is printed before stands.
const DIVIDED: Answer<'static> = (b"1\n2\n", b"spd: div.sp:3: division by zero\n", 3);

const DEEP: Answer<'static> = (b"1\n", b"spd: deep.sp:2: calls too deep\n", 3);

const SEMICOLON: Answer<'static> = (b"", b"spd: semicolon.sp:2: Expected\n", 1);

/// Words, the calls that are to fail, and what is answered.
pub(crate) type CommandRow = (&'static [&'static str], Failing, Answer<'static>);

static COMMANDS: [CommandRow; 81] = [
    // Reads.
    (&["elide", "help"], (0, 0, 0), (b"7\n", b"", 0)),
    (&["elide", "help"], (2, 0, 0), (b"7\n", b"", 0)),
    (
        &["elide", "help"],
        (1, 0, 0),
        (b"", b"spd: help: read failed\n", 4),
    ),
    (&["elide", "help"], (1, 0, 1), (b"", b"", 4)),
    (
        &["elide", "help"],
        (1, 0, 2),
        (b"", b"spd: help: read failed\n", 4),
    ),
    (
        &["elide", "help"],
        (1, 1, 0),
        (b"", b"spd: help: read failed\n", 4),
    ),
    (
        &["elide", "none.sp"],
        (0, 0, 0),
        (b"", b"spd: none.sp: read failed\n", 4),
    ),
    (&["elide", "none.sp"], (0, 0, 1), (b"", b"", 4)),
    (
        &["elide", "none.sp"],
        (0, 0, 2),
        (b"", b"spd: none.sp: read failed\n", 4),
    ),
    // Programs that are refused.
    (&["elide", "a.sp"], (0, 0, 0), UNKNOWN),
    (&["elide", "a.sp"], (0, 1, 0), UNKNOWN),
    (&["elide", "a.sp"], (0, 0, 1), (b"", b"", 5)),
    (&["elide", "a.sp"], (0, 0, 2), UNKNOWN),
    // A program whose data file is missing.
    (&["elide", "lines.sp"], (0, 0, 0), NO_DATA),
    (&["elide", "lines.sp"], (0, 1, 0), NO_DATA),
    (&["elide", "lines.sp"], (0, 0, 1), (b"", b"", 4)),
    // A fault of a text with its line, and one of its tokens.
    (&["elide", "semicolon.sp"], (0, 0, 0), SEMICOLON),
    (&["elide", "semicolon.sp"], (0, 1, 0), SEMICOLON),
    (&["elide", "semicolon.sp"], (0, 0, 1), (b"", b"", 5)),
    (&["elide", "semicolon.sp"], (0, 0, 2), SEMICOLON),
    (
        &["elide", "byte.sp"],
        (0, 0, 0),
        (b"", b"spd: byte.sp:3: BadByte\n", 1),
    ),
    (&["elide", "byte.sp"], (0, 0, 1), (b"", b"", 5)),
    // A print is one call of out. The first that fails is the last.
    (&["elide", "two.sp"], (0, 0, 0), (b"1\n2\n", b"", 0)),
    (
        &["elide", "two.sp"],
        (0, 1, 0),
        (b"", b"spd: write failed\n", 5),
    ),
    (
        &["elide", "two.sp"],
        (0, 2, 0),
        (b"1\n", b"spd: write failed\n", 5),
    ),
    (&["elide", "two.sp"], (0, 3, 0), (b"1\n2\n", b"", 0)),
    (&["elide", "two.sp"], (0, 3, 1), (b"1\n2\n", b"", 0)),
    (
        &["elide", "two.sp"],
        (2, 2, 0),
        (b"1\n", b"spd: write failed\n", 5),
    ),
    // Where out has failed, a fault of err changes nothing but the line.
    (&["elide", "two.sp"], (0, 1, 1), (b"", b"", 5)),
    (&["elide", "two.sp"], (0, 2, 1), (b"1\n", b"", 5)),
    (
        &["elide", "two.sp"],
        (0, 1, 2),
        (b"", b"spd: write failed\n", 5),
    ),
    (
        &["elide", "two.sp"],
        (0, 2, 2),
        (b"1\n", b"spd: write failed\n", 5),
    ),
    // A line for which out has no room.
    (
        &["elide", "long.sp"],
        (0, 0, 0),
        (b"1\n", b"spd: write failed\n", 5),
    ),
    // Programs that end with a fault. Where err fails in its line, the status is 5.
    (&["elide", "div.sp"], (0, 0, 0), DIVIDED),
    (&["elide", "div.sp"], (0, 0, 1), (b"1\n2\n", b"", 5)),
    (&["elide", "div.sp"], (0, 0, 2), DIVIDED),
    (&["elide", "div.sp"], (0, 3, 0), DIVIDED),
    (
        &["elide", "div.sp"],
        (0, 2, 0),
        (b"1\n", b"spd: write failed\n", 5),
    ),
    (&["elide", "div.sp"], (0, 2, 1), (b"1\n", b"", 5)),
    (&["elide", "deep.sp"], (0, 0, 0), DEEP),
    (&["elide", "deep.sp"], (0, 2, 0), DEEP),
    (&["elide", "deep.sp"], (0, 0, 1), (b"1\n", b"", 5)),
    (
        &["elide", "deep.sp"],
        (0, 1, 0),
        (b"", b"spd: write failed\n", 5),
    ),
    // Canonical texts, each one call of out.
    (
        &["check", "help"],
        (0, 0, 0),
        (b"main {\n  print 7;\n}\n", b"", 0),
    ),
    (
        &["check", "help"],
        (0, 2, 1),
        (b"main {\n  print 7;\n}\n", b"", 0),
    ),
    (
        &["check", "help"],
        (0, 1, 0),
        (b"", b"spd: write failed\n", 5),
    ),
    (&["check", "help"], (0, 1, 1), (b"", b"", 5)),
    (
        &["check", "help"],
        (1, 0, 0),
        (b"", b"spd: help: read failed\n", 4),
    ),
    (
        &["check", "two.sp"],
        (0, 0, 0),
        (b"main {\n  print 1;\n  print 2;\n}\n", b"", 0),
    ),
    (
        &["check", "div.sp"],
        (0, 0, 0),
        (
            b"main {\n  print 1;\n  print 2;\n  print 1 / 0;\n  print 3;\n}\n",
            b"",
            0,
        ),
    ),
    (
        &["check", "lines.sp"],
        (0, 0, 0),
        (b"main {\n}\nlines l from \"a\";\n", b"", 0),
    ),
    // A text for which out has no room.
    (
        &["check", "long.sp"],
        (0, 0, 0),
        (b"", b"spd: write failed\n", 5),
    ),
    (&["check", "a.sp"], (0, 0, 0), UNKNOWN),
    (&["check", "a.sp"], (0, 1, 0), UNKNOWN),
    (&["check", "a.sp"], (0, 0, 1), (b"", b"", 5)),
    (&["check", "semicolon.sp"], (0, 0, 0), SEMICOLON),
    (
        &["check", "none.sp"],
        (0, 0, 0),
        (b"", b"spd: none.sp: read failed\n", 4),
    ),
    // Words.
    (&["check"], (0, 0, 0), WORDS_REFUSED),
    (&["Check", "help"], (0, 0, 0), WORDS_REFUSED),
    (&["check", "-x"], (0, 0, 0), WORDS_REFUSED),
    (&["check", ""], (0, 0, 0), WORDS_REFUSED),
    (&["check", "help", "help"], (0, 0, 0), WORDS_REFUSED),
    (&["check", "elide", "help"], (0, 0, 0), WORDS_REFUSED),
    (&[], (0, 0, 0), WORDS_REFUSED),
    (&[], (0, 0, 1), (b"", b"", 5)),
    (&[], (0, 0, 2), WORDS_REFUSED),
    (&["elide"], (0, 0, 0), WORDS_REFUSED),
    (&["help"], (0, 0, 0), WORDS_REFUSED),
    (&["fly", "help"], (0, 0, 0), WORDS_REFUSED),
    (&["Elide", "help"], (0, 0, 0), WORDS_REFUSED),
    (&["", "help"], (0, 0, 0), WORDS_REFUSED),
    (&["elide", "help", "help"], (0, 0, 0), WORDS_REFUSED),
    (&["elide", "--seed", "7", "help"], (0, 0, 0), WORDS_REFUSED),
    (&["--seed", "help"], (0, 0, 0), WORDS_REFUSED),
    (&["elide", "-x"], (0, 0, 0), WORDS_REFUSED),
    (&["elide", "-x"], (1, 1, 0), WORDS_REFUSED),
    (&["elide", "-"], (0, 0, 0), WORDS_REFUSED),
    (&["elide", ""], (0, 0, 0), WORDS_REFUSED),
    (&["run", "help"], (0, 0, 0), WORDS_REFUSED),
    (&["run", "help", "--workers", "2"], (0, 0, 0), WORDS_REFUSED),
    (
        &["elide", "help", "--workers", "2"],
        (0, 0, 0),
        WORDS_REFUSED,
    ),
];

/// The same of a file of the greatest size, and of one that is a byte longer.
static OF_LARGE: [CommandRow; 6] = [
    (&["elide", "most.sp"], (0, 0, 0), (b"8\n", b"", 0)),
    (
        &["elide", "more.sp"],
        (0, 0, 0),
        (b"", b"spd: more.sp: TooLong\n", 1),
    ),
    (&["elide", "more.sp"], (0, 0, 1), (b"", b"", 5)),
    (
        &["elide", "more.sp"],
        (0, 0, 2),
        (b"", b"spd: more.sp: TooLong\n", 1),
    ),
    (
        &["elide", "more.sp"],
        (1, 0, 0),
        (b"", b"spd: more.sp: read failed\n", 4),
    ),
    (
        &["check", "more.sp"],
        (0, 0, 0),
        (b"", b"spd: more.sp: TooLong\n", 1),
    ),
];

/// A program that prints a line of 63 bytes behind one of 2.
const LONG: &[u8] =
    b"main { print 1; print \"12345678901234567890123456789012345678901234567890123456789012\"; }";

/// A program that divides by zero at line 3, between two prints.
const DIVIDING: &[u8] = b"main {\n print 1; print 2;\n print 1 / 0;\n print 3;\n}";

/// A program that calls too deep at line 2, between two prints.
const CALLING: &[u8] =
    b"fn d(n) {\n let x = d(n + 1);\n return x;\n}\nmain { print 1; let x = d(0); print x; }";

/// Files by their names.
static FILES: [(&str, &[u8]); 10] = [
    ("help", b"main { print 7; }"),
    ("a.sp", b"main { print y; }"),
    ("semicolon.sp", b"main { print 1;\n; }"),
    ("byte.sp", b"main {\n\n@ }"),
    ("two.sp", b"main { print 1; print 2; }"),
    ("long.sp", LONG),
    ("lines.sp", b"main { } lines l from \"a\";"),
    ("div.sp", DIVIDING),
    ("deep.sp", CALLING),
    ("-x", b"main { }"),
];

/// A shelf of these files.
pub(crate) fn shelf_of(
    alloc: Global,
    files: &[(&'static str, &'static [u8])],
) -> Result<MemShelf, AllocError> {
    let mut shelf = MemShelf::new(alloc);
    for (name, text) in files {
        shelf.add(alloc, name, text)?;
    }
    Ok(shelf)
}

/// Asserts a row's answer over a shelf.
fn expect_command(
    rt: &(impl Abort + AllocGlobal),
    shelf: &mut MemShelf,
    (words, failing, answer): CommandRow,
) -> Result<(), AllocError> {
    let row = format!(in rt.alloc(); "{words:?} at {failing:?}")?;
    expect(rt, words, shelf, failing, answer, row.as_str())
}

fn expect_commands(rt: &(impl Abort + AllocGlobal), rows: &[CommandRow]) -> Result<(), AllocError> {
    for row in rows {
        let mut shelf = shelf_of(rt.alloc(), &FILES)?;
        expect_command(rt, &mut shelf, *row)?;
    }
    Ok(())
}

fn expect_of_large(
    rt: &(impl Abort + AllocGlobal),
    rows: &[CommandRow],
    most: &[u8],
    more: &[u8],
) -> Result<(), AllocError> {
    for row in rows {
        let mut shelf = MemShelf::new(rt.alloc());
        shelf.add(rt.alloc(), "most.sp", most)?;
        shelf.add(rt.alloc(), "more.sp", more)?;
        expect_command(rt, &mut shelf, *row)?;
    }
    Ok(())
}

#[test]
fn words_and_failing_calls_are_told(rt: HostRuntime) -> Result<(), Fail> {
    expect_commands(&rt, &COMMANDS)?;
    Ok(())
}

#[test]
fn files_of_the_greatest_size_are_read(rt: HostRuntime) -> Result<(), Fail> {
    let alloc = rt.alloc();
    let mut most = Vec::from_slice(alloc, b"main { print 8; }")?;
    most.resize(1_048_576, b' ')?;
    let mut more = Vec::from_slice(alloc, most.as_slice())?;
    more.push(b' ')?;
    expect_of_large(&rt, &OF_LARGE, most.as_slice(), more.as_slice())?;
    Ok(())
}

#[test]
fn a_still_shelf_serves(rt: HostRuntime) -> Result<(), Fail> {
    let alloc = rt.alloc();
    let mut shelf = StillShelf::new(alloc);
    shelf.add(alloc, "a.sp", b"main { print 7; }")?;
    let words = words_of(alloc, &["elide", "a.sp"])?;
    let mut err = sink_failing_at(alloc, 1)?;
    let answer = serve_still(alloc, &words, &mut shelf, &mut StillSink::new(), &mut err);
    assert_eq!(rt; answer, 0);
    Ok(())
}
