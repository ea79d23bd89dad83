// What is answered to programs over data files, of which calls fail.

use crate::commands::{CommandRow, shelf_of};
use crate::serving::{Answer, NO_DATA, expect};
use std::alloc::AllocError;
use std::process::Abort;
use std::test::Fail;

/// One whose data file is refused.
const NO_NUMBER: Answer<'static> = (b"", b"spd: bad.csv:2: NotInt\n", 6);

/// A program over a column of 10, -3 and 7.
const SUMMED: Answer<'static> = (b"14\n-3\n", b"", 0);

/// Each data file is read behind the program, and then refused, before the next one is read.
static OVER_DATA: [CommandRow; 15] = [
    (&["elide", "sum.sp"], (0, 0, 0), SUMMED),
    (&["elide", "sum.sp"], (3, 0, 0), SUMMED),
    (
        &["elide", "sum.sp"],
        (2, 0, 0),
        (b"", b"spd: p.csv: read failed\n", 4),
    ),
    (
        &["elide", "sum.sp"],
        (1, 0, 0),
        (b"", b"spd: sum.sp: read failed\n", 4),
    ),
    (
        &["elide", "sum.sp"],
        (0, 2, 0),
        (b"14\n", b"spd: write failed\n", 5),
    ),
    (
        &["elide", "past.sp"],
        (0, 0, 0),
        (b"1\n", b"spd: past.sp:3: index out of range\n", 3),
    ),
    (&["elide", "texts.sp"], (0, 0, 0), (b"3 1 1 0\n", b"", 0)),
    (&["elide", "bad.sp"], (0, 0, 0), NO_NUMBER),
    (&["elide", "bad.sp"], (0, 1, 0), NO_NUMBER),
    (&["elide", "bad.sp"], (0, 0, 1), (b"", b"", 5)),
    (&["elide", "bad_first.sp"], (0, 0, 0), NO_NUMBER),
    (&["elide", "bad_last.sp"], (0, 0, 0), NO_DATA),
    (
        &["elide", "field.sp"],
        (0, 0, 0),
        (b"", b"spd: p.csv:0: NoField\n", 6),
    ),
    (
        &["elide", "ragged.sp"],
        (0, 0, 0),
        (b"", b"spd: ragged.csv:2: Ragged\n", 6),
    ),
    // `check` reads no data file.
    (
        &["check", "bad.sp"],
        (2, 0, 0),
        (
            b"column p: int from \"bad.csv\" field \"n\";\nmain {\n}\n",
            b"",
            0,
        ),
    ),
];

/// A program over a column.
const SUMMING: &[u8] = b"column p: int from \"p.csv\" field \"price\";
main {
  let s = finish sum { for i in 0..len(p) { async { offer p[i]; } } }
  print s; print p[1];
}";

/// A program that reads an entry behind the last one, at line 3.
const PAST: &[u8] =
    b"column p: int from \"p.csv\" field \"price\";\nmain { print 1;\n print p[3]; }";

/// A program over the lines of a file and over a text column.
const TEXTS: &[u8] = b"lines l from \"l.txt\"; column t: text from \"p.csv\" field \"name\";
main { print len(l), \" \", size(l, 0), \" \", same(t, 1, \"b,c\"), \" \", begins(t, 2, \"x\"); }";

/// Files by their names.
static DATA_FILES: [(&str, &[u8]); 12] = [
    ("sum.sp", SUMMING),
    ("past.sp", PAST),
    ("texts.sp", TEXTS),
    ("p.csv", b"price,name\n10,a\n-3,\"b,c\"\n7,\n"),
    ("l.txt", b"a\r\nbc\n\n"),
    (
        "bad.sp",
        b"column p: int from \"bad.csv\" field \"n\"; main { }",
    ),
    ("bad.csv", b"n\r\n1\r\n12x\r\n"),
    (
        "bad_first.sp",
        b"column p: int from \"bad.csv\" field \"n\"; lines l from \"a\"; main { }",
    ),
    (
        "bad_last.sp",
        b"lines l from \"a\"; column p: int from \"bad.csv\" field \"n\"; main { }",
    ),
    (
        "field.sp",
        b"column p: int from \"p.csv\" field \"Price\"; main { }",
    ),
    (
        "ragged.sp",
        b"column p: int from \"ragged.csv\" field \"n\"; main { }",
    ),
    ("ragged.csv", b"n\n1\n2,3\n4\n"),
];

/// Asserts a row's answer over the files.
fn expect_over_data(
    rt: &(impl Abort + AllocGlobal),
    (words, failing, answer): CommandRow,
) -> Result<(), AllocError> {
    let mut shelf = shelf_of(rt.alloc(), &DATA_FILES)?;
    let row = format!(in rt.alloc(); "{words:?} at {failing:?}")?;
    expect(rt, words, &mut shelf, failing, answer, row.as_str())
}

fn expect_rows(rt: &(impl Abort + AllocGlobal), rows: &[CommandRow]) -> Result<(), AllocError> {
    for row in rows {
        expect_over_data(rt, *row)?;
    }
    Ok(())
}

#[test]
fn programs_run_over_their_data_files(rt: HostRuntime) -> Result<(), Fail> {
    expect_rows(&rt, &OVER_DATA)?;
    Ok(())
}
