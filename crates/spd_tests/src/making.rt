// Files that `make` puts, over a shelf that isn't called and sinks of which calls fail.

use crate::commands::{CommandRow, shelf_of};
use crate::serving::{Answer, expect};
use std::test::Fail;

const WORDS_REFUSED: Answer<'static> = (b"", b"spd: words refused\n", 2);

const NOT_WRITTEN: Answer<'static> = (b"", b"spd: write failed\n", 5);

const THREE_ROWS: Answer<'static> = (
    b"id,price,name\n0,5,item-0\n1,924,item-1\n2,843,item-2\n",
    b"",
    0,
);

const NO_ROW: Answer<'static> = (b"id,price,name\n", b"", 0);

/// A sink has room for 64 bytes, and a file of four rows has 64.
static ROWS: [CommandRow; 25] = [
    (&["make", "3", "5"], (0, 0, 0), THREE_ROWS),
    (&["make", "0000000003", "0000000005"], (0, 0, 0), THREE_ROWS),
    (&["make", "0", "5"], (0, 0, 0), NO_ROW),
    (&["make", "0", "4294967295"], (0, 0, 0), NO_ROW),
    (
        &["make", "1", "4294967295"],
        (0, 0, 0),
        (b"id,price,name\n0,295,item-0\n", b"", 0),
    ),
    // The shelf isn't called, and the file is one call of out.
    (&["make", "3", "5"], (1, 0, 0), THREE_ROWS),
    (&["make", "3", "5"], (0, 2, 0), THREE_ROWS),
    (&["make", "3", "5"], (0, 0, 1), THREE_ROWS),
    (&["make", "3", "5"], (0, 1, 0), NOT_WRITTEN),
    (&["make", "3", "5"], (0, 1, 2), NOT_WRITTEN),
    (&["make", "3", "5"], (0, 1, 1), (b"", b"", 5)),
    (
        &["make", "4", "5"],
        (0, 0, 0),
        (
            b"id,price,name\n0,5,item-0\n1,924,item-1\n2,843,item-2\n3,762,item-3\n",
            b"",
            0,
        ),
    ),
    (&["make", "5", "5"], (0, 0, 0), NOT_WRITTEN),
    // Words.
    (&["make"], (0, 0, 0), WORDS_REFUSED),
    (&["make", "1"], (0, 0, 0), WORDS_REFUSED),
    (&["make", "1", "1", "1"], (0, 0, 0), WORDS_REFUSED),
    (&["make", "-1", "1"], (0, 0, 0), WORDS_REFUSED),
    (&["make", "1000001", "1"], (0, 0, 0), WORDS_REFUSED),
    (&["make", "1", "4294967296"], (0, 0, 0), WORDS_REFUSED),
    (&["make", "1", "a.sp"], (0, 0, 0), WORDS_REFUSED),
    (&["make", "1", "1", "--counts"], (0, 0, 0), WORDS_REFUSED),
    (&["make", "1000001", "1"], (1, 1, 1), (b"", b"", 5)),
    // A job needs workers.
    (&["job", "3", "5"], (0, 0, 0), WORDS_REFUSED),
    (&["job", "3", "5", "--counts"], (0, 0, 0), WORDS_REFUSED),
    (&["run", "a.sp", "--counts"], (0, 0, 0), WORDS_REFUSED),
];

#[test]
fn a_made_file_is_put_whole(rt: HostRuntime) -> Result<(), Fail> {
    for (words, failing, answer) in ROWS {
        let mut shelf = shelf_of(rt.alloc(), &[("a.sp", b"main { print 7; }")])?;
        let row = format!(in rt.alloc(); "{words:?} at {failing:?}")?;
        expect(&rt, words, &mut shelf, failing, answer, row.as_str())?;
    }
    Ok(())
}
