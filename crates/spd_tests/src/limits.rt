// Texts within the limits, and texts that break one.

use crate::serving::{expect_fault, expect_prints};
use std::alloc::{AllocError, Global};
use std::process::Abort;
use std::test::Fail;

/// Pieces of a text, each with how often it stands there.
type Pieces = &'static [(&'static str, u32)];

/// What comes of a text.
#[derive(Clone, Copy)]
enum Comes {
    Prints(&'static [u8]),
    /// The first fault, as it is told.
    Fault(&'static str),
}

use Comes::{Fault, Prints};

/// A text and what comes of it.
type LimitRow = (Pieces, Comes);

/// Names and items.
static COUNTED: [LimitRow; 8] = [
    // Names of main, here the same one in blocks beside each other.
    (
        &[("main {", 1), (" finish { let n = 1; }", 64), (" }", 1)],
        Prints(b""),
    ),
    (
        &[("main {", 1), (" finish { let n = 1; }", 65), (" }", 1)],
        Fault("1: TooMany"),
    ),
    // Parameters, `for` and `let` names of a function, each on a line. Those of main are counted anew.
    (
        &[
            ("fn f(p", 1),
            (",\np", 19),
            (") {", 1),
            ("\nfor i in 0..1 { }", 22),
            ("\nlet n = 1;", 22),
            (" } main {", 1),
            (" finish { let n = 1; }", 64),
            (" }", 1),
        ],
        Fault("1: Twice"),
    ),
    (
        &[
            ("fn f(p", 1),
            (",\np", 19),
            (") {", 1),
            ("\nfor i in 0..1 { }", 22),
            ("\nlet n = 1;", 23),
            (" } main { }", 1),
        ],
        Fault("65: TooMany"),
    ),
    // Functions and tasks together, each on a line.
    (
        &[("fn f() { }\n", 128), ("task t() { }\n", 128)],
        Fault("2: Twice"),
    ),
    (
        &[("fn f() { }\n", 128), ("task t() { }\n", 129)],
        Fault("257: TooMany"),
    ),
    // Columns and lines items together, each on a line.
    (
        &[
            ("column c: int from \"a\" field \"b\";\n", 6),
            ("column c: text from \"a\" field \"b\";\n", 5),
            ("lines c from \"a\";\n", 5),
        ],
        Fault("2: Twice"),
    ),
    (
        &[
            ("column c: int from \"a\" field \"b\";\n", 6),
            ("column c: text from \"a\" field \"b\";\n", 5),
            ("lines c from \"a\";\n", 6),
        ],
        Fault("17: TooMany"),
    ),
];

/// Brackets that are open at once.
static BRACKETS: [LimitRow; 11] = [
    // Braces, each on a line, and parentheses in the brace of main.
    (
        &[("main {", 1), ("\nfinish {", 30), (" }", 31)],
        Prints(b""),
    ),
    (
        &[("main {", 1), ("\nfinish {", 31), (" }", 32)],
        Prints(b""),
    ),
    (
        &[("main {", 1), ("\nfinish {", 32), (" }", 33)],
        Fault("33: TooDeep"),
    ),
    (&[("main {", 1), ("\nfinish {", 39)], Fault("33: TooDeep")),
    (
        &[("main {", 1), (" finish { }", 40), (" }", 1)],
        Prints(b""),
    ),
    (
        &[
            ("main { print ", 1),
            ("(", 31),
            ("1", 1),
            (")", 31),
            ("; }", 1),
        ],
        Prints(b"1\n"),
    ),
    (
        &[
            ("main { print ", 1),
            ("(", 32),
            ("1", 1),
            (")", 32),
            ("; }", 1),
        ],
        Fault("1: TooDeep"),
    ),
    // Braces, parentheses and square brackets together: 32, and 33 of which the last is round or square.
    (
        &[
            ("main {", 1),
            (" finish {", 9),
            (" let x = ", 1),
            ("(c[", 11),
            ("1", 1),
            ("])", 11),
            (";", 1),
            (" }", 10),
        ],
        Fault("1: Unknown"),
    ),
    (
        &[
            ("main {", 1),
            (" finish {", 9),
            ("\nlet x = ", 1),
            ("(c[", 11),
            ("(1)", 1),
            ("])", 11),
            (";", 1),
            (" }", 10),
        ],
        Fault("2: TooDeep"),
    ),
    (
        &[
            ("main {", 1),
            (" finish {", 10),
            ("\nlet x = ", 1),
            ("(c[", 10),
            ("(c[1])", 1),
            ("])", 10),
            (";", 1),
            (" }", 11),
        ],
        Fault("2: TooDeep"),
    ),
    // Where the grammar has no bracket, that comes first.
    (
        &[("main {", 1), (" finish {", 31), ("\n(", 1)],
        Fault("2: Expected"),
    ),
];

/// Eight operators of many kinds, over commas and brackets, each on a line.
const EIGHT: &str = "\n* 1\n- (1),\n- 1\n&& c[1]\n== 1, 1\n|| len(c),\n!1\n% 1";

/// Operators between two of `;`, `{` and `}`.
static OPERATORS: [LimitRow; 11] = [
    (
        &[("main { print 1", 1), (" + 1", 1000), ("; }", 1)],
        Prints(b"1001\n"),
    ),
    (
        &[("main { print 1", 1), (" + 1", 1001), ("; }", 1)],
        Fault("1: TooMany"),
    ),
    (
        &[("main { print 1", 1), (EIGHT, 125), ("; }", 1)],
        Fault("1: Unknown"),
    ),
    (
        &[("main { print 1", 1), (EIGHT, 125), ("\n- 1; }", 1)],
        Fault("1002: TooMany"),
    ),
    // Commas and parentheses don't end a stretch.
    (
        &[
            ("main { print 1", 1),
            (" + 1", 400),
            (", 1", 1),
            (" + 1", 600),
            ("; }", 1),
        ],
        Prints(b"401601\n"),
    ),
    (
        &[
            ("main { print 1", 1),
            (" + 1", 600),
            (", 1", 1),
            (" + 1", 600),
            ("; }", 1),
        ],
        Fault("1: TooMany"),
    ),
    (
        &[
            ("main { print (1", 1),
            (" + 1", 600),
            (") + (1", 1),
            (" + 1", 400),
            ("); }", 1),
        ],
        Fault("1: TooMany"),
    ),
    (
        &[
            ("main { for i in 1", 1),
            (" + 1", 600),
            ("..1", 1),
            (" + 1", 600),
            (" { } }", 1),
        ],
        Fault("1: TooMany"),
    ),
    // A semicolon and braces do.
    (
        &[
            ("main { print 1", 1),
            (" + 1", 600),
            ("; print 1", 1),
            (" + 1", 600),
            ("; }", 1),
        ],
        Prints(b"601\n601\n"),
    ),
    (
        &[
            ("main { if 1", 1),
            (" + 1", 600),
            (" { let x = 1", 1),
            (" + 1", 600),
            ("; } }", 1),
        ],
        Prints(b""),
    ),
    (
        &[
            ("main { if 1", 1),
            (" + 1", 600),
            (" { } if 1", 1),
            (" + 1", 600),
            (" { } }", 1),
        ],
        Prints(b""),
    ),
];

fn text_of(alloc: Global, pieces: Pieces) -> Result<String, AllocError> {
    let mut text = String::new(alloc);
    for (piece, times) in pieces {
        for _ in 0..*times {
            text.push_str(piece)?;
        }
    }
    Ok(text)
}

/// A program that binds the names n0, n1 .., each to its number, and prints n63.
fn binding(alloc: Global, names: u32) -> Result<String, AllocError> {
    let mut text = String::from_str(alloc, "main { ")?;
    for i in 0..names {
        text.push_str(format!(in alloc; "let n{i} = {i}; ")?.as_str())?;
    }
    text.push_str("print n63; }")?;
    Ok(text)
}

fn expect_comes(
    rt: &(impl Abort + AllocGlobal),
    text: &str,
    comes: Comes,
) -> Result<(), AllocError> {
    match comes {
        Prints(prints) => expect_prints(rt, text.as_bytes(), prints),
        Fault(fault) => expect_fault(rt, text.as_bytes(), fault),
    }
}

fn expect_limits(rt: &(impl Abort + AllocGlobal), rows: &[LimitRow]) -> Result<(), AllocError> {
    for (pieces, comes) in rows {
        let text = text_of(rt.alloc(), pieces)?;
        expect_comes(rt, text.as_str(), *comes)?;
    }
    Ok(())
}

#[test]
fn names_items_brackets_and_operators_are_limited(rt: HostRuntime) -> Result<(), Fail> {
    expect_limits(&rt, &COUNTED)?;
    expect_limits(&rt, &BRACKETS)?;
    expect_limits(&rt, &OPERATORS)?;
    Ok(())
}

#[test]
fn names_that_differ_are_limited(rt: HostRuntime) -> Result<(), Fail> {
    let most = binding(rt.alloc(), 64)?;
    expect_comes(&rt, most.as_str(), Prints(b"63\n"))?;
    let more = binding(rt.alloc(), 65)?;
    expect_comes(&rt, more.as_str(), Fault("1: TooMany"))?;
    Ok(())
}
