// The turns of main, where the caller runs each finish and each call by its elision.

use crate::jobs::code_of;
use spd_data::Data;
use spd_io::MemSink;
use spd_machine::elide_body;
use spd_spine::{Spine, SpineTurn};
use spd_words::FinishKind;
use std::alloc::AllocError;
use std::process::Abort;
use std::test::Fail;

/// A turn, of whose job only the kind is told.
#[derive(Clone, Copy, Debug, PartialEq, Eq)]
enum Turned {
    Region(FinishKind),
    Done,
    Fault(u64),
    Stopped,
    NoMemory,
}

/// A program with the turns of its main.
struct SpineRow {
    text: &'static [u8],
    /// The put that is to fail, or 0.
    fails: u32,
    /// Each turn, with all that was put by then.
    turns: &'static [(Turned, &'static [u8])],
}

static ROWS: [SpineRow; 9] = [
    SpineRow {
        text: b"main { }",
        fails: 0,
        turns: &[(Turned::Done, b"")],
    },
    // Each print is put as it is reached, and a finish waits for its caller.
    SpineRow {
        text: b"main { print 1; let s = finish sum { offer 2; } print s; finish { } print 3; }",
        fails: 0,
        turns: &[
            (Turned::Region(FinishKind::Sum), b"1\n"),
            (Turned::Region(FinishKind::Plain), b"1\n2\n"),
            (Turned::Done, b"1\n2\n3\n"),
        ],
    },
    // A finish that was run isn't met again.
    SpineRow {
        text: b"main { for i in 0..2 { finish { } print i; } }",
        fails: 0,
        turns: &[
            (Turned::Region(FinishKind::Plain), b""),
            (Turned::Region(FinishKind::Plain), b"0\n"),
            (Turned::Done, b"0\n1\n"),
        ],
    },
    // A finish or a call inside a job is no job.
    SpineRow {
        text: b"fn f(n) { let s = finish sum { offer n; } return s; } main { let g = finish greatest { let x = f(4); finish { } offer x; } print g; }",
        fails: 0,
        turns: &[
            (Turned::Region(FinishKind::Greatest), b""),
            (Turned::Done, b"4\n"),
        ],
    },
    // A call has its arguments.
    SpineRow {
        text: b"fn f(n) { return n + 1; } main { let x = f(4); print x; let y = f(x); print y; }",
        fails: 0,
        turns: &[
            (Turned::Region(FinishKind::Sum), b""),
            (Turned::Region(FinishKind::Sum), b"5\n"),
            (Turned::Done, b"5\n6\n"),
        ],
    },
    // Nothing is put behind a fault: of main at line 1, and of a job at line 2.
    SpineRow {
        text: b"main { print 1; let x = 1 / 0; print 2; }",
        fails: 0,
        turns: &[(Turned::Fault(9), b"1\n")],
    },
    SpineRow {
        text: b"fn f(n) {\nreturn 1 / n; } main { print 7; let x = f(0); print x; }",
        fails: 0,
        turns: &[
            (Turned::Region(FinishKind::Sum), b"7\n"),
            (Turned::Fault(17), b"7\n"),
        ],
    },
    // The fault of an async is its finish's.
    SpineRow {
        text: b"main { finish {\nasync { let x = 1 / 0; } } print 1; }",
        fails: 0,
        turns: &[
            (Turned::Region(FinishKind::Plain), b""),
            (Turned::Fault(17), b""),
        ],
    },
    SpineRow {
        text: b"main { print 1; finish { } print 2; }",
        fails: 2,
        turns: &[
            (Turned::Region(FinishKind::Plain), b"1\n"),
            (Turned::Stopped, b"1\n"),
        ],
    },
];

/// What is told of a turn.
fn told(turn: &SpineTurn<'_>) -> Turned {
    match turn {
        SpineTurn::Region(job) => Turned::Region(job.kind),
        SpineTurn::Done => Turned::Done,
        SpineTurn::Fault(code) => Turned::Fault(*code),
        SpineTurn::Stopped => Turned::Stopped,
        SpineTurn::NoMemory => Turned::NoMemory,
    }
}

/// Asserts the turns of a row's main, and that the last of them is the end.
fn expect_turns(rt: &(impl Abort + AllocGlobal), row: &SpineRow) -> Result<(), AllocError> {
    let alloc = rt.alloc();
    let code = code_of(rt, row.text);
    let columns = Data::new(alloc);
    let text = String::from_utf8_lossy(alloc, row.text)?;
    let mut out = MemSink::new(alloc, 64)?;
    out.fail_at(row.fails)?;
    let mut spine = Spine::new(alloc, code.tree(), &columns)?;
    for (turned, bytes) in row.turns {
        let turn = spine.next(&mut out);
        assert_eq!(rt; told(&turn), *turned, "{text}");
        assert_eq!(rt; out.bytes(), *bytes, "{text}");
        match turn {
            SpineTurn::Region(job) => {
                let given = elide_body(alloc, code.tree(), &columns, job)?;
                spine.give(given);
            }
            _ => return Ok(()),
        }
    }
    panic!(rt; "main goes on: {text}")
}

#[test]
fn main_is_cut_at_its_finishes_and_calls(rt: HostRuntime) -> Result<(), Fail> {
    for row in &ROWS {
        expect_turns(&rt, row)?;
    }
    Ok(())
}
