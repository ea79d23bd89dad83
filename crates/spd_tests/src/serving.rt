// What the commands answer over files and sinks in memory, compared with what a row says.

use spd_io::{MemShelf, MemSink, Shelf, Sink};
use spd_top::{Words, serve_still};
use std::alloc::{AllocError, Global};
use std::process::Abort;

/// The bytes that out and err get, and the status.
pub(crate) type Answer<'a> = (&'a [u8], &'a [u8], u8);

/// What `elide` answers where the data file `a` of a program is missing.
pub(crate) const NO_DATA: Answer<'static> = (b"", b"spd: a: read failed\n", 4);

/// The calls that are to fail: of the shelf, of out and of err. 0 is none.
pub(crate) type Failing = (u32, u32, u32);

pub(crate) fn words_of(alloc: Global, words: &[&str]) -> Result<Words, AllocError> {
    let mut all = Words::new(alloc);
    for word in words {
        all.add(alloc, word)?;
    }
    Ok(all)
}

/// A sink with room for 64 bytes, of which a call is to fail, or none for 0.
pub(crate) fn sink_failing_at(alloc: Global, call: u32) -> Result<MemSink, AllocError> {
    let mut sink = MemSink::new(alloc, 64)?;
    sink.fail_at(call)?;
    Ok(sink)
}

/// The status that words are answered with. That it has no contract keeps the proofs of tests short.
fn status_of<F: Shelf, O: Sink, E: Sink>(
    alloc: Global,
    words: &Words,
    shelf: &mut F,
    out: &mut O,
    err: &mut E,
) -> u8 {
    serve_still(alloc, words, shelf, out, err)
}

/// Asserts what is answered to words where these calls are to fail.
pub(crate) fn expect(
    rt: &(impl Abort + AllocGlobal),
    words: &[&str],
    shelf: &mut MemShelf,
    (read, out_call, err_call): Failing,
    (out_gets, err_gets, status): Answer<'_>,
    row: &str,
) -> Result<(), AllocError> {
    let words = words_of(rt.alloc(), words)?;
    shelf.fail_at(read)?;
    let mut out = sink_failing_at(rt.alloc(), out_call)?;
    let mut err = sink_failing_at(rt.alloc(), err_call)?;
    let answer = status_of(rt.alloc(), &words, shelf, &mut out, &mut err);
    assert_eq!(rt; answer, status, "{row}");
    assert_eq!(rt; out.bytes(), out_gets, "out of {row}");
    assert_eq!(rt; err.bytes(), err_gets, "err of {row}");
    Ok(())
}

/// Asserts what is answered to a command of a program where no call fails.
fn expect_answer(
    rt: &(impl Abort + AllocGlobal),
    command: &str,
    text: &[u8],
    answer: Answer<'_>,
) -> Result<(), AllocError> {
    let mut shelf = MemShelf::new(rt.alloc());
    shelf.add(rt.alloc(), "a.sp", text)?;
    let told = String::from_utf8_lossy(rt.alloc(), text)?;
    let row = format!(in rt.alloc(); "{command} of {told}")?;
    expect(
        rt,
        &[command, "a.sp"],
        &mut shelf,
        (0, 0, 0),
        answer,
        row.as_str(),
    )
}

/// Asserts what is answered to `elide` of a program where no call fails.
pub(crate) fn expect_of(
    rt: &(impl Abort + AllocGlobal),
    text: &[u8],
    answer: Answer<'_>,
) -> Result<(), AllocError> {
    expect_answer(rt, "elide", text, answer)
}

/// Asserts what is answered to `check` of a program where no call fails.
pub(crate) fn expect_check(
    rt: &(impl Abort + AllocGlobal),
    text: &[u8],
    answer: Answer<'_>,
) -> Result<(), AllocError> {
    expect_answer(rt, "check", text, answer)
}

/// Asserts the fault of a program's text: its line and its kind, as both commands tell them.
pub(crate) fn expect_fault(
    rt: &(impl Abort + AllocGlobal),
    text: &[u8],
    fault: &str,
) -> Result<(), AllocError> {
    let told = format!(in rt.alloc(); "spd: a.sp:{fault}\n")?;
    expect_of(rt, text, (b"", told.as_bytes(), 1))?;
    expect_check(rt, text, (b"", told.as_bytes(), 1))
}

/// Asserts what a program prints, and that it has no fault.
pub(crate) fn expect_prints(
    rt: &(impl Abort + AllocGlobal),
    text: &[u8],
    prints: &[u8],
) -> Result<(), AllocError> {
    expect_of(rt, text, (prints, b"", 0))
}

/// Asserts the fault with which a program ends, as it is told, and what it prints before.
pub(crate) fn expect_run_fault(
    rt: &(impl Abort + AllocGlobal),
    text: &[u8],
    prints: &[u8],
    fault: &str,
) -> Result<(), AllocError> {
    let told = format!(in rt.alloc(); "spd: a.sp:{fault}\n")?;
    expect_of(rt, text, (prints, told.as_bytes(), 3))
}
