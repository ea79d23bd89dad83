// What `serve` answers to words over files and sinks in memory, compared with what a row says.

ghost use Rattle.std.specs.Prelude.{◌≡◌, ◌≤◌, IfOk, length};

use spd_grow::Heads;
use spd_io::{MemShelf, MemSink};
use spd_top::{Words, serve};
use spd_work::{Open, RunLog};
use std::alloc::{AllocError, Global};
use std::process::Abort;
use std::sync::Wait;
use std::thread::Threads;

/// The bytes that out and err get, and the status.
pub(crate) type Answer<'a> = (&'a [u8], &'a [u8], u8);

/// The calls that are to fail: of the shelf, of out and of err. 0 is none.
pub(crate) type Failing = (u32, u32, u32);

fn words_of(alloc: Global, words: &[&str]) -> Result<Words, AllocError> {
    let mut all = Words::new(alloc);
    for word in words {
        all.add(alloc, word)?;
    }
    Ok(all)
}

/// A sink with room for 128 bytes, of which a call is to fail, or none for 0.
pub(crate) fn sink_failing_at(alloc: Global, call: u32) -> Result<MemSink, AllocError> {
    let mut sink = MemSink::new(alloc, 128)?;
    sink.fail_at(call)?;
    Ok(sink)
}

/// A coin for each worker that a run may have.
fn coins_of(alloc: Global) -> Result<Vec<Heads>, AllocError>
    ensures { IfOk result (λ coins. 64 ≤ length coins.items) }
{
    let mut coins = Vec::new(alloc);
    for _ in 0..64u32 {
        coins.push(Heads::new())?;
    }
    Ok(coins)
}

/// The status that words are answered with. That it has no contract keeps the proofs of tests short.
fn status_of<R: Threads + Wait + Sync>(
    rt: &R,
    alloc: Global,
    words: &Words,
    shelf: &mut MemShelf,
    out: &mut MemSink,
    err: &mut MemSink,
    log: &mut RunLog,
) -> Result<u8, AllocError> {
    let mut coins = coins_of(alloc)?;
    let coins = coins.as_mut_slice();
    let status = serve(rt, alloc, words, shelf, out, err, coins, &Open, log);
    Ok(status)
}

/// Asserts what is answered to words where these calls are to fail.
pub(crate) fn expect<R: Abort + Threads + Wait + Sync>(
    rt: &R,
    alloc: Global,
    words: &[&str],
    shelf: &mut MemShelf,
    (read, out_call, err_call): Failing,
    (out_gets, err_gets, status): Answer<'_>,
    log: &mut RunLog,
) -> Result<(), AllocError> {
    let row = format!(in alloc; "{words:?}, failing {read}, {out_call}, {err_call}")?;
    let words = words_of(alloc, words)?;
    shelf.fail_at(read)?;
    let mut out = sink_failing_at(alloc, out_call)?;
    let mut err = sink_failing_at(alloc, err_call)?;
    let answer = status_of(rt, alloc, &words, shelf, &mut out, &mut err, log)?;
    assert_eq!(rt; answer, status, "{row}");
    assert_eq!(rt; out.bytes(), out_gets, "out of {row}");
    assert_eq!(rt; err.bytes(), err_gets, "err of {row}");
    Ok(())
}

/// A shelf of these files.
pub(crate) fn shelf_of(
    alloc: Global,
    files: &[(&'static str, &'static [u8])],
) -> Result<MemShelf, AllocError> {
    let mut shelf = MemShelf::new(alloc);
    for (name, text) in files {
        shelf.add(alloc, name, text)?;
    }
    Ok(shelf)
}
