// What the command answers to arguments, over files and sinks in memory.

ghost use Rattle.std.specs.Prelude.{Some};

use crate::running::sink_failing_at;
use spd_io::{MemShelf, MemSink};
use spd_list::Seq;
use spd_process::{Arguments, all_arguments};
use spd_top::serve_arguments;
use std::alloc::{AllocError, Global};
use std::sync::Wait;
use std::test::Fail;
use std::thread::Threads;

/// Arguments, and what out and err get, and the status.
type Row = (&'static [&'static [u8]], (&'static [u8], &'static [u8], u8));

const RAN: (&[u8], &[u8], u8) = (b"3\n", b"", 0);

const REFUSED: (&[u8], &[u8], u8) = (b"", b"spd: words refused\n", 2);

static ROWS: [Row; 18] = [
    (&[b"spd", b"elide", b"a.sp"], RAN),
    (&[b"spd", b"run", b"a.sp"], RAN),
    (&[b"spd", b"run", b"--seed", b"7", b"a.sp"], RAN),
    (&[b"spd", b"elide", b"\xc3\xa9 .sp"], RAN),
    // The program's own name is not looked at.
    (&[b"\xff", b"elide", b"a.sp"], RAN),
    (&[b"", b"elide", b"a.sp"], RAN),
    (&[b"elide", b"elide", b"a.sp"], RAN),
    (&[b"elide", b"a.sp"], REFUSED),
    (&[], REFUSED),
    (&[b"spd"], REFUSED),
    (&[b"spd", b"elide"], REFUSED),
    (
        &[b"spd", b"elide", b" a.sp"],
        (b"", b"spd:  a.sp: read failed\n", 4),
    ),
    (&[b"spd", b"elide", b"a.sp", b"a.sp"], REFUSED),
    (
        &[b"spd", b"check", b"a.sp"],
        (b"main {\n  print 1 + 2;\n}\n", b"", 0),
    ),
    (&[b"check", b"a.sp"], REFUSED),
    (&[b"spd", b"elide", b"a.sp\xff"], REFUSED),
    (&[b"spd", b"\xffelide", b"a.sp"], REFUSED),
    (&[b"spd", b"elide", b"a.sp", b"\xc3"], REFUSED),
];

/// Arguments that are told.
#[derive(Drop)]
struct Listed {
    all: Seq<Seq<u8>>,
}

impl Arguments for Listed {
    ghost told = { λ listed. Some listed.all };

    fn argument(&self, alloc: Global, number: u32) -> Result<Option<Seq<u8>>, AllocError> {
        if number >= self.all.len() {
            return Ok(None);
        }
        Ok(Some(Seq::from_slice(alloc, self.all.get(number).as_slice())?))
    }
}

fn telling(alloc: Global, arguments: &[&[u8]]) -> Result<Listed, AllocError> {
    let mut all = Seq::new(alloc);
    for argument in arguments {
        all.push(Seq::from_slice(alloc, argument)?)?;
    }
    Ok(Listed { all })
}

#[test]
fn arguments_behind_the_first_are_the_words(rt: HostRuntime) -> Result<(), Fail> {
    let alloc = rt.alloc();
    for (arguments, (out_gets, err_gets, status)) in &ROWS {
        let mut shelf = MemShelf::new(alloc);
        shelf.add(alloc, "a.sp", b"main { print 1 + 2; }")?;
        shelf.add(alloc, "\u{e9} .sp", b"main { print 1 + 2; }")?;
        let mut out = MemSink::new(alloc, 64)?;
        let mut err = MemSink::new(alloc, 64)?;
        let all = all_arguments(alloc, &telling(alloc, arguments)?);
        let answer = serve_arguments(&rt, alloc, all, &mut shelf, &mut out, &mut err);
        assert_eq!(rt; answer, *status, "{arguments:?}");
        assert_eq!(rt; out.bytes(), *out_gets, "out of {arguments:?}");
        assert_eq!(rt; err.bytes(), *err_gets, "err of {arguments:?}");
    }
    Ok(())
}

/// A call of err that is to fail, and what err gets and the status: of arguments that could not be
/// had, and of none.
static UNSERVED: [(u32, (&[u8], u8), (&[u8], u8)); 3] = [
    (
        0,
        (b"spd: out of memory\n", 7),
        (b"spd: words refused\n", 2),
    ),
    (1, (b"", 7), (b"", 5)),
    (
        2,
        (b"spd: out of memory\n", 7),
        (b"spd: words refused\n", 2),
    ),
];

/// The status where no program is called for, and what err got.
fn unserved<R: Threads + Wait + Sync>(
    rt: &R,
    alloc: Global,
    arguments: Result<Seq<Seq<u8>>, AllocError>,
    call: u32,
) -> Result<(u8, MemSink), AllocError> {
    let mut err = sink_failing_at(alloc, call)?;
    let mut shelf = MemShelf::new(alloc);
    let mut out = MemSink::new(alloc, 64)?;
    let status = serve_arguments(rt, alloc, arguments, &mut shelf, &mut out, &mut err);
    Ok((status, err))
}

#[test]
fn lines_that_need_no_memory_are_told(rt: HostRuntime) -> Result<(), Fail> {
    let alloc = rt.alloc();
    for (call, (not_had_line, not_had_status), (refused_line, refused_status)) in &UNSERVED {
        let (status, err) = unserved(&rt, alloc, Err(AllocError), *call)?;
        assert_eq!(rt; status, *not_had_status);
        assert_eq!(rt; err.bytes(), *not_had_line);
        let (status, err) = unserved(&rt, alloc, Ok(Seq::new(alloc)), *call)?;
        assert_eq!(rt; status, *refused_status);
        assert_eq!(rt; err.bytes(), *refused_line);
    }
    Ok(())
}
