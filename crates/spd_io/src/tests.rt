// The shelves and sinks in memory, call by call.

ghost use Rattle.spd_io.specs.Memory.{mem_sink_state};

use super::*;
use spd_list::Seq;
use std::test::Fail;

#[test]
fn a_shelf_in_memory_reads_what_was_added_last(rt: HostRuntime) -> Result<(), Fail> {
    let alloc = rt.alloc();
    let mut shelf = MemShelf::new(alloc);
    shelf.add(alloc, "a.csv", b"n\n1\n")?;
    shelf.add(alloc, "b.csv", b"")?;
    shelf.add(alloc, "a.csv", b"n\n23\n")?;
    shelf.fail_at(5)?;
    let reads: [(&str, usize, Result<&[u8], &ShelfFault>); 6] = [
        ("a.csv", 5, Ok(b"n\n23\n".as_slice())),
        ("a.csv", 4, Err(&ShelfFault::TooLong)),
        ("b.csv", 0, Ok(b"".as_slice())),
        ("c.csv", 9, Err(&ShelfFault::Failed)),
        ("a.csv", 9, Err(&ShelfFault::Failed)),
        ("a.csv", 9, Ok(b"n\n23\n".as_slice())),
    ];
    for (name, limit, want) in reads {
        let read = shelf.read(alloc, name, limit);
        assert_eq!(rt; read.as_deref(), want, "{name} within {limit}");
    }
    Ok(())
}

#[test]
fn a_still_shelf_has_an_empty_file_under_other_names(rt: HostRuntime) -> Result<(), Fail> {
    let alloc = rt.alloc();
    let mut shelf = StillShelf::new(alloc);
    shelf.add(alloc, "a.csv", b"n\n1\n")?;
    shelf.add(alloc, "a.csv", b"n\n23\n")?;
    let reads: [(&str, usize, Result<&[u8], &ShelfFault>); 3] = [
        ("a.csv", 5, Ok(b"n\n23\n".as_slice())),
        ("a.csv", 4, Err(&ShelfFault::TooLong)),
        ("b.csv", 0, Ok(b"".as_slice())),
    ];
    for (name, limit, want) in reads {
        let read = shelf.read(alloc, name, limit);
        assert_eq!(rt; read.as_deref(), want, "{name} within {limit}");
    }
    Ok(())
}

#[test]
fn failures_are_noted_in_order(rt: HostRuntime) -> Result<(), Fail> {
    let mut failed = Seq::new(rt.alloc());
    note_failure(rt.alloc(), &mut failed, "b.csv")?;
    note_failure(rt.alloc(), &mut failed, "a.csv")?;
    assert_eq!(rt; failed.len(), 2);
    assert_eq!(rt; failed.get(0).as_slice(), b"b.csv".as_slice());
    assert_eq!(rt; failed.get(1).as_slice(), b"a.csv".as_slice());
    Ok(())
}

#[test]
fn a_sink_in_memory_takes_what_fits(rt: HostRuntime) -> Result<(), Fail> {
    let mut sink = MemSink::new(rt.alloc(), 4)?;
    sink.fail_at(2)?;
    // Puts of an empty piece are not counted, so the put of "d" is the second.
    let puts: [(&[u8], Result<usize, SinkFault>, &[u8]); 6] = [
        (b"", Ok(0), b""),
        (b"abc", Ok(3), b"abc"),
        (b"", Ok(0), b"abc"),
        (b"d", Err(SinkFault::Failed), b"abc"),
        (b"d", Ok(1), b"abcd"),
        (b"e", Err(SinkFault::Failed), b"abcd"),
    ];
    for (piece, want, bytes) in puts {
        assert_eq!(rt; sink.put(piece), want, "{piece:?}");
        assert_eq!(rt; sink.bytes(), bytes, "after {piece:?}");
    }
    Ok(())
}

#[test]
fn a_still_sink_takes_all(rt: HostRuntime) {
    let mut sink = StillSink::new();
    assert_eq!(rt; sink.put(b"abcd"), Ok(4));
    assert_eq!(rt; sink.put(b""), Ok(0));
}

/// A sink in memory that takes at most three bytes a put.
#[derive(Drop)]
struct ThreeAtATime {
    taken: MemSink,
}

impl Sink for ThreeAtATime {
    ghost state = { λ sink. mem_sink_state sink.taken };

    fn put(&mut self, piece: &[u8]) -> Result<usize, SinkFault> {
        self.taken.put(&piece[..piece.len().min(3)])
    }
}

#[test]
fn all_is_written_in_as_many_puts_as_it_needs(rt: HostRuntime) -> Result<(), Fail> {
    let rows: [(usize, &[u8], Result<(), Stopped>, &[u8]); 4] = [
        (7, b"abcdefg", Ok(()), b"abcdefg"),
        (6, b"abcdefg", Err(Stopped { sent: 6 }), b"abcdef"),
        (5, b"abcdefg", Err(Stopped { sent: 3 }), b"abc"),
        (0, b"", Ok(()), b""),
    ];
    for (room, bytes, want, taken) in rows {
        let mut sink = ThreeAtATime {
            taken: MemSink::new(rt.alloc(), room)?,
        };
        assert_eq!(rt; write_all_of(&mut sink, bytes), want, "in room for {room}");
        assert_eq!(rt; sink.taken.bytes(), taken, "in room for {room}");
    }
    Ok(())
}

#[test]
fn faults_print_what_happened(rt: HostRuntime) -> Result<(), Fail> {
    let alloc = rt.alloc();
    let texts = [
        (
            format!(in alloc; "{}", ShelfFault::Failed)?,
            "the file is missing or cannot be read",
        ),
        (
            format!(in alloc; "{}", ShelfFault::TooLong)?,
            "the file has more bytes than the limit",
        ),
        (
            format!(in alloc; "{}", ShelfFault::NoMemory)?,
            "out of memory",
        ),
        (
            format!(in alloc; "{}", SinkFault::Failed)?,
            "nothing was taken",
        ),
        (
            format!(in alloc; "{}", Stopped { sent: 3 })?,
            "writing stopped after 3 bytes",
        ),
    ];
    for (text, want) in &texts {
        assert_eq!(rt; text.as_str(), *want);
    }
    Ok(())
}
