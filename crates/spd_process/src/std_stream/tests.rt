// Writes that are interrupted, and streams that take nothing.

use super::*;
use std::cell::Cell;
use std::fmt::Display;

#[test]
fn standard_output_takes_a_short_piece_whole(rt: HostRuntime) {
    let mut out = StdOut::new(rt.stdout(), SizeLimit::of_output(&rt));
    assert_eq!(rt; out.put(b"n=3\n"), Ok(4));
    assert_eq!(rt; out.put(b""), Ok(0));
}

#[test]
fn standard_error_takes_a_short_piece_whole(rt: HostRuntime) {
    let mut err = StdErr::new(rt.stderr(), SizeLimit::of_errors(&rt));
    assert_eq!(rt; err.put(b"spd: words refused\n"), Ok(19));
    assert_eq!(rt; err.put(b""), Ok(0));
}

/// A stream of which so many writes are interrupted, and those behind them take two bytes.
#[derive(Drop)]
struct Interrupted {
    left: Cell<u32>,
}

impl Print for Interrupted {
    fn print<D: Display + Drop>(&self, _value: D) -> io::Result<()> {
        Ok(())
    }

    fn println<D: Display + Drop>(&self, _value: D) -> io::Result<()> {
        Ok(())
    }

    fn write_all(&self, _bytes: &[u8]) -> io::Result<()> {
        Ok(())
    }

    fn write_some(&self, bytes: &[u8]) -> io::Result<usize> {
        let left = self.left.get();
        if left == 0 {
            return Ok(bytes.len().min(2));
        }
        self.left.set(left - 1);
        Err(io::Error::from(ErrorKind::Interrupted))
    }
}

#[test]
fn an_interrupted_write_is_tried_again(rt: HostRuntime) {
    let left = Cell::new(3);
    let mut stream = StdStream::new(Interrupted { left }, SizeLimit::of_output(&rt));
    assert_eq!(rt; stream.put(b"n=3\n"), Ok(2));
    assert_eq!(rt; stream.faults, 0);
}
