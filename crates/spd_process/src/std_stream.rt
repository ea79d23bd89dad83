// The sinks of the standard streams.
ghost use Rattle.std.specs.Prelude.{◌≡◌, ◌≤◌, None, IfOk, length};

use crate::size_limit::SizeLimit;
use spd_io::{Sink, SinkFault};
use std::io;
use std::io::ErrorKind;
use std::rt::Files;

/// Standard output. Each piece is written by one call of the system.
pub type StdOut<'a, R> = StdStream<'a, io::Stdout, R>;

/// Standard error. Each piece is written by one call of the system.
pub type StdErr<'a, R> = StdStream<'a, io::Stderr, R>;

/// A standard stream. It tells nothing of what it got, and counts its faults up to 2^64 - 1.
#[derive(Drop)]
pub struct StdStream<'a, P: Print, R: Files> {
    stream: P,
    limit: SizeLimit<'a, R>,
    faults: u64,
}

impl<'a, P: Print, R: Files> StdStream<'a, P, R> {
    /// The stream before its first piece, with its limit where it is a file.
    pub fn new(stream: P, limit: SizeLimit<'a, R>) -> StdStream<'a, P, R>
        ensures { result.faults ≡ 0 }
    {
        StdStream {
            stream,
            limit,
            faults: 0,
        }
    }

    /// Writes a first part of a piece. A write that a signal interrupted is tried again.
    fn write_part(&self, piece: &[u8]) -> io::Result<usize>
        ensures { IfOk result (λ taken. taken ≤ length piece.now) }
    {
        if !self.limit.has_room() {
            return Err(io::Error::from(ErrorKind::FileTooLarge));
        }
        for _ in 0..u64::MAX {
            match self.stream.write_some(piece) {
                Err(error) if error.kind() == ErrorKind::Interrupted => {}
                answer => return answer,
            }
        }
        Err(io::Error::from(ErrorKind::Interrupted))
    }
}

impl<'a, P: Print, R: Files> Sink for StdStream<'a, P, R> {
    ghost state = { λ stream. record { got = None; faults = stream.faults } };

    fn put(&mut self, piece: &[u8]) -> Result<usize, SinkFault> {
        if piece.is_empty() {
            return Ok(0);
        }
        match self.write_part(piece) {
            Ok(taken) if taken > 0 => Ok(taken),
            _ => {
                self.faults = self.faults.saturating_add(1);
                Err(SinkFault::Failed)
            }
        }
    }
}

#[cfg(test)]
mod tests;
