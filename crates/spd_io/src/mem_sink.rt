// A sink in memory.

ghost use Rattle.std.specs.Prelude.{◌≡◌, ◌≢◌, ◌≤◌, ◌<◌, [], ◌∷◌, ◌++◌, IfOk, OnOk, OnErr, length, take};
ghost use Rattle.spd_io.specs.Sink.{Gets, Failed, SinkKeepsFaults, SameFaults};
ghost use Rattle.spd_io.specs.Memory.{MemSinkState, mem_sink_state, put_of, after_put, uncalled, to_fail};

use crate::calls::CallNumbers;
use crate::sink::{Sink, SinkFault};
use std::alloc::{AllocError, Global};
use std::marker::Model;

/// A sink in memory, which tells what it got. A piece that fits in its room is taken whole, any
/// other not at all: that is a fault, as is a put that is to fail.
#[derive(Drop)]
pub struct MemSink {
    bytes: Vec<u8>,
    room: usize,
    calls: CallNumbers,
    faults: u64,
}

impl Model for MemSink {
    ghost use Rattle.std.specs.Prelude.{◌≤◌, vec_len, vec_capacity};
    ghost use Rattle.spd_io.specs.Memory.{MemSinkState};

    ghost Value = { MemSinkState };

    ghost view = { λ sink. record { bytes = sink.bytes.items; room = sink.room; calls = sink.calls; faults = sink.faults } };

    ghost invariant = { λ sink. (vec_len sink.bytes ≤ sink.room) × (sink.room ≤ vec_capacity sink.bytes) };
}

impl MemSink {
    /// An empty sink with room for `room` bytes. Their memory is taken here: no put asks for any.
    pub fn new(alloc: Global, room: usize) -> Result<MemSink, AllocError>
        ensures { IfOk result (λ sink. sink ≡ record { bytes = []; room = room; calls = uncalled; faults = 0 }) }
    {
        Ok(MemSink {
            bytes: Vec::with_capacity(alloc, room)?,
            room,
            calls: CallNumbers::new(alloc),
            faults: 0,
        })
    }

    /// The put of a number is to fail. Puts are counted from 1, those of an empty piece not at all.
    /// Where memory runs out the sink is unchanged.
    pub fn fail_at(&mut self, call: u32) -> Result<(), AllocError>
        ensures ok { OnOk result (self.new ≡ record self.old { calls = to_fail self.old.calls call }) }
        ensures err { OnErr result (self.new ≡ self.old) }
    {
        self.calls.fail_at(call)
    }

    /// The bytes that it got, in order.
    pub fn bytes(&self) -> &[u8]
        ensures { result.now ≡ self.now.bytes }
    {
        self.bytes.as_slice()
    }
}

impl Sink for MemSink {
    ghost state = { mem_sink_state };

    fn put(&mut self, piece: &[u8]) -> Result<usize, SinkFault>
        ensures some { IfOk result (λ n. 0 < length piece.now → 0 < n) }
        ensures within { IfOk result (λ n. n ≤ length piece.now) }
        ensures taken { IfOk result (λ n. Gets (mem_sink_state self.old) (mem_sink_state self.new) (take n piece.now)) }
        ensures empty { piece.now ≡ [] → result ≡ Ok 0 }
        ensures failed { OnErr result (Failed (mem_sink_state self.old) (mem_sink_state self.new)) }
        ensures nothing { OnErr result (Gets (mem_sink_state self.old) (mem_sink_state self.new) []) }
        ensures counts { SinkKeepsFaults (mem_sink_state self.old) (mem_sink_state self.new) }
        ensures kept { OnOk result (SameFaults (mem_sink_state self.old) (mem_sink_state self.new)) }
        // A piece is taken whole or not at all.
        ensures answer { piece.now ≢ [] → result ≡ put_of self.old piece.now }
        ensures after { piece.now ≢ [] → self.new ≡ after_put self.old piece.now }
        ensures unchanged { piece.now ≡ [] → self.new ≡ self.old }
    {
        if piece.is_empty() {
            return Ok(0);
        }
        let fails = self.calls.count();
        if fails || self.room - self.bytes.len() < piece.len() {
            self.faults = self.faults.saturating_add(1);
            return Err(SinkFault::Failed);
        }
        let Ok(()) = self.bytes.extend_from_slice(piece) else {
            unreachable!()
        };
        Ok(piece.len())
    }
}
