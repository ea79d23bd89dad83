// Where bytes are put, piece by piece.

ghost use Rattle.std.specs.Prelude.{◌≡◌, ◌≤◌, ◌<◌, [], IfOk, IfErr, OnOk, OnErr, length, take};
ghost use Rattle.spd_io.specs.Sink.{SinkState, Gets, Failed, SinkKeepsFaults, SameFaults};

use thiserror::Error;

/// Why a sink took nothing.
#[derive(Clone, Copy, Debug, PartialEq, Eq, Error)]
pub enum SinkFault {
    #[error("nothing was taken")]
    Failed,
}

/// Where writing stopped: the first `sent` bytes were taken, and no others.
#[derive(Clone, Copy, Debug, PartialEq, Eq, Error)]
#[error("writing stopped after {sent} bytes")]
pub struct Stopped {
    pub sent: usize,
}

/// Takes bytes.
pub trait Sink {
    /// What it got, where it tells, and how often it failed.
    ghost state: { Self → SinkState };

    /// Takes a first part of a piece, at least one byte of it, and answers how many bytes it took.
    /// An empty piece gives 0.
    ///
    /// `Failed` comes only where the count of faults rose, and then nothing was taken; at any other
    /// answer the count stays. A device that takes nothing counts as failed.
    fn put(&mut self, piece: &[u8]) -> Result<usize, SinkFault>
        ensures some { IfOk result (λ n. 0 < length piece.now → 0 < n) }
        ensures within { IfOk result (λ n. n ≤ length piece.now) }
        ensures taken { IfOk result (λ n. Gets (state self.old) (state self.new) (take n piece.now)) }
        ensures empty { piece.now ≡ [] → result ≡ Ok 0 }
        ensures failed { OnErr result (Failed (state self.old) (state self.new)) }
        ensures nothing { OnErr result (Gets (state self.old) (state self.new) []) }
        ensures counts { SinkKeepsFaults (state self.old) (state self.new) }
        ensures kept { OnOk result (SameFaults (state self.old) (state self.new)) };
}

/// Puts all of the bytes, in as many pieces as the sink needs; no bytes make no put.
///
/// `Stopped` comes only where the sink's count of faults rose. Then the first `sent` bytes were
/// taken, which are fewer than all. At `Ok` the count stays.
pub fn write_all_of<S: Sink>(sink: &mut S, bytes: &[u8]) -> Result<(), Stopped>
    ensures all { OnOk result (Gets (S.state sink.old) (S.state sink.new) bytes.now) }
    ensures cause { OnErr result (Failed (S.state sink.old) (S.state sink.new)) }
    ensures short { IfErr result (λ stopped. stopped.sent < length bytes.now) }
    ensures sent { IfErr result (λ stopped. Gets (S.state sink.old) (S.state sink.new) (take stopped.sent bytes.now)) }
    ensures counts { SinkKeepsFaults (S.state sink.old) (S.state sink.new) }
    ensures kept { OnOk result (SameFaults (S.state sink.old) (S.state sink.new)) }
    ensures none { bytes.now ≡ [] → sink.new ≡ sink.old }
{
    let mut sent: usize = 0;
    while sent < bytes.len() {
        match sink.put(&bytes[sent..]) {
            Ok(count) => sent += count,
            Err(_) => return Err(Stopped { sent }),
        }
    }
    Ok(())
}
