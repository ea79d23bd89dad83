// Main from its first statement to its end.

ghost use Rattle.std.specs.Prelude.{◌≡◌, ◌≢◌, IfOk, OnOk, OnErr};
ghost use Rattle.spd_io.specs.Sink.{Gets, GetsFront, Failed, SameFaults};
ghost use Rattle.spd_meaning.specs.Printed.{printed};
ghost use Rattle.spd_level.specs.Columns.{context_of};
ghost use Rattle.spd_spine.specs.Walk.{KeepsToMain, main_eval, EndsSo};

use crate::spine::Spine;
use crate::turn::{End, RunError, SpineTurn};
use spd_code::CodeTree;
use spd_data::Data;
use spd_io::Sink;
use spd_machine::Regions;
use std::alloc::Global;

/// Runs main over columns, each of its finishes and calls by the regions, and puts each print to `out`
/// as it is reached.
///
/// An error comes where the sink failed, with a first part of main's bytes put, or where memory ran
/// out, with a first part of them put and the sink's count as it was.
pub fn run_main<R: Regions, O: Sink>(
    alloc: Global,
    code: &CodeTree,
    columns: &Data,
    regions: &mut R,
    out: &mut O,
) -> Result<End, RunError>
    requires main { KeepsToMain (context_of code.now columns.now) }
    ensures all { OnOk result (Gets (O.state out.old) (O.state out.new)
        (printed (main_eval (context_of code.now columns.now)).given)) }
    ensures end { IfOk result (λ end. EndsSo end (main_eval (context_of code.now columns.now)).end) }
    ensures front { OnErr result (GetsFront (O.state out.old) (O.state out.new)
        (printed (main_eval (context_of code.now columns.now)).given)) }
    ensures cause { result ≡ Err RunError.WriteFailed → Failed (O.state out.old) (O.state out.new) }
    ensures kept { result ≢ Err RunError.WriteFailed → SameFaults (O.state out.old) (O.state out.new) }
{
    let mut spine = Spine::new(alloc, code, columns)?;
    loop {
        match spine.next(out) {
            SpineTurn::Region(job) => {
                let given = regions.region(alloc, code, columns, job)?;
                spine.give(given);
            }
            SpineTurn::Done => return Ok(End::Done),
            SpineTurn::Fault(fault) => return Ok(End::Fault(fault)),
            SpineTurn::Stopped => return Err(RunError::WriteFailed),
            SpineTurn::NoMemory => return Err(RunError::NoMemory),
        }
    }
}
