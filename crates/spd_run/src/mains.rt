// Main, with its jobs by workers.

ghost use Rattle.std.specs.Prelude.{◌≡◌, ◌≢◌, ◌<◌, ◌≤◌, IfOk, OnOk, OnErr, length};
ghost use Rattle.spd_io.specs.Sink.{Gets, GetsFront, Failed, SameFaults};
ghost use Rattle.spd_words.specs.declared.scheme.Scheme.TheVariants.{Flat};
ghost use Rattle.spd_meaning.specs.Acts.{jobs_of};
ghost use Rattle.spd_meaning.specs.Printed.{printed};
ghost use Rattle.spd_level.specs.Columns.{context_of};
ghost use Rattle.spd_spine.specs.Walk.{KeepsToMain, main_eval, EndsSo};
ghost use Rattle.spd_run.specs.JobLogs.{with_jobs};

use crate::jobs::run_job_on_workers;
use spd_code::CodeTree;
use spd_data::Data;
use spd_grow::Coin;
use spd_io::Sink;
use spd_spine::{End, RunError, Spine, SpineTurn};
use spd_words::Plan;
use spd_work::{Gate, RunLog};
use std::alloc::Global;
use std::sync::Wait;
use std::thread::Threads;

/// Runs main over columns, each of its finishes and calls by so many workers over a field of its own of this
/// plan, and puts each print to `out` as it is reached. The fields that they leave are added to the log.
///
/// An error comes where the sink failed, with a first part of main's bytes put, or where memory ran
/// out, with a first part of them put and the sink's count as it was.
pub fn run_main_on_workers<R: Threads + Wait + Sync, C: Coin, G: Gate, O: Sink>(
    rt: &R,
    alloc: Global,
    code: &CodeTree,
    columns: &Data,
    plan: Plan,
    workers: u32,
    coins: &mut [C],
    gate: &G,
    log: &mut RunLog,
    out: &mut O,
) -> Result<End, RunError>
    requires main { KeepsToMain (context_of code.now columns.now) }
    requires flat { plan.scheme ≡ Flat }
    requires workers { (0 < workers) × (workers ≤ 64) }
    requires coins { workers ≤ length coins.old }
    ensures all { OnOk result (Gets (O.state out.old) (O.state out.new)
        (printed (main_eval (context_of code.now columns.now)).given)) }
    ensures end { IfOk result (λ end. EndsSo end (main_eval (context_of code.now columns.now)).end) }
    // Main's jobs were added to the log, each once and in order.
    ensures log { OnOk result (log.new
        ≡ with_jobs plan log.old (jobs_of (main_eval (context_of code.now columns.now)).given)) }
    ensures front { OnErr result (GetsFront (O.state out.old) (O.state out.new)
        (printed (main_eval (context_of code.now columns.now)).given)) }
    ensures cause { result ≡ Err RunError.WriteFailed → Failed (O.state out.old) (O.state out.new) }
    ensures kept { result ≢ Err RunError.WriteFailed → SameFaults (O.state out.old) (O.state out.new) }
{
    let mut spine = Spine::new(alloc, code, columns)?;
    let mut held = memory_of_a_region(alloc, &plan);
    loop {
        match spine.next(out) {
            SpineTurn::Region(job) => {
                drop(held.take());
                let given = run_job_on_workers(
                    rt, alloc, code, columns, job, plan, workers, coins, gate, log,
                )?;
                spine.give(given);
            }
            SpineTurn::Done => return Ok(End::Done),
            SpineTurn::Fault(fault) => return Ok(End::Fault(fault)),
            SpineTurn::Stopped => return Err(RunError::WriteFailed),
            SpineTurn::NoMemory => return Err(RunError::NoMemory),
        }
    }
}

/// As much memory as a region takes for its table, where there is so much. Once it has been let go, glibc's
/// allocator keeps the memory of one region for the next, and the system need not clear it anew.
fn memory_of_a_region(alloc: Global, plan: &Plan) -> Option<Vec<u64>> {
    match Vec::with_capacity(alloc, 3 * plan.words() as usize) {
        Ok(memory) => Some(memory),
        Err(_) => None,
    }
}
