// A job by workers.

ghost use Rattle.std.specs.Prelude.{◌≡◌, ◌<◌, ◌≤◌, IfOk, OnErr, length};
ghost use Rattle.spd_words.specs.Total.{ended};
ghost use Rattle.spd_words.specs.declared.scheme.Scheme.TheVariants.{Flat};
ghost use Rattle.spd_meaning.specs.Eval.{job_total, job_moves};
ghost use Rattle.spd_level.specs.Columns.{context_of};
ghost use Rattle.spd_machine.specs.Elision.{job_eval};
ghost use Rattle.spd_run.specs.JobLogs.{with_job};

use spd_boxed::BoxedBody;
use spd_code::CodeTree;
use spd_data::Data;
use spd_grow::Coin;
use spd_machine::Job;
use spd_rule::Field;
use spd_task::Task;
use spd_words::{Given, Plan};
use spd_work::{Gate, RegionEnd, RunLog, region};
use std::alloc::{AllocError, Global};
use std::sync::Wait;
use std::thread::Threads;

/// Runs a job of a code over columns by so many workers over a new field of this plan, and adds the field
/// that they leave to the log: the gift of its offers, and the least code of its faults or `NO_FAULT`.
///
/// `AllocError` comes where memory runs out, here or in a task, and leaves the log as it was.
pub fn run_job_on_workers<'a, R: Threads + Wait + Sync, C: Coin, G: Gate>(
    rt: &R,
    alloc: Global,
    code: &'a CodeTree,
    columns: &'a Data,
    job: Job<'a>,
    plan: Plan,
    workers: u32,
    coins: &mut [C],
    gate: &G,
    log: &mut RunLog,
) -> Result<Given, AllocError>
    requires flat { plan.scheme ≡ Flat }
    requires workers { (0 < workers) × (workers ≤ 64) }
    requires coins { workers ≤ length coins.old }
    ensures given { IfOk result (λ given.
        ended given ≡ job_total job.entry.kind (job_eval (context_of code.now columns.now) job.entry.body)) }
    ensures log { IfOk result (λ _.
        log.new ≡ with_job plan log.old (job_moves (job_eval (context_of code.now columns.now) job.entry.body))) }
    ensures unlogged { OnErr result (log.new ≡ log.old) }
{
    let kind = job.kind;
    let task = Task::of_job(alloc, code, columns, job)?;
    let body = BoxedBody::new(alloc, task)?;
    let (field, share) = Field::new(alloc, plan)?;
    let RegionEnd {
        gift,
        fault,
        closed,
    } = region(rt, alloc, field, share, kind, body, workers, coins, gate)?;
    log.add(closed);
    Ok(Given { gift, fault })
}
