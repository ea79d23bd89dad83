// What runs jobs as dags of tasks on one thread.

ghost use Rattle.std.specs.Prelude.{◌≡◌, IfOk};
ghost use Rattle.spd_words.specs.Total.{ended, settle};
ghost use Rattle.spd_meaning.specs.Eval.{job_total};
ghost use Rattle.spd_level.specs.Columns.{context_of};
ghost use Rattle.spd_machine.specs.Elision.{job_eval};
ghost use Rattle.spd_region.specs.Dag.{MayRun, promised_total};
ghost use Rattle.spd_task.specs.Task.{task_view};

use crate::task::Task;
use spd_code::CodeTree;
use spd_data::Data;
use spd_machine::{Job, Regions};
use spd_region::run_within;
use spd_words::{FinishKind, Given};
use std::alloc::{AllocError, Global};

/// Runs each job as a dag of tasks on one thread, with one plain counter for each finish and no bound
/// of moves.
#[derive(Clone, Copy, Debug)]
pub struct PlainRegions;

impl Regions for PlainRegions {
    fn region<'a>(
        &mut self,
        alloc: Global,
        code: &'a CodeTree,
        columns: &'a Data,
        job: Job<'a>,
    ) -> Result<Given, AllocError> {
        let given = run_job(alloc, code, columns, job)?;
        Ok(given)
    }
}

/// What a job gives over a code and columns, by a dag whose first vertex runs its task.
fn run_job<'a>(
    alloc: Global,
    code: &'a CodeTree,
    columns: &'a Data,
    job: Job<'a>,
) -> Result<Given, AllocError>
    ensures { IfOk result (λ given.
        ended given ≡ job_total job.entry.kind (job_eval (context_of code.now columns.now) job.entry.body)) }
{
    let kind = job.kind;
    let task = Task::of_job(alloc, code, columns, job)?;
    let given = run_task(alloc, kind, task)?;
    Ok(given)
}

/// What a finish of this kind gives whose first vertex runs a task.
fn run_task<'a>(alloc: Global, kind: FinishKind, task: Task<'a>) -> Result<Given, AllocError>
    requires { MayRun kind (task_view task) }
    ensures { IfOk result (λ given. ended given ≡ settle (promised_total (task_view task.entry))) }
{
    let region = run_within(alloc, kind, task, u64::MAX)?;
    Ok(region.given)
}
