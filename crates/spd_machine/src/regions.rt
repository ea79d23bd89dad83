// What runs jobs.

ghost use Rattle.std.specs.Prelude.{◌≡◌, IfOk};
ghost use Rattle.spd_words.specs.Total.{ended};
ghost use Rattle.spd_level.specs.Columns.{context_of};
ghost use Rattle.spd_meaning.specs.Eval.{job_total};
ghost use Rattle.spd_machine.specs.Elision.{job_eval};

use crate::elide::elide_body;
use crate::job::Job;
use spd_code::CodeTree;
use spd_data::Data;
use spd_words::Given;
use std::alloc::{AllocError, Global};

/// What runs jobs.
pub trait Regions {
    /// Runs a job of a code over columns to its end: the gift of its offers, and the least code of its faults or
    /// `NO_FAULT`. It fails where memory runs out.
    fn region<'a>(
        &mut self,
        alloc: Global,
        code: &'a CodeTree,
        columns: &'a Data,
        job: Job<'a>,
    ) -> Result<Given, AllocError>
        ensures given { IfOk result (λ given.
            ended given ≡ job_total job.entry.kind (job_eval (context_of code.now columns.now) job.entry.body)) };
}

/// Runs each job by its serial elision.
#[derive(Clone, Copy, Debug)]
pub struct ElideRegions;

impl Regions for ElideRegions {
    fn region<'a>(
        &mut self,
        alloc: Global,
        code: &'a CodeTree,
        columns: &'a Data,
        job: Job<'a>,
    ) -> Result<Given, AllocError> {
        let given = elide_body(alloc, code, columns, job)?;
        Ok(given)
    }
}
