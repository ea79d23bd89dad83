// Jobs: finishes that are given as pieces of work of their own.

ghost use Rattle.std.specs.Prelude.{◌≡◌, ◌≤◌, IfOk, length};
ghost use Rattle.spd_code.specs.Coded.{Context};
ghost use Rattle.spd_meaning.specs.Eval.{for_finish};
ghost use Rattle.spd_level.specs.Left.{level_eval};
ghost use Rattle.spd_machine.specs.Elision.{job_eval};

use spd_code::{CodeBlock, CodeItem};
use spd_level::Level;
use spd_words::FinishKind;
use std::alloc::AllocError;

/// What a finish runs.
#[derive(Drop)]
pub enum JobBody<'a> {
    /// A block over the values of the names that are visible there.
    Block {
        block: &'a CodeBlock,
        /// How many more calls may be opened in it: 256 in main.
        left: u32,
        vars: Vec<i64>,
    },
    /// A function over these arguments. What comes back is offered.
    Call {
        item: &'a CodeItem,
        /// How many more calls may be opened inside: 255 where main calls.
        left: u32,
        args: Vec<i64>,
    },
}

/// A finish of this kind, and what it runs.
#[derive(Drop)]
pub struct Job<'a> {
    pub kind: FinishKind,
    pub body: JobBody<'a>,
}

/// The body of a job, as a level that begins.
pub fn level_of_job(body: JobBody<'_>) -> Result<Level<'_>, AllocError>
    ensures frames { IfOk result (λ level. length level.frames.items ≤ 2) }
    ensures left { (context : Context) → IfOk result (λ level.
        for_finish (level_eval context level) ≡ for_finish (job_eval context body.entry)) }
{
    match body {
        JobBody::Block { block, left, vars } => {
            let level = Level::of_block(block, left, vars)?;
            Ok(level)
        }
        JobBody::Call { item, left, args } => {
            let level = Level::of_call(item, left, args)?;
            Ok(level)
        }
    }
}
