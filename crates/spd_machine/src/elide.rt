// The serial elision: every async and every finish runs where it stands, in the order of the text.

ghost use Rattle.std.specs.Prelude.{◌≡◌, List, IfOk};
ghost use Rattle.spd_words.specs.Total.{ended};
ghost use Rattle.spd_level.specs.Columns.{columns_in, context_of};
ghost use Rattle.spd_meaning.specs.Eval.{job_total};
ghost use Rattle.spd_level.specs.Left.{level_eval};
ghost use Rattle.spd_syntax.specs.declared.tree.Item.{Item};
ghost use Rattle.spd_machine.specs.SourceJobs.{IsCheckedProgram, SourceJob, IsSourceJob, source_result};
ghost use Rattle.spd_machine.specs.Elision.{job_eval, ElisionTurn};

use crate::job::{Job, level_of_job};
use crate::machine::{Machine, Met, with_end};
use spd_code::CodeTree;
use spd_data::Data;
use spd_level::Level;
use spd_words::{FinishKind, Given, Tally};
use std::alloc::{AllocError, Global};

/// What a job gives where every async and finish runs where it stands: the gift of its offers, and
/// the least code of its faults or `NO_FAULT`. It fails where memory runs out.
///
/// For the code of a checked program, over columns that fit it, that is what the program means by its
/// own names, of a block with a value for each name that is visible there, and of a function.
pub fn elide_body<'a>(
    alloc: Global,
    code: &'a CodeTree,
    columns: &Data,
    job: Job<'a>,
) -> Result<Given, AllocError>
    ensures placed { IfOk result (λ given.
        ended given ≡ job_total job.entry.kind (job_eval (context_of code.now columns.now) job.entry.body)) }
    ensures named { IfOk result (λ given. (items : List Item) (source : SourceJob) →
        IsCheckedProgram items code.now columns.now →
        IsSourceJob items code.now job.entry.kind job.entry.body source →
        ended given ≡ source_result items (columns_in items columns.now) job.entry.kind job.entry.body source) }
{
    let Job { kind, body } = job;
    let level = level_of_job(body)?;
    let given = elide_level(alloc, code, columns, kind, level)?;
    Ok(given)
}

/// What a finish of this kind has at its end whose body this level runs.
fn elide_level<'a>(
    alloc: Global,
    code: &'a CodeTree,
    columns: &Data,
    kind: FinishKind,
    level: Level<'a>,
) -> Result<Given, AllocError>
    ensures { IfOk result (λ given.
        ended given ≡ job_total kind (level_eval (context_of code.now columns.now) level.entry)) }
{
    let mut machine = Machine {
        level,
        inside: Vec::new(alloc),
    };
    let mut tally = Tally::new(kind);
    loop {
        let over = play(code, columns, &mut machine, &mut tally)?;
        if over {
            return Ok(with_end(tally, &machine.level.flow).given());
        }
    }
}

/// One turn, with every async and finish run inside. It says whether that was the end.
fn play<'a>(
    code: &'a CodeTree,
    columns: &Data,
    machine: &mut Machine<'a>,
    tally: &mut Tally,
) -> Result<bool, AllocError>
    ensures { IfOk result (λ over.
        ElisionTurn (context_of code.now columns.now) tally.old tally.new machine.old machine.new over) }
{
    match machine.turn(code, columns)? {
        Met::Quiet => Ok(false),
        Met::Held => Ok(false),
        Met::Offer(x) => {
            tally.offer(x);
            Ok(false)
        }
        Met::Fault(code) => {
            tally.fault(code);
            Ok(false)
        }
        Met::Async { body, left } => {
            machine.level.hold(body, left)?;
            Ok(false)
        }
        Met::Finish(finish) => {
            machine.open(finish)?;
            Ok(false)
        }
        Met::Over => Ok(true),
    }
}
