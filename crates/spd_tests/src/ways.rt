// All ways to run a finish: each gives the same, in as many moves as its bound leaves it.

ghost use Rattle.std.specs.Prelude.{◌<◌};
ghost use Rattle.spd_region.specs.Dag.{MayRun};
ghost use Rattle.spd_task.specs.Task.{task_view};

use crate::jobs::first_job;
use spd_check::Code;
use spd_data::Data;
use spd_machine::{ElideRegions, Regions, elide_body};
use spd_region::{Region, run_within};
use spd_task::{PlainRegions, Task};
use spd_task_tests::{Met, events_of, region_of};
use spd_words::{FinishKind, Given, NO_FAULT};
use std::alloc::{AllocError, Global};
use std::process::Abort;

/// What a region has without a fault.
pub(crate) fn faultless(gift: i64, moves: u64) -> Region {
    let fault = NO_FAULT;
    let given = Given { gift, fault };
    Region { given, moves }
}

/// Asserts what the first finish of main has by the ways that know no bound of moves.
pub(crate) fn expect_unbounded(
    rt: &(impl Abort + AllocGlobal),
    code: &Code,
    has: Region,
    row: &str,
) -> Result<(), AllocError> {
    let columns = Data::new(rt.alloc());
    expect_unbounded_over(rt, code, &columns, has, row)
}

/// The same over columns.
pub(crate) fn expect_unbounded_over(
    rt: &(impl Abort + AllocGlobal),
    code: &Code,
    columns: &Data,
    has: Region,
    row: &str,
) -> Result<(), AllocError> {
    let alloc = rt.alloc();
    let given = elide_body(alloc, code.tree(), columns, first_job(rt, code))?;
    assert_eq!(rt; given, has.given, "elided: {row}");
    let given = ElideRegions.region(alloc, code.tree(), columns, first_job(rt, code))?;
    assert_eq!(rt; given, has.given, "a region of the elision: {row}");
    let given = PlainRegions.region(alloc, code.tree(), columns, first_job(rt, code))?;
    assert_eq!(rt; given, has.given, "a region of vertices: {row}");
    let job = first_job(rt, code);
    let kind = job.kind;
    let events = events_of(alloc, Task::of_job(alloc, code.tree(), columns, job)?)?;
    assert_eq!(rt;
        events.as_slice().last(),
        Some(&Met::Over),
        "one task: {row}"
    );
    assert_eq!(rt; region_of(kind, events.as_slice()), has, "one task: {row}");
    Ok(())
}

/// What a finish of this kind has whose first vertex runs a task, where so many moves may be drawn.
fn region_within<'a>(
    alloc: Global,
    kind: FinishKind,
    task: Task<'a>,
    bound: u64,
) -> Result<Region, AllocError>
    requires task { MayRun kind (task_view task) }
    requires bound { 0 < bound }
{
    let region = run_within(alloc, kind, task, bound)?;
    Ok(region)
}

/// Asserts what the first finish of main has where so many moves may be drawn.
pub(crate) fn expect_within(
    rt: &(impl Abort + AllocGlobal),
    code: &Code,
    has: Region,
    bound: u64,
    row: &str,
) -> Result<(), AllocError>
    requires { 0 < bound }
{
    let job = first_job(rt, code);
    let kind = job.kind;
    let columns = Data::new(rt.alloc());
    let task = Task::of_job(rt.alloc(), code.tree(), &columns, job)?;
    let found = region_within(rt.alloc(), kind, task, bound)?;
    let moves = has.moves.min(bound);
    let given = has.given;
    assert_eq!(rt; found, Region { given, moves }, "within {bound}: {row}");
    Ok(())
}
