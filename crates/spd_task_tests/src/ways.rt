// All ways to run a job: each gives the same, in as many moves as its bound leaves it.

ghost use Rattle.std.specs.Prelude.{◌<◌};
ghost use Rattle.spd_region.specs.Dag.{MayRun};
ghost use Rattle.spd_task.specs.Task.{task_view};

use crate::events::Met::{self, Async, Fault, Finish, Offer, Over};
use crate::events::{events_of, region_of};
use crate::jobs::{
    Runs, async_through_tasks, call_in_finish, deep_asyncs, depth, depth_of_finishes, empty_main,
    fault_in_finish_in_async, finish_in_function_in_async, job_of, loop_of_asyncs,
    return_from_loop, three_faults, three_offers,
};
use spd_code::CodeTree;
use spd_data::Data;
use spd_machine::{ElideRegions, Regions, elide_body};
use spd_region::{Region, run_within};
use spd_task::{PlainRegions, Task};
use spd_words::{FinishKind, Given, NO_FAULT};
use std::alloc::{AllocError, Global};
use std::process::Abort;
use std::test::Fail;

/// What a region has.
fn region(gift: i64, fault: u64, moves: u64) -> Region {
    let given = Given { gift, fault };
    Region { given, moves }
}

/// Asserts what a job has by the ways that know no bound of moves.
fn expect_unbounded(
    rt: &(impl Abort + AllocGlobal),
    code: &CodeTree,
    runs: Runs,
    has: Region,
) -> Result<(), AllocError> {
    let alloc = rt.alloc();
    let columns = Data::new(alloc);
    let given = elide_body(alloc, code, &columns, job_of(rt, code, runs)?)?;
    assert_eq!(rt; given, has.given, "elided: {runs:?}");
    let given = ElideRegions.region(alloc, code, &columns, job_of(rt, code, runs)?)?;
    assert_eq!(rt; given, has.given, "a region of the elision: {runs:?}");
    let given = PlainRegions.region(alloc, code, &columns, job_of(rt, code, runs)?)?;
    assert_eq!(rt; given, has.given, "a region of vertices: {runs:?}");
    Ok(())
}

/// What a finish of this kind has whose first vertex runs a task, where so many moves may be drawn.
fn region_within<'a>(
    alloc: Global,
    kind: FinishKind,
    task: Task<'a>,
    bound: u64,
) -> Result<Region, AllocError>
    requires task { MayRun kind (task_view task) }
    requires bound { 0 < bound }
{
    let region = run_within(alloc, kind, task, bound)?;
    Ok(region)
}

/// Asserts what a job has where so many moves may be drawn.
fn expect_within(
    rt: &(impl Abort + AllocGlobal),
    code: &CodeTree,
    runs: Runs,
    has: Region,
    bound: u64,
) -> Result<(), AllocError>
    requires { 0 < bound }
{
    let job = job_of(rt, code, runs)?;
    let kind = job.kind;
    let columns = Data::new(rt.alloc());
    let task = Task::of_job(rt.alloc(), code, &columns, job)?;
    let found = region_within(rt.alloc(), kind, task, bound)?;
    let moves = has.moves.min(bound);
    let given = has.given;
    assert_eq!(rt; found, Region { given, moves }, "within {bound}: {runs:?}");
    Ok(())
}

/// Asserts what a job has by all ways, with bounds from 1 to 9 and without one.
fn expect_ways(
    rt: &(impl Abort + AllocGlobal),
    code: &CodeTree,
    runs: Runs,
    has: Region,
) -> Result<(), AllocError> {
    expect_unbounded(rt, code, runs, has)?;
    for bound in 1..10 {
        expect_within(rt, code, runs, has, bound)?;
    }
    expect_within(rt, code, runs, has, u64::MAX)?;
    let job = job_of(rt, code, runs)?;
    let kind = job.kind;
    let columns = Data::new(rt.alloc());
    let events = events_of(rt.alloc(), Task::of_job(rt.alloc(), code, &columns, job)?)?;
    assert_eq!(rt;
        region_of(kind, events.as_slice()),
        has,
        "one task: {runs:?}"
    );
    Ok(())
}

/// Asserts the events of a job of main's block, and what it has by all ways.
fn expect_main(
    rt: &(impl Abort + AllocGlobal),
    code: &CodeTree,
    kind: FinishKind,
    has: Region,
    events: &[Met],
) -> Result<(), AllocError> {
    let runs = Runs::Main(kind);
    let columns = Data::new(rt.alloc());
    let task = Task::of_job(rt.alloc(), code, &columns, job_of(rt, code, runs)?)?;
    let found = events_of(rt.alloc(), task)?;
    assert_eq!(rt; found.as_slice(), events);
    expect_ways(rt, code, runs, has)?;
    Ok(())
}

#[test]
fn nothing_is_offered_by_each_kind(rt: HostRuntime) -> Result<(), Fail> {
    let code = empty_main(rt.alloc())?;
    let table: [(FinishKind, i64); 4] = [
        (FinishKind::Plain, 0),
        (FinishKind::Sum, 0),
        (FinishKind::Least, i64::MAX),
        (FinishKind::Greatest, i64::MIN),
    ];
    for (kind, gift) in table {
        expect_main(&rt, &code, kind, region(gift, NO_FAULT, 1), &[Over])?;
    }
    Ok(())
}

#[test]
fn asyncs_come_in_the_order_of_the_text(rt: HostRuntime) -> Result<(), Fail> {
    let alloc = rt.alloc();
    let has = region(3, NO_FAULT, 4);
    let events = [Async, Offer(0), Async, Offer(1), Async, Offer(2), Over];
    expect_main(&rt, &loop_of_asyncs(alloc)?, FinishKind::Sum, has, &events)?;
    let has = region(-2, NO_FAULT, 3);
    let events = [Async, Offer(4), Async, Offer(-2), Offer(3), Over];
    expect_main(&rt, &three_offers(alloc)?, FinishKind::Least, has, &events)?;
    let has = region(18, NO_FAULT, 2);
    let events = [Async, Offer(5), Offer(6), Offer(7), Over];
    expect_main(
        &rt,
        &async_through_tasks(alloc)?,
        FinishKind::Sum,
        has,
        &events,
    )?;
    Ok(())
}

#[test]
fn the_least_code_counts(rt: HostRuntime) -> Result<(), Fail> {
    let alloc = rt.alloc();
    // Divisions by zero at the lines 7, 5 and 9; what stands behind the last isn't reached.
    let events = [
        Async,
        Fault(57),
        Async,
        Fault(41),
        Offer(2),
        Fault(73),
        Over,
    ];
    let has = region(2, 41, 3);
    expect_main(&rt, &three_faults(alloc)?, FinishKind::Sum, has, &events)?;
    // A fault in a finish ends the async around it and nothing else.
    let events = [
        Async,
        Finish(FinishKind::Plain),
        Async,
        Fault(41),
        Offer(1),
        Over,
    ];
    let code = fault_in_finish_in_async(alloc)?;
    expect_main(&rt, &code, FinishKind::Sum, region(1, 41, 4), &events)?;
    Ok(())
}

#[test]
fn finishes_of_functions_are_moves(rt: HostRuntime) -> Result<(), Fail> {
    let alloc = rt.alloc();
    let sum = Finish(FinishKind::Sum);
    let events = [
        Async,
        sum,
        Async,
        Async,
        Async,
        Async,
        Offer(7),
        Offer(10),
        Over,
    ];
    let code = finish_in_function_in_async(alloc)?;
    expect_main(
        &rt,
        &code,
        FinishKind::Sum,
        region(17, NO_FAULT, 7),
        &events,
    )?;
    let events = [sum, sum, Async, Async, Offer(2), Over];
    let code = call_in_finish(alloc)?;
    expect_main(&rt, &code, FinishKind::Sum, region(2, NO_FAULT, 5), &events)?;
    Ok(())
}

#[test]
fn functions_give_what_comes_back(rt: HostRuntime) -> Result<(), Fail> {
    let code = return_from_loop(rt.alloc())?;
    expect_ways(&rt, &code, Runs::Function(10), region(6, NO_FAULT, 1))?;
    expect_ways(&rt, &code, Runs::Function(2), region(-1, NO_FAULT, 1))?;
    Ok(())
}

#[test]
fn calls_are_256_deep(rt: HostRuntime) -> Result<(), Fail> {
    let alloc = rt.alloc();
    let code = depth(alloc)?;
    expect_ways(&rt, &code, Runs::Function(255), region(255, NO_FAULT, 1))?;
    // Too deep at line 2.
    expect_ways(&rt, &code, Runs::Function(256), region(0, 19, 1))?;
    // The depth of a finish and of an async is that of its place, as a vertex and inside.
    let code = depth_of_finishes(alloc)?;
    expect_ways(&rt, &code, Runs::Function(255), region(255, NO_FAULT, 256))?;
    expect_ways(&rt, &code, Runs::Function(256), region(0, 19, 257))?;
    let main = Runs::Main(FinishKind::Sum);
    expect_ways(
        &rt,
        &deep_asyncs(alloc, 255)?,
        main,
        region(1, NO_FAULT, 257),
    )?;
    expect_ways(&rt, &deep_asyncs(alloc, 256)?, main, region(0, 19, 257))?;
    Ok(())
}
