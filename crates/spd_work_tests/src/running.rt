// A region of a scripted body over a flat field, on so many workers.

ghost use Rattle.std.specs.Prelude.{◌≡◌, ◌*◌, ◌<◌, ◌≤◌};
ghost use Rattle.spd_words.specs.BodyCalls.{IsReady};
ghost use Rattle.spd_words.specs.Meaning.{IsTame};
ghost use Rattle.spd_words.specs.Plan.{MayHaveMoves};
ghost use Rattle.spd_words.specs.declared.scheme.Scheme.TheVariants.{Flat};

use spd_boxed::BoxedBody;
use spd_grow::Heads;
use spd_rule::Field;
use spd_script::{Script, steps_of};
use spd_words::{Body, FinishKind, Plan, Scheme};
use spd_work::{Gate, RegionEnd, region};
use std::alloc::{AllocError, Global};
use std::sync::Wait;
use std::thread::Threads;

/// What is run: a body that does the steps of a text, for a finish of this kind.
#[derive(Clone, Copy)]
pub struct Case<'t> {
    pub kind: FinishKind,
    pub text: &'t str,
}

fn flat_plan(moves: u32) -> Plan
    requires { MayHaveMoves moves }
    ensures { result.scheme ≡ Flat }
{
    let Ok(plan) = Plan::new(Scheme::Flat, moves, 0) else {
        unreachable!()
    };
    plan
}

/// Runs a body in a region with so many moves.
pub fn run_body<R: Threads + Wait + Sync, B: Body, G: Gate>(
    rt: &R,
    alloc: Global,
    kind: FinishKind,
    body: B,
    moves: u32,
    workers: u32,
    gate: &G,
) -> Result<RegionEnd<B>, AllocError>
    requires moves { MayHaveMoves moves }
    requires workers { (0 < workers) × (workers ≤ 64) }
    requires ready { IsReady kind (B.view body) }
    requires tame { IsTame (B.view body).means }
{
    let mut coins = Vec::new(alloc);
    for _ in 0..workers {
        coins.push(Heads::new())?;
    }
    let (field, share) = Field::new(alloc, flat_plan(moves))?;
    let coins = coins.as_mut_slice();
    let end = region(rt, alloc, field, share, kind, body, workers, coins, gate)?;
    Ok(end)
}

/// Runs the case in a region with so many moves.
pub fn run<R: Threads + Wait + Sync, G: Gate>(
    rt: &R,
    alloc: Global,
    case: Case<'_>,
    moves: u32,
    workers: u32,
    gate: &G,
) -> Result<RegionEnd<Script>, AllocError>
    requires moves { MayHaveMoves moves }
    requires workers { (0 < workers) × (workers ≤ 64) }
{
    let body = Script::new(case.kind, steps_of(alloc, case.text.as_bytes())?);
    let end = run_body(rt, alloc, case.kind, body, moves, workers, gate)?;
    Ok(end)
}

/// The same, where each body lies behind a pointer.
pub fn run_boxed<R: Threads + Wait + Sync, G: Gate>(
    rt: &R,
    alloc: Global,
    case: Case<'_>,
    moves: u32,
    workers: u32,
    gate: &G,
) -> Result<RegionEnd<BoxedBody<Script>>, AllocError>
    requires moves { MayHaveMoves moves }
    requires workers { (0 < workers) × (workers ≤ 64) }
{
    let script = Script::new(case.kind, steps_of(alloc, case.text.as_bytes())?);
    let body = BoxedBody::new(alloc, script)?;
    let end = run_body(rt, alloc, case.kind, body, moves, workers, gate)?;
    Ok(end)
}
