// Main, turn by turn, up to its next job or its end.

ghost use Rattle.std.specs.Prelude.{◌≡◌, ◌≢◌, ℤ, List, IfOk, OnErr};
ghost use Rattle.spd_io.specs.Sink.{GetsFront, Failed, SinkKeepsFaults, SameFaults};
ghost use Rattle.spd_meaning.specs.Printed.{printed};
ghost use Rattle.spd_level.specs.Left.{flow_end};
ghost use Rattle.spd_spine.specs.Walk.{KeepsToMain, EndsSo, spine_context, spine_left, spine_size, MayGoOn, SpineStands, WalkStands, TurnsSo, WalksSo, EndTold};
ghost use Rattle.spd_spine.specs.declared.spine.Standing.TheVariants as standing;

use crate::spine::{Spine, Standing};
use crate::turn::{RunError, SpineTurn};
use spd_io::{Sink, write_all_of};
use spd_level::{CallAt, FinishAt, Flow, Step, copy_of};
use spd_machine::{Job, JobBody};
use spd_words::FinishKind;
use std::alloc::AllocError;

/// Goes on through main to its next finish or call, or to its end.
pub(crate) fn go_on<'a, O: Sink>(
    spine: &mut Spine<'a>,
    out: &mut O,
) -> Result<SpineTurn<'a>, RunError>
    requires main { KeepsToMain (spine_context spine.old) }
    requires standing { MayGoOn spine.old.standing }
    ensures context { spine_context spine.new ≡ spine_context spine.old }
    ensures turned { IfOk result (λ turn. TurnsSo spine.old spine.new (O.state out.old) (O.state out.new) turn) }
    ensures standing { IfOk result (λ turn. SpineStands turn spine.new.standing) }
    ensures front { OnErr result (GetsFront (O.state out.old) (O.state out.new)
        (printed (spine_left spine.old).given)) }
    ensures cause { result ≡ Err RunError.WriteFailed → Failed (O.state out.old) (O.state out.new) }
    ensures kept { result ≢ Err RunError.WriteFailed → SameFaults (O.state out.old) (O.state out.new) }
{
    resume(spine)?;
    loop {
        match walk(spine, out)? {
            None => {}
            Some(turn) => return Ok(turn),
        }
    }
}

/// Goes on behind the job that has ended, if one has.
fn resume(spine: &mut Spine<'_>) -> Result<(), AllocError>
    requires { MayGoOn spine.old.standing }
    ensures context { spine_context spine.new ≡ spine_context spine.old }
    ensures standing { IfOk result (λ _. spine.new.standing ≡ standing.Runs) }
    ensures left { IfOk result (λ _. spine_left spine.new ≡ spine_left spine.old) }
    ensures size { IfOk result (λ _. spine_size spine.new ≡ spine_size spine.old) }
{
    if let Standing::Given { line, binds, given } = spine.standing {
        spine.level.settle(line, binds, given)?;
    }
    spine.standing = Standing::Runs;
    Ok(())
}

/// One turn of main.
fn walk<'a, O: Sink>(spine: &mut Spine<'a>, out: &mut O) -> Result<Option<SpineTurn<'a>>, RunError>
    requires main { KeepsToMain (spine_context spine.old) }
    requires standing { spine.old.standing ≡ standing.Runs }
    ensures context { spine_context spine.new ≡ spine_context spine.old }
    ensures turned { IfOk result (λ turn. WalksSo spine.old spine.new (O.state out.old) (O.state out.new) turn) }
    ensures standing { IfOk result (λ turn. WalkStands turn spine.new.standing) }
    ensures front { OnErr result (GetsFront (O.state out.old) (O.state out.new)
        (printed (spine_left spine.old).given)) }
    ensures cause { result ≡ Err RunError.WriteFailed → Failed (O.state out.old) (O.state out.new) }
    ensures counts { SinkKeepsFaults (O.state out.old) (O.state out.new) }
    ensures kept { result ≢ Err RunError.WriteFailed → SameFaults (O.state out.old) (O.state out.new) }
{
    match spine.level.turn(spine.code, spine.columns)? {
        Step::Quiet => Ok(None),
        Step::Line(text) => {
            let mut line = text;
            line.push(b'\n')?;
            write_all_of(out, &line)?;
            Ok(None)
        }
        Step::Finish(finish) => {
            let FinishAt {
                kind,
                binds,
                line,
                left,
                body: block,
            } = finish;
            let vars = copy_of(&spine.level.vars)?;
            spine.standing = Standing::Waits { line, binds };
            let body = JobBody::Block { block, left, vars };
            Ok(Some(SpineTurn::Region(Job { kind, body })))
        }
        Step::Call(call) => {
            let CallAt {
                binds,
                left,
                item,
                args,
            } = call;
            // Main runs no task, so what it calls gives a value.
            if !binds {
                return Err(RunError::NoMemory);
            }
            spine.standing = Standing::Waits { line: 0, binds };
            let kind = FinishKind::Sum;
            let body = JobBody::Call { item, left, args };
            Ok(Some(SpineTurn::Region(Job { kind, body })))
        }
        // In main each function that is called is there and not too deep, and no offer and no async
        // stands outside a finish.
        Step::Called => Err(RunError::NoMemory),
        Step::Offer(_) => Err(RunError::NoMemory),
        Step::Fault(_) => Err(RunError::NoMemory),
        Step::Async { .. } => Err(RunError::NoMemory),
        Step::Over => {
            spine.standing = Standing::Ended;
            Ok(Some(end_of_main(&spine.level.flow)))
        }
    }
}

/// How main ended whose statements ended so.
fn end_of_main<'a>(flow: &Flow) -> SpineTurn<'a>
    ensures told { (vars : List ℤ) → EndTold result (flow_end flow.now vars) }
    ensures standing { SpineStands result standing.Ended }
{
    match flow {
        Flow::Fault(code) => SpineTurn::Fault(*code),
        Flow::Back(_) => SpineTurn::Done,
        Flow::Fell => SpineTurn::Done,
    }
}
