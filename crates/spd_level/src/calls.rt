// Calls: where they are met, where they begin to run, and where they come back.

ghost use Rattle.std.specs.Prelude.{◌≡◌, ◌+◌, ◌∷◌, [], List, ℤ, IfOk, length, map};
ghost use Rattle.spd_code.specs.declared.tree.CodeTree.{CodeTree};
ghost use Rattle.spd_meaning.specs.Acts.{Begin, Call};
ghost use Rattle.spd_meaning.specs.Eval.{before, counted, with_values, call_of, value_back};
ghost use Rattle.spd_meaning.specs.Values.{all_values};
ghost use Rattle.spd_code.specs.Coded.{Context, code_value, item_returned, around_of};
ghost use Rattle.spd_level.specs.Columns.{around_columns, context_of};
ghost use Rattle.spd_code.specs.Places.{bind_if, fitted};
ghost use Rattle.spd_level.specs.Left.{flow_end, called_in, level_left, level_eval};
ghost use Rattle.spd_level.specs.Turn.{AreCalled, FrameTurn, StatementTurn};
ghost use Rattle.spd_level.specs.declared.frame.Flow.TheVariants as flow;
ghost use Rattle.spd_level.specs.declared.frame.Frame.TheVariants as frame;
ghost use Rattle.spd_level.specs.declared.step.Step.TheVariants as step;

use crate::frame::{Flow, Frame};
use crate::level::Level;
use crate::step::{CallAt, Step};
use crate::value::values_of;
use spd_code::{CodeExprs, CodeItems};
use spd_data::Data;
use std::alloc::AllocError;
use std::mem;

impl<'a> Level<'a> {
    /// A call of a function, or a run of a task, with its arguments.
    pub(crate) fn call(
        &mut self,
        items: &'a CodeItems,
        callee: u32,
        args: &CodeExprs,
        binds: bool,
        columns: &Data,
        line: u32,
        left: u32,
    ) -> Result<Step<'a>, AllocError>
        requires { self.old.flow ≡ flow.Fell }
        ensures { (code : CodeTree) → AreCalled binds items.now code → IfOk result (λ step.
            StatementTurn (context_of code columns.now) self.old self.new step (counted (with_values
            (all_values (map (λ e. code_value (around_columns columns.now) e self.old.vars.items line) args.now))
            (λ vs. call_of (bind_if binds self.old.vars.items)
            (called_in (context_of code columns.now) left items.now callee vs line))))) }
    {
        match values_of(
            *self.vars.allocator(),
            args.as_slice(),
            columns,
            self.vars.as_slice(),
            line,
        )? {
            Ok(args) => {
                if left == 0 {
                    self.flow = Flow::Fault(line as u64 * 8 + 3);
                    return Ok(Step::Called);
                }
                if callee >= items.len() {
                    self.keep(binds, 0)?;
                    return Ok(Step::Called);
                }
                Ok(Step::Call(CallAt {
                    binds,
                    left: left - 1,
                    item: items.get(callee),
                    args,
                }))
            }
            Err(code) => {
                self.flow = Flow::Fault(code);
                Ok(Step::Quiet)
            }
        }
    }

    /// Runs a call that was met where it stands.
    pub fn go_in(&mut self, call: CallAt<'a>) -> Result<(), AllocError>
        requires { self.old.flow ≡ flow.Fell }
        ensures frames { IfOk result (λ _. length self.new.frames.items ≡ length self.old.frames.items + 2) }
        ensures left { (context : Context) → IfOk result (λ _.
            level_left context self.old (call_of (bind_if call.entry.binds self.old.vars.items)
            (item_returned (around_of context call.entry.left) call.entry.item.now call.entry.args.items))
            ≡ before (Begin Call ∷ []) (level_eval context self.new)) }
    {
        let CallAt {
            binds,
            left,
            item,
            args,
        } = call;
        let args = fit(args, item.params)?;
        let saved = mem::replace(&mut self.vars, args);
        self.frames.push(Frame::Call { saved, binds })?;
        self.frames.push(Frame::Block {
            block: &item.body,
            next: 0,
            floor: 0,
            left,
        })?;
        Ok(())
    }

    /// The end of a call.
    pub(crate) fn come_back(&mut self, saved: Vec<i64>, binds: bool) -> Result<(), AllocError>
        ensures { (context : Context) → IfOk result (λ _.
            FrameTurn context (frame.Call saved binds) self.old self.new step.Quiet) }
    {
        self.vars = saved;
        match came_back(&self.flow) {
            Ok(value) => {
                self.flow = Flow::Fell;
                self.keep(binds, value)?;
                Ok(())
            }
            Err(code) => {
                self.flow = Flow::Fault(code);
                Ok(())
            }
        }
    }

    /// A value behind a call or a finish is a new one, or isn't kept.
    pub(crate) fn keep(&mut self, binds: bool, value: i64) -> Result<(), AllocError>
        ensures flow { self.new.flow ≡ self.old.flow }
        ensures frames { self.new.frames ≡ self.old.frames }
        ensures vars { IfOk result (λ _. self.new.vars.items ≡ bind_if binds self.old.vars.items value) }
    {
        if binds {
            self.vars.push(value)?;
        }
        Ok(())
    }

    /// The end of a job that is a call.
    pub(crate) fn give(&mut self) -> Step<'a>
        ensures { (context : Context) → FrameTurn context frame.Gift self.old self.new result }
    {
        self.vars.truncate(0);
        match came_back(&self.flow) {
            Ok(value) => {
                self.flow = Flow::Fell;
                Step::Offer(value)
            }
            Err(code) => {
                self.flow = Flow::Fault(code);
                Step::Quiet
            }
        }
    }
}

/// What a call gives whose body ended so: 0 where it falls through.
fn came_back(flow: &Flow) -> Result<i64, u64>
    ensures { (vars : List ℤ) → value_back (flow_end flow.now vars) ≡ result }
{
    match flow {
        Flow::Fell => Ok(0),
        Flow::Back(value) => Ok(*value),
        Flow::Fault(code) => Err(*code),
    }
}

/// As many arguments as there are parameters, as those of a checked program are: the rest goes,
/// and one that is missing is 0.
pub(crate) fn fit(args: Vec<i64>, params: u32) -> Result<Vec<i64>, AllocError>
    ensures { IfOk result (λ fit. fit.items ≡ fitted params args.items) }
{
    let mut args = args;
    args.truncate(params as usize);
    for _place in args.len()..params as usize {
        args.push(0)?;
    }
    Ok(args)
}
