// Blocks, loops and asyncs that begin and end where they stand, and what goes on behind a finish.

ghost use Rattle.std.specs.Prelude.{◌≡◌, ◌+◌, ◌≤◌, ◌∷◌, [], IfOk, length};
ghost use Rattle.spd_code.specs.declared.tree.CodeTree.{CodeTree};
ghost use Rattle.spd_words.specs.Total.{ended};
ghost use Rattle.spd_meaning.specs.Acts.{Begin, Async};
ghost use Rattle.spd_meaning.specs.Eval.{quiet, before, with_value, cut, async_of, finish_end};
ghost use Rattle.spd_meaning.specs.Meaning.{chosen};
ghost use Rattle.spd_code.specs.Coded.{Context, code_value, around_of, eval_block};
ghost use Rattle.spd_level.specs.Columns.{around_columns, context_of};
ghost use Rattle.spd_code.specs.Places.{bind_if};
ghost use Rattle.spd_level.specs.Left.{level_now, level_left, level_eval, loop_rest};
ghost use Rattle.spd_level.specs.Turn.{FrameTurn, GoesInto};
ghost use Rattle.spd_level.specs.declared.frame.Flow.TheVariants as flow;
ghost use Rattle.spd_level.specs.declared.frame.Frame.TheVariants as frame;
ghost use Rattle.spd_level.specs.declared.step.Step.TheVariants as step;

use crate::frame::{Flow, Frame};
use crate::level::Level;
use crate::step::Step;
use crate::value::value_of;
use spd_code::{CodeBlock, CodeExpr, CodeTree};
use spd_data::Data;
use spd_words::{Given, NO_FAULT};
use std::alloc::AllocError;
use std::mem;

impl<'a> Level<'a> {
    /// Goes into the first block where the condition isn't 0, else into the second.
    pub(crate) fn choose(
        &mut self,
        cond: &CodeExpr,
        first: &'a CodeBlock,
        second: &'a CodeBlock,
        columns: &Data,
        line: u32,
        left: u32,
    ) -> Result<(), AllocError>
        requires { self.old.flow ≡ flow.Fell }
        ensures frames { IfOk result (λ _. length self.new.frames.items ≤ length self.old.frames.items + 1) }
        ensures comes { (code : CodeTree) → IfOk result (λ _. GoesInto (context_of code columns.now) self.old self.new
            (with_value (code_value (around_columns columns.now) cond.now self.old.vars.items line)
            (λ v. cut (length self.old.vars.items)
            (chosen v (eval_block (around_of (context_of code columns.now) left) first.now)
            (eval_block (around_of (context_of code columns.now) left) second.now) self.old.vars.items)))) }
    {
        match value_of(cond, columns, self.vars.as_slice(), line) {
            Ok(0) => self.enter(second, left),
            Ok(_) => self.enter(first, left),
            Err(code) => {
                self.flow = Flow::Fault(code);
                Ok(())
            }
        }
    }

    /// Goes into a block of the same call.
    fn enter(&mut self, block: &'a CodeBlock, left: u32) -> Result<(), AllocError>
        requires { self.old.flow ≡ flow.Fell }
        ensures frames { IfOk result (λ _. length self.new.frames.items ≤ length self.old.frames.items + 1) }
        ensures comes { (context : Context) → IfOk result (λ _. GoesInto context self.old self.new
            (cut (length self.old.vars.items)
            (eval_block (around_of context left) block.now self.old.vars.items))) }
    {
        let floor = self.vars.len();
        self.frames.push(Frame::Block {
            block,
            next: 0,
            floor,
            left,
        })?;
        Ok(())
    }

    /// Goes into a loop: both bounds are evaluated once, before its first turn.
    pub(crate) fn begin_for(
        &mut self,
        from: &CodeExpr,
        to: &CodeExpr,
        body: &'a CodeBlock,
        columns: &Data,
        line: u32,
        left: u32,
    ) -> Result<(), AllocError>
        requires { self.old.flow ≡ flow.Fell }
        ensures frames { IfOk result (λ _. length self.new.frames.items ≤ length self.old.frames.items + 1) }
        ensures comes { (code : CodeTree) → IfOk result (λ _. GoesInto (context_of code columns.now) self.old self.new
            (with_value (code_value (around_columns columns.now) from.now self.old.vars.items line)
            (λ a. with_value (code_value (around_columns columns.now) to.now self.old.vars.items line)
            (λ b. loop_rest (context_of code columns.now) left body.now a b self.old.vars.items)))) }
    {
        match value_of(from, columns, self.vars.as_slice(), line) {
            Ok(at) => match value_of(to, columns, self.vars.as_slice(), line) {
                Ok(end) => {
                    self.frames.push(Frame::For {
                        body,
                        at,
                        end,
                        left,
                    })?;
                    Ok(())
                }
                Err(code) => {
                    self.flow = Flow::Fault(code);
                    Ok(())
                }
            },
            Err(code) => {
                self.flow = Flow::Fault(code);
                Ok(())
            }
        }
    }

    /// The next turn of a loop, as far as its body goes on by itself, or its end.
    pub(crate) fn turn_of(
        &mut self,
        code: &'a CodeTree,
        columns: &Data,
        body: &'a CodeBlock,
        at: i64,
        end: i64,
        left: u32,
    ) -> Result<Step<'a>, AllocError>
        requires { self.old.flow ≡ flow.Fell }
        ensures { IfOk result (λ step.
            FrameTurn (context_of code.now columns.now) (frame.For body.entry at end left) self.old self.new step) }
    {
        if at >= end {
            return Ok(Step::Quiet);
        }
        let floor = self.vars.len();
        self.frames.push(Frame::For {
            body,
            at: at + 1,
            end,
            left,
        })?;
        self.vars.push(at)?;
        let step = self.go_on(code, columns, body, 0, floor, left)?;
        Ok(step)
    }

    /// Runs an async that was met where it stands, over a copy of the values.
    pub fn hold(&mut self, body: &'a CodeBlock, left: u32) -> Result<(), AllocError>
        requires { self.old.flow ≡ flow.Fell }
        ensures frames { IfOk result (λ _. length self.new.frames.items ≡ length self.old.frames.items + 2) }
        ensures left { (context : Context) → IfOk result (λ _.
            level_left context self.old (async_of self.old.vars.items
            (eval_block (around_of context left) body.now self.old.vars.items))
            ≡ before (Begin Async ∷ []) (level_eval context self.new)) }
    {
        let vars = copy_of(&self.vars)?;
        let saved = mem::replace(&mut self.vars, vars);
        self.frames.push(Frame::Async { saved })?;
        self.frames.push(Frame::Block {
            block: body,
            next: 0,
            floor: 0,
            left,
        })?;
        Ok(())
    }

    /// The end of an async that ran inside.
    pub(crate) fn leave(&mut self, saved: Vec<i64>) -> Step<'a>
        ensures { (context : Context) → FrameTurn context (frame.Async saved) self.old self.new result }
    {
        self.vars = saved;
        match mem::replace(&mut self.flow, Flow::Fell) {
            Flow::Fault(code) => Step::Fault(code),
            Flow::Back(_) => Step::Quiet,
            Flow::Fell => Step::Quiet,
        }
    }

    /// Goes on behind a finish at this line that gave this. The gift may be bound to a new name.
    pub fn settle(&mut self, line: u32, binds: bool, given: Given) -> Result<(), AllocError>
        ensures frames { self.new.frames ≡ self.old.frames }
        ensures now { IfOk result (λ _.
            level_now self.new ≡ quiet (finish_end line (bind_if binds self.old.vars.items) (ended given))) }
    {
        if given.fault != NO_FAULT {
            self.flow = Flow::Fault(given.fault);
            return Ok(());
        }
        self.flow = Flow::Fell;
        self.keep(binds, given.gift)?;
        Ok(())
    }
}

/// The same values.
pub fn copy_of(vars: &Vec<i64>) -> Result<Vec<i64>, AllocError>
    ensures { IfOk result (λ copy. copy.items ≡ vars.now.items) }
{
    Vec::from_slice(*vars.allocator(), vars.as_slice())
}
