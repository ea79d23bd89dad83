// A level, its beginnings, and its turns.

ghost use Rattle.std.specs.Prelude.{◌≡◌, ℕ, ◌+◌, ◌∷◌, [], IfOk, length};
ghost use Rattle.spd_code.specs.Coded.{Context};
ghost use Rattle.spd_level.specs.Columns.{context_of};
ghost use Rattle.spd_level.specs.Left.{level_eval, item_job};
ghost use Rattle.spd_level.specs.Turn.{FrameTurn, WholeTurn};
ghost use Rattle.spd_level.specs.declared.frame.Flow.TheVariants as flow;
ghost use Rattle.spd_level.specs.declared.frame.Frame.TheVariants as frame;

use crate::calls::fit;
use crate::frame::{Flow, Frame};
use crate::step::Step;
use spd_code::{CodeBlock, CodeItem, CodeTree};
use spd_data::Data;
use std::alloc::AllocError;

/// The most single turns that one turn of a level takes before it is quiet.
const QUIET_TURNS: u32 = 1024;

/// Statements under way that offer to one finish.
#[derive(Drop)]
pub struct Level<'a> {
    pub flow: Flow,
    /// The values of the visible names.
    pub vars: Vec<i64>,
    /// The frames, the innermost last.
    pub frames: Vec<Frame<'a>>,
}

impl<'a> Level<'a> {
    /// A block over these values, in which so many more calls may be opened.
    pub fn of_block(
        block: &'a CodeBlock,
        left: u32,
        vars: Vec<i64>,
    ) -> Result<Level<'a>, AllocError>
        ensures flow { IfOk result (λ level. level.flow ≡ flow.Fell) }
        ensures vars { IfOk result (λ level. level.vars.items ≡ vars.items) }
        ensures frames { IfOk result (λ level. level.frames.items ≡ frame.Block block.entry 0 0 left ∷ []) }
    {
        let mut frames = Vec::new(*vars.allocator());
        frames.push(Frame::Block {
            block,
            next: 0,
            floor: 0,
            left,
        })?;
        Ok(Level {
            flow: Flow::Fell,
            vars,
            frames,
        })
    }

    /// A function over these arguments, in which so many more calls may be opened. What comes back
    /// is offered.
    pub fn of_call(item: &'a CodeItem, left: u32, args: Vec<i64>) -> Result<Level<'a>, AllocError>
        ensures frames { IfOk result (λ level. length level.frames.items ≡ 2) }
        ensures left { (context : Context) → IfOk result (λ level.
            level_eval context level ≡ item_job context left item.now args.items) }
    {
        let vars = fit(args, item.params)?;
        let mut frames = Vec::new(*vars.allocator());
        frames.push(Frame::Gift)?;
        frames.push(Frame::Block {
            block: &item.body,
            next: 0,
            floor: 0,
            left,
        })?;
        Ok(Level {
            flow: Flow::Fell,
            vars,
            frames,
        })
    }

    /// Goes on until something is met, or for 1,024 single turns in which nothing was. What was left
    /// of the level is what they give, and then what is left behind what was met.
    pub fn turn(&mut self, code: &'a CodeTree, columns: &Data) -> Result<Step<'a>, AllocError>
        ensures { IfOk result (λ step. WholeTurn (context_of code.now columns.now) self.old self.new step) }
    {
        for _ in 1..QUIET_TURNS {
            let step = self.single_turn(code, columns)?;
            match step {
                Step::Quiet => {}
                step => return Ok(step),
            }
        }
        let step = self.single_turn(code, columns)?;
        Ok(step)
    }

    /// A single turn: statements of a block, a turn of a loop with the first of its body's, or a frame
    /// that is taken off.
    fn single_turn(&mut self, code: &'a CodeTree, columns: &Data) -> Result<Step<'a>, AllocError>
        ensures { IfOk result (λ step. WholeTurn (context_of code.now columns.now) self.old self.new step) }
    {
        match self.frames.pop() {
            None => Ok(Step::Over),
            Some(
                Frame::Block {
                    block,
                    next,
                    floor,
                    left,
                },
            ) => match self.flow {
                Flow::Fell => {
                    let step = self.go_on(code, columns, block, next, floor, left)?;
                    Ok(step)
                }
                Flow::Back(_) => Ok(Step::Quiet),
                Flow::Fault(_) => Ok(Step::Quiet),
            },
            Some(
                Frame::For {
                    body,
                    at,
                    end,
                    left,
                },
            ) => match self.flow {
                Flow::Fell => {
                    let step = self.turn_of(code, columns, body, at, end, left)?;
                    Ok(step)
                }
                Flow::Back(_) => Ok(Step::Quiet),
                Flow::Fault(_) => Ok(Step::Quiet),
            },
            Some(Frame::Async { saved }) => Ok(self.leave(saved)),
            Some(Frame::Call { saved, binds }) => {
                self.come_back(saved, binds)?;
                Ok(Step::Quiet)
            }
            Some(Frame::Gift) => Ok(self.give()),
        }
    }

    /// The statements of a block from `next` on, up to the first that needs more than the values, or
    /// to its end.
    pub(crate) fn go_on(
        &mut self,
        code: &'a CodeTree,
        columns: &Data,
        block: &'a CodeBlock,
        next: u32,
        floor: usize,
        left: u32,
    ) -> Result<Step<'a>, AllocError>
        requires { self.old.flow ≡ flow.Fell }
        ensures { IfOk result (λ step.
            FrameTurn (context_of code.now columns.now) (frame.Block block.entry next floor left)
            self.old self.new step) }
    {
        for at in next..block.stmts.len() {
            let stmt = block.stmts.get(at);
            if !self.plain(columns, stmt)? {
                self.frames.push(Frame::Block {
                    block,
                    next: at + 1,
                    floor,
                    left,
                })?;
                let step = self.statement(code, columns, stmt, left)?;
                return Ok(step);
            }
            match self.flow {
                Flow::Fell => {}
                Flow::Back(_) => return Ok(Step::Quiet),
                Flow::Fault(_) => return Ok(Step::Quiet),
            }
        }
        self.vars.truncate(floor);
        Ok(Step::Quiet)
    }
}
