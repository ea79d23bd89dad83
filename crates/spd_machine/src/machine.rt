// A machine: its turns, and the finishes that begin and end inside it.

ghost use Rattle.std.specs.Prelude.{◌≡◌, ◌≢◌, ℕ, ◌+◌, ◌∷◌, [], List, ℤ, length, IfOk};
ghost use Rattle.std.specs.Borrow.{Bor};
ghost use Rattle.spd_words.specs.Total.{settle, total_of, nothing};
ghost use Rattle.spd_code.specs.declared.stmt.CodeBlock.{CodeBlock};
ghost use Rattle.spd_meaning.specs.Acts.{Begin, Finish};
ghost use Rattle.spd_meaning.specs.Eval.{quiet, before, finish_of, finish_left, finish_end, collected, end_codes};
ghost use Rattle.spd_code.specs.Coded.{Context, around_of, eval_block};
ghost use Rattle.spd_level.specs.Columns.{context_of};
ghost use Rattle.spd_code.specs.Places.{bind_if};
ghost use Rattle.spd_level.specs.Left.{level_now, flow_end};
ghost use Rattle.spd_machine.specs.Machine.{machine_left, machine_eval, machine_frames, MachineGoes};
ghost use Rattle.spd_level.specs.declared.frame.Flow.TheVariants as flow;
ghost use Rattle.spd_level.specs.declared.frame.Frame.TheVariants as frame;
ghost use Rattle.spd_machine.specs.declared.machine.Met.TheVariants as meets;

use spd_code::{CodeBlock, CodeTree};
use spd_data::Data;
use spd_level::{FinishAt, Flow, Level, Step, copy_of};
use spd_words::{FinishKind, Tally};
use std::alloc::AllocError;
use std::mem;

/// A finish that runs inside, with what it has collected, and what goes on behind it.
#[derive(Drop)]
pub struct Inside<'a> {
    pub tally: Tally,
    /// The gift is bound to a new name.
    pub binds: bool,
    /// The line of the finish statement, from 1.
    pub line: u32,
    pub outer: Level<'a>,
}

/// Statements under way, and the finishes that run inside them, the innermost last.
///
/// The level is that of the innermost finish inside.
#[derive(Drop)]
pub struct Machine<'a> {
    pub level: Level<'a>,
    pub inside: Vec<Inside<'a>>,
}

/// What a turn of a machine met, that concerns what is outside it.
#[derive(Drop)]
pub enum Met<'a> {
    /// Nothing.
    Quiet,
    Offer(i64),
    /// The code of a fault of an async that ran where it stands.
    Fault(u64),
    Async { body: &'a CodeBlock, left: u32 },
    /// An async that belongs to a finish inside, and so runs inside.
    Held,
    Finish(FinishAt<'a>),
    /// Nothing is left.
    Over,
}

impl<'a> Machine<'a> {
    /// One turn. What a finish inside hears isn't met outside.
    pub fn turn(&mut self, code: &'a CodeTree, columns: &Data) -> Result<Met<'a>, AllocError>
        ensures { IfOk result (λ met. MachineGoes (context_of code.now columns.now) self.old self.new met) }
    {
        match self.level.turn(code, columns)? {
            Step::Quiet => Ok(Met::Quiet),
            Step::Line(_) => Ok(Met::Quiet),
            Step::Offer(x) => match self.inside.last_mut() {
                None => Ok(Met::Offer(x)),
                Some(inside) => {
                    inside.tally.offer(x);
                    Ok(Met::Quiet)
                }
            },
            Step::Fault(code) => match self.inside.last_mut() {
                None => Ok(Met::Fault(code)),
                Some(inside) => {
                    inside.tally.fault(code);
                    Ok(Met::Quiet)
                }
            },
            Step::Async { body, left } => {
                if self.inside.is_empty() {
                    return Ok(Met::Async { body, left });
                }
                self.level.hold(body, left)?;
                Ok(Met::Held)
            }
            Step::Finish(finish) => Ok(Met::Finish(finish)),
            Step::Call(call) => {
                self.level.go_in(call)?;
                Ok(Met::Quiet)
            }
            Step::Called => Ok(Met::Quiet),
            Step::Over => match self.inside.pop() {
                None => Ok(Met::Over),
                Some(inside) => {
                    self.close(inside)?;
                    Ok(Met::Quiet)
                }
            },
        }
    }

    /// Goes on until something is met.
    pub fn run(&mut self, code: &'a CodeTree, columns: &Data) -> Result<Met<'a>, AllocError>
        ensures goes { IfOk result (λ met. MachineGoes (context_of code.now columns.now) self.old self.new met) }
        ensures met { IfOk result (λ met. met ≢ meets.Quiet) }
    {
        loop {
            let met = self.turn(code, columns)?;
            match met {
                Met::Quiet => {}
                met => return Ok(met),
            }
        }
    }

    /// The end of a finish inside.
    fn close(&mut self, inside: Inside<'a>) -> Result<(), AllocError>
        ensures inside { self.new.inside ≡ self.old.inside }
        ensures frames { self.new.level.frames ≡ inside.entry.outer.frames }
        ensures now { IfOk result (λ _. level_now self.new.level ≡ quiet (finish_end inside.entry.line
            (bind_if inside.entry.binds inside.entry.outer.vars.items)
            (settle (collected inside.entry.tally.kind (total_of inside.entry.tally)
            (end_codes (flow_end self.old.level.flow self.old.level.vars.items)))))) }
    {
        let Inside {
            tally,
            binds,
            line,
            outer,
        } = inside;
        let given = with_end(tally, &self.level.flow).given();
        self.level = outer;
        self.level.settle(line, binds, given)?;
        Ok(())
    }

    /// Runs a finish that was met where it stands, over a copy of the values.
    pub fn open(&mut self, finish: FinishAt<'a>) -> Result<(), AllocError>
        requires { self.old.level.flow ≡ flow.Fell }
        ensures frames { IfOk result (λ _. machine_frames self.new ≡ machine_frames self.old + 2) }
        ensures left { (context : Context) → IfOk result (λ _. machine_left context self.old
            (finish_of finish.entry.kind finish.entry.line (bind_if finish.entry.binds self.old.level.vars.items)
            (eval_block (around_of context finish.entry.left) finish.entry.body.now
            self.old.level.vars.items))
            ≡ before (Begin Finish ∷ []) (machine_eval context self.new)) }
    {
        let FinishAt {
            kind,
            binds,
            line,
            left,
            body,
        } = finish;
        let vars = copy_of(&self.level.vars)?;
        let level = Level::of_block(body, left, vars)?;
        self.take(kind, binds, line, level)?;
        Ok(())
    }

    /// Runs inside what runs in this level: where it has just begun the block of a finish that was
    /// met here, over the same values, that finish runs where it stands.
    pub fn take(
        &mut self,
        kind: FinishKind,
        binds: bool,
        line: u32,
        level: Level<'a>,
    ) -> Result<(), AllocError>
        ensures frames { IfOk result (λ _.
            machine_frames self.new ≡ machine_frames self.old + (length level.entry.frames.items + 1)) }
        ensures left { (context : Context) (body : Bor CodeBlock) (left : ℕ) → IfOk result (λ _.
            level.entry.flow ≡ flow.Fell → level.entry.vars.items ≡ self.old.level.vars.items →
            level.entry.frames.items ≡ frame.Block body 0 0 left ∷ [] →
            machine_left context self.old
            (finish_left kind (nothing kind) line (bind_if binds self.old.level.vars.items)
            (eval_block (around_of context left) body.now self.old.level.vars.items))
            ≡ machine_eval context self.new) }
    {
        let outer = mem::replace(&mut self.level, level);
        self.inside.push(Inside {
            tally: Tally::new(kind),
            binds,
            line,
            outer,
        })?;
        Ok(())
    }
}

/// What a finish has collected whose block ended so: a fault of its own is one more code.
pub fn with_end(tally: Tally, flow: &Flow) -> Tally
    ensures kind { result.kind ≡ tally.kind }
    ensures total { (vars : List ℤ) →
        total_of result ≡ collected tally.kind (total_of tally) (end_codes (flow_end flow.now vars)) }
{
    let mut tally = tally;
    if let Flow::Fault(code) = flow {
        tally.fault(*code);
    }
    tally
}
