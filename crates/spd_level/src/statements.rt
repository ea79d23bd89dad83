// Statements: each by the row of the language's table that it has.

ghost use Rattle.std.specs.Prelude.{◌≡◌, ◌∷◌, [], ℕ, true, IfOk, map};
ghost use Rattle.spd_code.specs.declared.tree.CodeTree.{CodeTree};
ghost use Rattle.spd_meaning.specs.Acts.{Offer, Line};
ghost use Rattle.spd_meaning.specs.Eval.{Fell, Back, quiet, before, with_value, with_line};
ghost use Rattle.spd_meaning.specs.Values.{all_texts};
ghost use Rattle.spd_meaning.specs.Meaning.{collecting};
ghost use Rattle.spd_code.specs.Coded.{code_value, code_part_value, around_of, eval_stmt};
ghost use Rattle.spd_level.specs.Columns.{around_columns, context_of};
ghost use Rattle.spd_code.specs.Places.{bind_if, put_at};
ghost use Rattle.spd_level.specs.Turn.{PlainTurn, StatementDone, StatementTurn};
ghost use Rattle.spd_level.specs.declared.frame.Flow.TheVariants as flow;
ghost use Rattle.spd_level.specs.declared.step.Step.TheVariants as step;

use crate::frame::Flow;
use crate::level::Level;
use crate::step::{FinishAt, Step};
use crate::text::text_of;
use crate::value::value_of;
use spd_code::{CodeExpr, CodeParts, CodeStmt, CodeStmtKind, CodeTree};
use spd_data::Data;
use spd_syntax::Collect;
use spd_words::FinishKind;
use std::alloc::AllocError;

impl<'a> Level<'a> {
    /// One statement, where so many more calls may be opened.
    pub(crate) fn statement(
        &mut self,
        code: &'a CodeTree,
        columns: &Data,
        stmt: &'a CodeStmt,
        left: u32,
    ) -> Result<Step<'a>, AllocError>
        requires { self.old.flow ≡ flow.Fell }
        ensures { IfOk result (λ step. StatementTurn (context_of code.now columns.now) self.old self.new
            step (eval_stmt (around_of (context_of code.now columns.now) left) stmt.now self.old.vars.items)) }
    {
        match &stmt.what {
            CodeStmtKind::Let { value } => {
                self.bind(value, columns, stmt.line)?;
                Ok(Step::Quiet)
            }
            CodeStmtKind::LetCall { callee, args } => {
                let step = self.call(
                    &code.functions,
                    *callee,
                    args,
                    true,
                    columns,
                    stmt.line,
                    left,
                )?;
                Ok(step)
            }
            CodeStmtKind::LetFinish { kind, body } => Ok(Step::Finish(FinishAt {
                kind: kind_of(*kind),
                binds: true,
                line: stmt.line,
                left,
                body,
            })),
            CodeStmtKind::Assign { place, value } => {
                self.assign(*place, value, columns, stmt.line);
                Ok(Step::Quiet)
            }
            CodeStmtKind::If { cond, yes, no } => {
                self.choose(cond, yes, no, columns, stmt.line, left)?;
                Ok(Step::Quiet)
            }
            CodeStmtKind::For { from, to, body } => {
                self.begin_for(from, to, body, columns, stmt.line, left)?;
                Ok(Step::Quiet)
            }
            CodeStmtKind::Async { body } => Ok(Step::Async { body, left }),
            CodeStmtKind::Finish { body } => Ok(Step::Finish(FinishAt {
                kind: FinishKind::Plain,
                binds: false,
                line: stmt.line,
                left,
                body,
            })),
            CodeStmtKind::Offer { value } => Ok(self.offer(value, columns, stmt.line)),
            CodeStmtKind::Run { callee, args } => {
                let step = self.call(&code.tasks, *callee, args, false, columns, stmt.line, left)?;
                Ok(step)
            }
            CodeStmtKind::Return { value } => {
                self.give_back(value, columns, stmt.line);
                Ok(Step::Quiet)
            }
            CodeStmtKind::Print { parts } => {
                let step = self.print(parts, columns, stmt.line)?;
                Ok(step)
            }
        }
    }

    /// The same without any frame, where a statement needs nothing but the values: `false` where it
    /// needs more, and hasn't run.
    pub(crate) fn plain(&mut self, columns: &Data, stmt: &CodeStmt) -> Result<bool, AllocError>
        requires { self.old.flow ≡ flow.Fell }
        ensures { (code : CodeTree) (left : ℕ) → IfOk result (λ ran. PlainTurn self.old self.new ran
            (eval_stmt (around_of (context_of code columns.now) left) stmt.now self.old.vars.items)) }
    {
        match &stmt.what {
            CodeStmtKind::Let { value } => {
                self.bind(value, columns, stmt.line)?;
                Ok(true)
            }
            CodeStmtKind::Assign { place, value } => {
                self.assign(*place, value, columns, stmt.line);
                Ok(true)
            }
            CodeStmtKind::Return { value } => {
                self.give_back(value, columns, stmt.line);
                Ok(true)
            }
            _ => Ok(false),
        }
    }

    /// Binds a new name to a value.
    fn bind(&mut self, expr: &CodeExpr, columns: &Data, line: u32) -> Result<(), AllocError>
        requires { self.old.flow ≡ flow.Fell }
        ensures { IfOk result (λ _. StatementDone self.old self.new step.Quiet
            (with_value (code_value (around_columns columns.now) expr.now self.old.vars.items line)
            (λ v. quiet (Fell (bind_if true self.old.vars.items v))))) }
    {
        match value_of(expr, columns, self.vars.as_slice(), line) {
            Ok(value) => self.vars.push(value)?,
            Err(code) => self.flow = Flow::Fault(code),
        }
        Ok(())
    }

    /// Gives the name at a place a new value.
    fn assign(&mut self, place: u32, expr: &CodeExpr, columns: &Data, line: u32)
        requires { self.old.flow ≡ flow.Fell }
        ensures { StatementDone self.old self.new step.Quiet
            (with_value (code_value (around_columns columns.now) expr.now self.old.vars.items line)
            (λ v. quiet (Fell (put_at self.old.vars.items place v)))) }
    {
        match value_of(expr, columns, self.vars.as_slice(), line) {
            Ok(value) => {
                if (place as usize) < self.vars.len() {
                    self.vars[place as usize] = value;
                }
            }
            Err(code) => self.flow = Flow::Fault(code),
        }
    }

    /// A `return`: what stands behind it up to the end of the call is passed over.
    fn give_back(&mut self, expr: &CodeExpr, columns: &Data, line: u32)
        requires { self.old.flow ≡ flow.Fell }
        ensures { StatementDone self.old self.new step.Quiet
            (with_value (code_value (around_columns columns.now) expr.now self.old.vars.items line)
            (λ v. quiet (Back v))) }
    {
        self.flow = match value_of(expr, columns, self.vars.as_slice(), line) {
            Ok(value) => Flow::Back(value),
            Err(code) => Flow::Fault(code),
        };
    }

    /// An offer to the finish around it.
    fn offer(&mut self, expr: &CodeExpr, columns: &Data, line: u32) -> Step<'a>
        requires { self.old.flow ≡ flow.Fell }
        ensures { StatementDone self.old self.new result
            (with_value (code_value (around_columns columns.now) expr.now self.old.vars.items line)
            (λ v. before (Offer v ∷ []) (quiet (Fell self.old.vars.items)))) }
    {
        match value_of(expr, columns, self.vars.as_slice(), line) {
            Ok(value) => Step::Offer(value),
            Err(code) => {
                self.flow = Flow::Fault(code);
                Step::Quiet
            }
        }
    }

    /// A print: all its parts are evaluated before anything is written.
    fn print(
        &mut self,
        parts: &CodeParts,
        columns: &Data,
        line: u32,
    ) -> Result<Step<'a>, AllocError>
        requires { self.old.flow ≡ flow.Fell }
        ensures { IfOk result (λ step. StatementDone self.old self.new step
            (with_line (all_texts (map (λ p.
            code_part_value (around_columns columns.now) p self.old.vars.items line) parts.now))
            (λ text. before (Line text ∷ []) (quiet (Fell self.old.vars.items))))) }
    {
        match text_of(
            *self.vars.allocator(),
            parts.as_slice(),
            columns,
            self.vars.as_slice(),
            line,
        )? {
            Ok(text) => Ok(Step::Line(text)),
            Err(code) => {
                self.flow = Flow::Fault(code);
                Ok(Step::Quiet)
            }
        }
    }
}

/// The kind of a finish that collects so.
pub fn kind_of(collect: Collect) -> FinishKind
    ensures { result ≡ collecting collect }
{
    match collect {
        Collect::Sum => FinishKind::Sum,
        Collect::Least => FinishKind::Least,
        Collect::Greatest => FinishKind::Greatest,
    }
}
