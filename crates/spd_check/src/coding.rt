// The code of blocks and their statements.

ghost use Rattle.std.specs.Prelude.{◌≡◌, ◌+◌, ◌<◌, ◌++◌, [], ◌∷◌, suc, take, true, IfOk, OnOk};
ghost use Rattle.std.specs.Option.{option_copied};
ghost use Rattle.spd_code.specs.Resolved.{expression_code, kind_resolved, statement_resolved};
ghost use Rattle.spd_code.specs.Lined.{lined_block, lined_stmt, lined_kind};
ghost use Rattle.spd_check.specs.declared.coding.Scope.{Scope};
ghost use Rattle.spd_check.specs.Names.{name_texts};
ghost use Rattle.spd_check.specs.Coding.{bound_names, block_coded, block_count, else_coded, else_count};

use crate::coded::CodedStmts;
use crate::names::{keep_first, to_u32};
use crate::spaces::SpaceNames;
use crate::values::{arguments, expression, parts, variable};
use spd_code::{CodeBlock, CodeStmt, CodeStmtKind};
use spd_list::Seq;
use spd_syntax::{Block, Name, Stmt, StmtKind};
use std::alloc::{AllocError, Global};

/// How far the code of a program has come.
#[derive(Drop)]
pub(crate) struct Scope<'a> {
    /// The names that are visible.
    pub(crate) names: Vec<&'a [u8]>,
    /// The number of the next block.
    pub(crate) next_block: u32,
}

/// Takes the number of the next block.
fn take_number(next_block: &mut u32) -> Result<u32, AllocError>
    ensures number { IfOk result (λ number. number ≡ next_block.old) }
    ensures next { OnOk result (next_block.new ≡ suc next_block.old) }
{
    let number = *next_block;
    *next_block = to_u32(number as usize + 1)?;
    Ok(number)
}

/// Makes the name visible that a statement binds.
#[tactic(auto, unfolding(crate::specs::Coding::bound_names))]
fn bind_name<'a>(names: &mut Vec<&'a [u8]>, what: &'a StmtKind) -> Result<(), AllocError>
    ensures { OnOk result (name_texts names.new.items ≡ name_texts names.old.items ++ bound_names what.now) }
{
    match what {
        StmtKind::Let { name, .. } => names.push(name.as_slice())?,
        StmtKind::LetCall { name, .. } => names.push(name.as_slice())?,
        StmtKind::LetFinish { name, .. } => names.push(name.as_slice())?,
        _ => {}
    }
    Ok(())
}

/// A line, which has 32 bits.
fn line_of(line: u32) -> u32
    ensures same { result ≡ line }
    ensures within { result < 4294967296 }
{
    line
}

/// The code of a block, whose number is the next one.
#[cycle(coding)]
#[tactic(auto, unfolding(crate::specs::Coding::block_coded, crate::specs::Coding::block_count), using(crate::proofs::Lined::block_lined))]
pub(crate) fn code_block<'a>(
    alloc: Global,
    spaces: &SpaceNames,
    scope: &mut Scope<'a>,
    block: &'a Block,
) -> Result<CodeBlock, AllocError>
    ensures code { IfOk result (λ code. code ≡
        block_coded spaces.now block.now (name_texts scope.old.names.items) scope.old.next_block) }
    ensures lined { IfOk result (λ code. lined_block code ≡ true) }
    ensures names { OnOk result (name_texts scope.new.names.items ≡ name_texts scope.old.names.items) }
    ensures blocks { OnOk result (scope.new.next_block ≡ scope.old.next_block + block_count spaces.now block.now) }
{
    let visible = scope.names.len();
    let number = take_number(&mut scope.next_block)?;
    let mut stmts = CodedStmts::new(alloc);
    for stmt in block.as_slice() {
        stmts.push(code_stmt(alloc, spaces, scope, stmt)?)?;
    }
    keep_first(&mut scope.names, visible);
    Ok(CodeBlock {
        number: Some(number),
        stmts: stmts.into_stmts(),
    })
}

/// The code of a block behind `else`, which takes no number where it is empty.
#[cycle(coding)]
#[tactic(auto, unfolding(crate::specs::Coding::block_coded, crate::specs::Coding::block_count, crate::specs::Coding::else_coded, crate::specs::Coding::else_count), using(crate::proofs::Lined::block_lined, crate::proofs::Lined::no_stmts_lined))]
fn code_else<'a>(
    alloc: Global,
    spaces: &SpaceNames,
    scope: &mut Scope<'a>,
    block: &'a Block,
) -> Result<CodeBlock, AllocError>
    ensures code { IfOk result (λ code. code ≡
        else_coded spaces.now block.now (name_texts scope.old.names.items) scope.old.next_block) }
    ensures lined { IfOk result (λ code. lined_block code ≡ true) }
    ensures names { OnOk result (name_texts scope.new.names.items ≡ name_texts scope.old.names.items) }
    ensures blocks { OnOk result (scope.new.next_block ≡ scope.old.next_block + else_count spaces.now block.now) }
{
    if block.is_empty() {
        return Ok(CodeBlock {
            number: None,
            stmts: Seq::new(alloc),
        });
    }
    code_block(alloc, spaces, scope, block)
}

/// The code of a statement, behind which the name is visible that it binds.
#[cycle(coding)]
#[tactic(auto, using(crate::proofs::CodeEquations::stmt_binds))]
fn code_stmt<'a>(
    alloc: Global,
    spaces: &SpaceNames,
    scope: &mut Scope<'a>,
    stmt: &'a Stmt,
) -> Result<CodeStmt, AllocError>
    ensures code { IfOk result (λ code. code ≡ (statement_resolved spaces.now stmt.now).code
        (name_texts scope.old.names.items) scope.old.next_block) }
    ensures lined { IfOk result (λ code. lined_stmt code ≡ true) }
    ensures names { OnOk result (name_texts scope.new.names.items ≡
        name_texts scope.old.names.items ++ (statement_resolved spaces.now stmt.now).binds) }
    ensures blocks { OnOk result (scope.new.next_block ≡
        scope.old.next_block + (statement_resolved spaces.now stmt.now).blocks) }
{
    let line = line_of(stmt.line);
    let next_block = scope.next_block;
    let what = code_kind(alloc, spaces, scope, &stmt.what)?;
    bind_name(&mut scope.names, &stmt.what)?;
    Ok(CodeStmt {
        line,
        next_block,
        what,
    })
}

/// The code of a block in which one name more is visible.
#[cycle(coding)]
fn code_turns<'a>(
    alloc: Global,
    spaces: &SpaceNames,
    scope: &mut Scope<'a>,
    name: &'a Name,
    body: &'a Block,
) -> Result<CodeBlock, AllocError>
    ensures code { IfOk result (λ code. code ≡
        block_coded spaces.now body.now (name_texts scope.old.names.items ++ name.now ∷ []) scope.old.next_block) }
    ensures lined { IfOk result (λ code. lined_block code ≡ true) }
    ensures names { OnOk result (name_texts scope.new.names.items ≡ name_texts scope.old.names.items) }
    ensures blocks { OnOk result (scope.new.next_block ≡ scope.old.next_block + block_count spaces.now body.now) }
{
    let visible = scope.names.len();
    scope.names.push(name.as_slice())?;
    let body = code_block(alloc, spaces, scope, body)?;
    keep_first(&mut scope.names, visible);
    Ok(body)
}

/// The code of what a statement does.
#[cycle(coding)]
#[tactic(auto, using(crate::proofs::Lined::lined_let, crate::proofs::Lined::lined_let_call, crate::proofs::Lined::lined_let_finish, crate::proofs::Lined::lined_assign, crate::proofs::Lined::lined_if, crate::proofs::Lined::lined_for, crate::proofs::Lined::lined_async, crate::proofs::Lined::lined_finish, crate::proofs::Lined::lined_offer, crate::proofs::Lined::lined_run, crate::proofs::Lined::lined_return, crate::proofs::Lined::lined_print))]
fn code_kind<'a>(
    alloc: Global,
    spaces: &SpaceNames,
    scope: &mut Scope<'a>,
    what: &'a StmtKind,
) -> Result<CodeStmtKind, AllocError>
    ensures code { IfOk result (λ code. code ≡ (kind_resolved spaces.now what.now).code
        (name_texts scope.old.names.items) scope.old.next_block) }
    ensures lined { IfOk result (λ code. lined_kind code ≡ true) }
    ensures names { OnOk result (name_texts scope.new.names.items ≡ name_texts scope.old.names.items) }
    ensures blocks { OnOk result (scope.new.next_block ≡
        scope.old.next_block + (kind_resolved spaces.now what.now).blocks) }
{
    match what {
        StmtKind::LetFinish { kind, body, .. } => {
            let body = code_block(alloc, spaces, scope, body)?;
            Ok(CodeStmtKind::LetFinish { kind: *kind, body })
        }
        StmtKind::If { cond, yes, no } => {
            let cond = expression(alloc, spaces, &scope.names, cond)?;
            let yes = code_block(alloc, spaces, scope, yes)?;
            let no = code_else(alloc, spaces, scope, no)?;
            Ok(CodeStmtKind::If { cond, yes, no })
        }
        StmtKind::For {
            name,
            from,
            to,
            body,
        } => {
            let from = expression(alloc, spaces, &scope.names, from)?;
            let to = expression(alloc, spaces, &scope.names, to)?;
            let body = code_turns(alloc, spaces, scope, name, body)?;
            Ok(CodeStmtKind::For { from, to, body })
        }
        StmtKind::Async { body } => {
            let body = code_block(alloc, spaces, scope, body)?;
            Ok(CodeStmtKind::Async { body })
        }
        StmtKind::Finish { body } => {
            let body = code_block(alloc, spaces, scope, body)?;
            Ok(CodeStmtKind::Finish { body })
        }
        StmtKind::Let { value, .. } => {
            let value = expression(alloc, spaces, &scope.names, value)?;
            Ok(CodeStmtKind::Let { value })
        }
        StmtKind::LetCall { callee, args, .. } => {
            let callee = spaces.function(callee.as_slice())?;
            let args = arguments(alloc, spaces, &scope.names, args)?;
            Ok(CodeStmtKind::LetCall { callee, args })
        }
        StmtKind::Assign { name, value } => {
            let place = variable(&scope.names, name.as_slice())?;
            let value = expression(alloc, spaces, &scope.names, value)?;
            Ok(CodeStmtKind::Assign { place, value })
        }
        StmtKind::Offer { value } => {
            let value = expression(alloc, spaces, &scope.names, value)?;
            Ok(CodeStmtKind::Offer { value })
        }
        StmtKind::Run { callee, args } => {
            let callee = spaces.task(callee.as_slice())?;
            let args = arguments(alloc, spaces, &scope.names, args)?;
            Ok(CodeStmtKind::Run { callee, args })
        }
        StmtKind::Return { value } => {
            let value = expression(alloc, spaces, &scope.names, value)?;
            Ok(CodeStmtKind::Return { value })
        }
        StmtKind::Print { parts: list } => {
            let parts = parts(alloc, spaces, &scope.names, list)?;
            Ok(CodeStmtKind::Print { parts })
        }
    }
}
