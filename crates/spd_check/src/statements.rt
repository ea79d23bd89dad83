// Checking blocks and their statements.

ghost use Rattle.std.specs.Prelude.{◌≡◌, ◌++◌, ◌∷◌, [], flat_map, OnOk};
ghost use Rattle.spd_check.specs.declared.faults.CheckKind.TheVariants.{AsyncOutside, OfferOutside, PrintPlace, ReturnPlace};
ghost use Rattle.spd_check.specs.Names.{name_texts};
ghost use Rattle.spd_check.specs.Items as declared;
ghost use Rattle.spd_check.specs.Places as places;
ghost use Rattle.spd_check.specs.Faults.{Passes, fault_unless};
ghost use Rattle.spd_check.specs.Checks.{expression_faults, part_faults, call_faults, twice, assigned_faults, kind_checked, stmt_checked, block_faults, inside_block};

use crate::declared::{function_arity, task_arity};
use crate::expressions::{check_call, check_expr, check_parts};
use crate::faults::{CheckFault, CheckKind, unless};
use crate::names::{bind, check_assigned, keep_first};
use crate::place::Place;
use spd_syntax::{Block, Expr, Exprs, Item, Name, Parts, Stmt, StmtKind};

/// Checks a `let` of a value, and makes its name visible.
#[tactic(auto, using(crate::proofs::Passing::first_more, crate::proofs::Passing::none_more))]
fn check_let<'a>(
    items: &[Item],
    names: &mut Vec<&'a [u8]>,
    line: u32,
    name: &'a Name,
    value: &Expr,
) -> Result<(), CheckFault>
    ensures answer { Passes result (expression_faults items.now (name_texts names.old.items) line value.now ++
        twice (name_texts names.old.items) name.now line) }
    ensures names { OnOk result (name_texts names.new.items ≡ name_texts names.old.items ++ name.now ∷ []) }
{
    check_expr(items, names, line, value)?;
    bind(names, name.as_slice(), line)
}

/// Checks a `let` of a call, and makes its name visible.
#[tactic(auto, using(crate::proofs::Passing::first_more, crate::proofs::Passing::none_more))]
fn check_let_call<'a>(
    items: &[Item],
    names: &mut Vec<&'a [u8]>,
    line: u32,
    name: &'a Name,
    callee: &Name,
    args: &Exprs,
) -> Result<(), CheckFault>
    ensures answer { Passes result (call_faults items.now (declared.function_arity items.now callee.now)
        (name_texts names.old.items) line args.now ++ twice (name_texts names.old.items) name.now line) }
    ensures names { OnOk result (name_texts names.new.items ≡ name_texts names.old.items ++ name.now ∷ []) }
{
    let arity = function_arity(items, callee.as_slice());
    check_call(items, names, line, arity, args)?;
    bind(names, name.as_slice(), line)
}

/// Checks an assignment at a place.
#[tactic(auto, using(crate::proofs::Passing::first_more, crate::proofs::Passing::none_more))]
fn check_assign(
    items: &[Item],
    names: &[&[u8]],
    place: Place,
    line: u32,
    name: &Name,
    value: &Expr,
) -> Result<(), CheckFault>
    ensures { Passes result (expression_faults items.now (name_texts names.now) line value.now ++
        assigned_faults (name_texts names.now) place.outer name.now line) }
{
    check_expr(items, names, line, value)?;
    check_assigned(names, place.outer, line, name.as_slice())
}

/// Checks an `offer` at a place.
#[tactic(auto, using(crate::proofs::Passing::first_more, crate::proofs::Passing::none_more))]
fn check_offer(
    items: &[Item],
    names: &[&[u8]],
    place: Place,
    line: u32,
    value: &Expr,
) -> Result<(), CheckFault>
    ensures { Passes result (fault_unless (places.may_collect place) line OfferOutside ++
        expression_faults items.now (name_texts names.now) line value.now) }
{
    unless(place.may_collect(), line, CheckKind::OfferOutside)?;
    check_expr(items, names, line, value)
}

/// Checks a `run` of a task at a place.
#[tactic(auto, using(crate::proofs::Passing::first_more, crate::proofs::Passing::none_more))]
fn check_run(
    items: &[Item],
    names: &[&[u8]],
    place: Place,
    line: u32,
    callee: &Name,
    args: &Exprs,
) -> Result<(), CheckFault>
    ensures { Passes result (fault_unless (places.may_collect place) line AsyncOutside ++
        call_faults items.now (declared.task_arity items.now callee.now) (name_texts names.now) line args.now) }
{
    unless(place.may_collect(), line, CheckKind::AsyncOutside)?;
    let arity = task_arity(items, callee.as_slice());
    check_call(items, names, line, arity, args)
}

/// Checks a `return` at a place.
#[tactic(auto, using(crate::proofs::Passing::first_more, crate::proofs::Passing::none_more))]
fn check_return(
    items: &[Item],
    names: &[&[u8]],
    place: Place,
    line: u32,
    value: &Expr,
) -> Result<(), CheckFault>
    ensures { Passes result (fault_unless (places.may_return place) line ReturnPlace ++
        expression_faults items.now (name_texts names.now) line value.now) }
{
    unless(place.may_return(), line, CheckKind::ReturnPlace)?;
    check_expr(items, names, line, value)
}

/// Checks a `print` at a place.
#[tactic(auto, using(crate::proofs::Passing::first_more, crate::proofs::Passing::none_more))]
fn check_print(
    items: &[Item],
    names: &[&[u8]],
    place: Place,
    line: u32,
    parts: &Parts,
) -> Result<(), CheckFault>
    ensures { Passes result (fault_unless (places.may_print place) line PrintPlace ++
        flat_map (part_faults items.now (name_texts names.now) line) parts.now) }
{
    unless(place.may_print(), line, CheckKind::PrintPlace)?;
    check_parts(items, names, line, parts)
}

/// Checks the statements of a block at a place. Behind it the names are visible that were before.
#[cycle(blocks)]
#[tactic(auto, using(crate::proofs::Passing::first_more, crate::proofs::Passing::none_more), unfolding(crate::specs::Checks::block_faults))]
pub(crate) fn check_block<'a>(
    items: &[Item],
    names: &mut Vec<&'a [u8]>,
    place: Place,
    block: &'a Block,
) -> Result<(), CheckFault>
    ensures answer { Passes result (block_faults items.now block.now (name_texts names.old.items) place) }
    ensures names { OnOk result (name_texts names.new.items ≡ name_texts names.old.items) }
{
    let visible = names.len();
    for stmt in block.as_slice() {
        check_stmt(items, names, place, stmt)?;
    }
    keep_first(names, visible);
    Ok(())
}

/// Checks a `let` of a finish, and makes its name visible.
#[cycle(blocks)]
#[tactic(auto, using(crate::proofs::Passing::first_more, crate::proofs::Passing::none_more))]
fn check_let_finish<'a>(
    items: &[Item],
    names: &mut Vec<&'a [u8]>,
    place: Place,
    body: &'a Block,
    line: u32,
    name: &'a Name,
) -> Result<(), CheckFault>
    ensures answer { Passes result (inside_block items.now body.now (name_texts names.old.items) place ++
        twice (name_texts names.old.items) name.now line) }
    ensures names { OnOk result (name_texts names.new.items ≡ name_texts names.old.items ++ name.now ∷ []) }
{
    check_inside(items, names, place, body)?;
    bind(names, name.as_slice(), line)
}

/// Checks the condition of an `if` at a place, and the first of its blocks.
#[cycle(blocks)]
#[tactic(auto, using(crate::proofs::Passing::first_more, crate::proofs::Passing::none_more))]
fn check_if<'a>(
    items: &[Item],
    names: &mut Vec<&'a [u8]>,
    place: Place,
    yes: &'a Block,
    line: u32,
    cond: &Expr,
) -> Result<(), CheckFault>
    ensures answer { Passes result (expression_faults items.now (name_texts names.old.items) line cond.now ++
        block_faults items.now yes.now (name_texts names.old.items) place) }
    ensures names { OnOk result (name_texts names.new.items ≡ name_texts names.old.items) }
{
    check_expr(items, names, line, cond)?;
    check_block(items, names, place, yes)
}

/// Checks the name of a `for`, and its block, in which alone the name is visible.
#[cycle(blocks)]
#[tactic(auto, using(crate::proofs::Passing::first_more, crate::proofs::Passing::none_more))]
fn check_turns<'a>(
    items: &[Item],
    names: &mut Vec<&'a [u8]>,
    place: Place,
    body: &'a Block,
    line: u32,
    name: &'a Name,
) -> Result<(), CheckFault>
    ensures answer { Passes result (twice (name_texts names.old.items) name.now line ++
        block_faults items.now body.now (name_texts names.old.items ++ name.now ∷ []) place) }
    ensures names { OnOk result (name_texts names.new.items ≡ name_texts names.old.items) }
{
    let outside = names.len();
    bind(names, name.as_slice(), line)?;
    check_block(items, names, place, body)?;
    keep_first(names, outside);
    Ok(())
}

/// Checks a finish or async block that stands at a place.
#[cycle(blocks)]
#[tactic(auto, unfolding(crate::specs::Checks::inside_block))]
fn check_inside<'a>(
    items: &[Item],
    names: &mut Vec<&'a [u8]>,
    place: Place,
    body: &'a Block,
) -> Result<(), CheckFault>
    ensures answer { Passes result (inside_block items.now body.now (name_texts names.old.items) place) }
    ensures names { OnOk result (name_texts names.new.items ≡ name_texts names.old.items) }
{
    let inside = place.inside(names.len());
    check_block(items, names, inside, body)
}

/// Checks an `async` at a place.
#[cycle(blocks)]
#[tactic(auto, using(crate::proofs::Passing::first_more, crate::proofs::Passing::none_more))]
fn check_async<'a>(
    items: &[Item],
    names: &mut Vec<&'a [u8]>,
    place: Place,
    body: &'a Block,
    line: u32,
) -> Result<(), CheckFault>
    ensures answer { Passes result (fault_unless (places.may_collect place) line AsyncOutside ++
        inside_block items.now body.now (name_texts names.old.items) place) }
    ensures names { OnOk result (name_texts names.new.items ≡ name_texts names.old.items) }
{
    unless(place.may_collect(), line, CheckKind::AsyncOutside)?;
    check_inside(items, names, place, body)
}

/// Checks a `for` at a place.
#[cycle(blocks)]
#[tactic(auto, using(crate::proofs::Passing::first_more, crate::proofs::Passing::none_more))]
fn check_for<'a>(
    items: &[Item],
    names: &mut Vec<&'a [u8]>,
    place: Place,
    body: &'a Block,
    line: u32,
    name: &'a Name,
    from: &Expr,
    to: &Expr,
) -> Result<(), CheckFault>
    ensures answer { Passes result (expression_faults items.now (name_texts names.old.items) line from.now ++
        (expression_faults items.now (name_texts names.old.items) line to.now ++
        (twice (name_texts names.old.items) name.now line ++
        block_faults items.now body.now (name_texts names.old.items ++ name.now ∷ []) place))) }
    ensures names { OnOk result (name_texts names.new.items ≡ name_texts names.old.items) }
{
    check_expr(items, names, line, from)?;
    check_expr(items, names, line, to)?;
    check_turns(items, names, place, body, line, name)
}

/// Checks a statement at a place, and makes the name visible that it binds.
#[cycle(blocks)]
fn check_stmt<'a>(
    items: &[Item],
    names: &mut Vec<&'a [u8]>,
    place: Place,
    stmt: &'a Stmt,
) -> Result<(), CheckFault>
    ensures answer { Passes result ((stmt_checked items.now stmt.now).1 (name_texts names.old.items) place) }
    ensures names { OnOk result (name_texts names.new.items ≡
        name_texts names.old.items ++ (stmt_checked items.now stmt.now).0) }
{
    check_kind(items, names, place, stmt.line, &stmt.what)
}

/// Checks what a statement at a line does, and makes the name visible that it binds.
#[cycle(blocks)]
fn check_kind<'a>(
    items: &[Item],
    names: &mut Vec<&'a [u8]>,
    place: Place,
    line: u32,
    what: &'a StmtKind,
) -> Result<(), CheckFault>
    ensures answer { Passes result ((kind_checked items.now what.now).1 line (name_texts names.old.items) place) }
    ensures names { OnOk result (name_texts names.new.items ≡
        name_texts names.old.items ++ (kind_checked items.now what.now).0) }
{
    match what {
        StmtKind::Let { name, value } => check_let(items, names, line, name, value),
        StmtKind::LetCall { name, callee, args } => {
            check_let_call(items, names, line, name, callee, args)
        }
        StmtKind::LetFinish { name, body, .. } => {
            check_let_finish(items, names, place, body, line, name)
        }
        StmtKind::Assign { name, value } => check_assign(items, names, place, line, name, value),
        StmtKind::If { cond, yes, no } => {
            check_if(items, names, place, yes, line, cond)?;
            check_block(items, names, place, no)
        }
        StmtKind::For {
            name,
            from,
            to,
            body,
        } => { check_for(items, names, place, body, line, name, from, to) }
        StmtKind::Async { body } => check_async(items, names, place, body, line),
        StmtKind::Finish { body } => check_inside(items, names, place, body),
        StmtKind::Offer { value } => check_offer(items, names, place, line, value),
        StmtKind::Run { callee, args } => check_run(items, names, place, line, callee, args),
        StmtKind::Return { value } => check_return(items, names, place, line, value),
        StmtKind::Print { parts } => check_print(items, names, place, line, parts),
    }
}
