// Jobs, each with the code that it runs over.

use crate::codes::{
    assign, bind, block, both, call, choose, collect, exprs, finish, give_back, items, number,
    offer, program, repeat, run, start, var,
};
use spd_code::{CodeBlock, CodeItem, CodeStmt, CodeTree};
use spd_machine::{Job, JobBody};
use spd_syntax::{BinOp, Collect};
use spd_words::FinishKind;
use std::alloc::{AllocError, Global};
use std::process::Abort;

/// What a job runs of a code.
#[derive(Clone, Copy, Debug)]
pub(crate) enum Runs {
    /// The block of main, for a finish of this kind.
    Main(FinishKind),
    /// The first function over this argument, for a sum.
    Function(i64),
}

/// The job over a code.
pub(crate) fn job_of<'a>(
    rt: &(impl Abort + AllocGlobal),
    code: &'a CodeTree,
    runs: Runs,
) -> Result<Job<'a>, AllocError> {
    match runs {
        Runs::Main(kind) => Ok(Job {
            kind,
            body: JobBody::Block {
                block: &code.main,
                left: 256,
                vars: Vec::new(rt.alloc()),
            },
        }),
        Runs::Function(arg) => Ok(Job {
            kind: FinishKind::Sum,
            body: JobBody::Call {
                item: code.functions.as_slice().first().expect(rt, "a function"),
                left: 255,
                args: vec![in rt.alloc(); arg]?,
            },
        }),
    }
}

/// A program of main alone.
fn alone(alloc: Global, stmts: Vec<CodeStmt>) -> Result<CodeTree, AllocError> {
    Ok(program(
        items(alloc, Vec::new(alloc))?,
        items(alloc, Vec::new(alloc))?,
        block(alloc, stmts)?,
    ))
}

/// A program of one function.
fn with_function(
    alloc: Global,
    function: CodeItem,
    stmts: Vec<CodeStmt>,
) -> Result<CodeTree, AllocError> {
    Ok(program(
        items(alloc, vec![in alloc; function]?)?,
        items(alloc, Vec::new(alloc))?,
        block(alloc, stmts)?,
    ))
}

/// A block of one statement.
fn of_one(alloc: Global, stmt: CodeStmt) -> Result<CodeBlock, AllocError> {
    block(alloc, vec![in alloc; stmt]?)
}

/// `offer 1 / 0;`
fn fails(alloc: Global, line: u32) -> Result<CodeStmt, AllocError> {
    let value = both(alloc, number(1), BinOp::Div, number(0))?;
    Ok(offer(line, value))
}

/// `main { }`
pub(crate) fn empty_main(alloc: Global) -> Result<CodeTree, AllocError> {
    alone(alloc, Vec::new(alloc))
}

/// `main { for i = 0 to 3 { async { offer i; } } }`
pub(crate) fn loop_of_asyncs(alloc: Global) -> Result<CodeTree, AllocError> {
    let body = of_one(alloc, offer(3, var(0)))?;
    let body = of_one(alloc, start(2, body))?;
    let turns = repeat(1, number(0), number(3), body);
    alone(alloc, vec![in alloc; turns]?)
}

/// `main { async { offer 4; } async { offer -2; } offer 3; }`
pub(crate) fn three_offers(alloc: Global) -> Result<CodeTree, AllocError> {
    let first = of_one(alloc, offer(1, number(4)))?;
    let second = of_one(alloc, offer(2, number(-2)))?;
    let stmts = vec![in alloc; start(1, first), start(2, second), offer(3, number(3))]?;
    alone(alloc, stmts)
}

/// `async { offer 1 / 0; }`, with the fault at this line.
fn failing_async(alloc: Global, line: u32) -> Result<CodeStmt, AllocError> {
    let body = of_one(alloc, fails(alloc, line)?)?;
    Ok(start(line, body))
}

/// `main { async { offer 1 / 0; } async { offer 1 / 0; } offer 2; offer 1 / 0; offer 3; }`, with faults
/// at the lines 7, 5 and 9.
pub(crate) fn three_faults(alloc: Global) -> Result<CodeTree, AllocError> {
    let mut stmts = Vec::new(alloc);
    stmts.push(failing_async(alloc, 7)?)?;
    stmts.push(failing_async(alloc, 5)?)?;
    stmts.push(offer(8, number(2)))?;
    stmts.push(fails(alloc, 9)?)?;
    stmts.push(offer(10, number(3)))?;
    alone(alloc, stmts)
}

/// `main { async { finish { async { offer 1 / 0; } } offer 4; } offer 1; }`, with the fault at line 5.
pub(crate) fn fault_in_finish_in_async(alloc: Global) -> Result<CodeTree, AllocError> {
    let inner = of_one(alloc, fails(alloc, 5)?)?;
    let inner = of_one(alloc, start(4, inner))?;
    let stmts = vec![in alloc; finish(3, inner), offer(6, number(4))]?;
    let outer = block(alloc, stmts)?;
    alone(alloc, vec![in alloc; start(2, outer), offer(7, number(1))]?)
}

/// `function f(n) { let s = finish sum { for i = 0 to n { async { offer i; } } } return s + 1; }`
fn adding(alloc: Global) -> Result<CodeItem, AllocError> {
    let body = of_one(alloc, offer(1, var(1)))?;
    let body = of_one(alloc, start(1, body))?;
    let body = of_one(alloc, repeat(1, number(0), var(0), body))?;
    let back = give_back(2, both(alloc, var(1), BinOp::Add, number(1))?);
    let body = block(alloc, vec![in alloc; collect(1, Collect::Sum, body), back]?)?;
    Ok(CodeItem { params: 1, body })
}

/// `f`, and `main { async { let x = f(4); offer x; } offer 10; }`
pub(crate) fn finish_in_function_in_async(alloc: Global) -> Result<CodeTree, AllocError> {
    let args = exprs(alloc, vec![in alloc; number(4)]?)?;
    let body = block(alloc, vec![in alloc; call(4, 0, args), offer(4, var(0))]?)?;
    let stmts = vec![in alloc; start(4, body), offer(5, number(10))]?;
    with_function(alloc, adding(alloc)?, stmts)
}

/// `f`, and `main { let s = finish sum { let x = f(2); offer x; } offer s; }`
pub(crate) fn call_in_finish(alloc: Global) -> Result<CodeTree, AllocError> {
    let args = exprs(alloc, vec![in alloc; number(2)]?)?;
    let body = block(alloc, vec![in alloc; call(4, 0, args), offer(4, var(0))]?)?;
    let stmts = vec![in alloc; collect(4, Collect::Sum, body), offer(5, var(0))]?;
    with_function(alloc, adding(alloc)?, stmts)
}

/// `function d(n) { if n { let x = d(n - 1); return x + 1; } return 0; }`, with the call at line 2.
pub(crate) fn depth(alloc: Global) -> Result<CodeTree, AllocError> {
    let less = both(alloc, var(0), BinOp::Sub, number(1))?;
    let args = exprs(alloc, vec![in alloc; less]?)?;
    let more = both(alloc, var(1), BinOp::Add, number(1))?;
    let yes = block(alloc, vec![in alloc; call(2, 0, args), give_back(3, more)]?)?;
    let no = block(alloc, Vec::new(alloc))?;
    let stmts = vec![in alloc; choose(1, var(0), yes, no), give_back(4, number(0))]?;
    let body = block(alloc, stmts)?;
    with_function(alloc, CodeItem { params: 1, body }, Vec::new(alloc))
}

/// `function e(n) { if n { let s = finish sum { let x = e(n - 1); offer x; } return s + 1; } return 0; }`,
/// with the call at line 2.
pub(crate) fn depth_of_finishes(alloc: Global) -> Result<CodeTree, AllocError> {
    let less = both(alloc, var(0), BinOp::Sub, number(1))?;
    let args = exprs(alloc, vec![in alloc; less]?)?;
    let inner = block(alloc, vec![in alloc; call(2, 0, args), offer(2, var(1))]?)?;
    let more = both(alloc, var(1), BinOp::Add, number(1))?;
    let stmts = vec![in alloc; collect(1, Collect::Sum, inner), give_back(3, more)]?;
    let yes = block(alloc, stmts)?;
    let no = block(alloc, Vec::new(alloc))?;
    let stmts = vec![in alloc; choose(1, var(0), yes, no), give_back(4, number(0))]?;
    let body = block(alloc, stmts)?;
    with_function(alloc, CodeItem { params: 1, body }, Vec::new(alloc))
}

/// `function g(n) { let s = 0; for i = 0 to n { s = s + i; if i == 3 { return s; } } return 0 - 1; }`
pub(crate) fn return_from_loop(alloc: Global) -> Result<CodeTree, AllocError> {
    let sum = both(alloc, var(1), BinOp::Add, var(2))?;
    let test = both(alloc, var(2), BinOp::Eq, number(3))?;
    let yes = of_one(alloc, give_back(4, var(1)))?;
    let no = block(alloc, Vec::new(alloc))?;
    let stmts = vec![in alloc; assign(3, 1, sum), choose(4, test, yes, no)]?;
    let turns = repeat(2, number(0), var(0), block(alloc, stmts)?);
    let stmts = vec![in alloc; bind(1, number(0)), turns, give_back(5, number(-1))]?;
    let body = block(alloc, stmts)?;
    with_function(alloc, CodeItem { params: 1, body }, Vec::new(alloc))
}

/// `task t() { run u(); } task u() { async { offer 5; } offer 6; } main { run t(); offer 7; }`
pub(crate) fn async_through_tasks(alloc: Global) -> Result<CodeTree, AllocError> {
    let none = exprs(alloc, Vec::new(alloc))?;
    let body = of_one(alloc, run(1, 1, none))?;
    let first = CodeItem { params: 0, body };
    let inner = of_one(alloc, offer(2, number(5)))?;
    let body = block(alloc, vec![in alloc; start(2, inner), offer(2, number(6))]?)?;
    let second = CodeItem { params: 0, body };
    let none = exprs(alloc, Vec::new(alloc))?;
    Ok(program(
        items(alloc, Vec::new(alloc))?,
        items(alloc, vec![in alloc; first, second]?)?,
        block(alloc, vec![in alloc; run(3, 0, none), offer(3, number(7))]?)?,
    ))
}

/// `task r(n) { async { if n { run r(n - 1); } else { offer 1; } } } main { run r(NUMBER); }`, with the
/// inner call at line 2.
pub(crate) fn deep_asyncs(alloc: Global, times: i64) -> Result<CodeTree, AllocError> {
    let less = both(alloc, var(0), BinOp::Sub, number(1))?;
    let yes = of_one(alloc, run(2, 0, exprs(alloc, vec![in alloc; less]?)?))?;
    let no = of_one(alloc, offer(3, number(1)))?;
    let inner = of_one(alloc, choose(1, var(0), yes, no))?;
    let body = of_one(alloc, start(1, inner))?;
    let again = CodeItem { params: 1, body };
    let args = exprs(alloc, vec![in alloc; number(times)]?)?;
    Ok(program(
        items(alloc, Vec::new(alloc))?,
        items(alloc, vec![in alloc; again]?)?,
        of_one(alloc, run(4, 0, args))?,
    ))
}

/// `main { let t = finish KIND { } offer t; }`
pub(crate) fn awaits_gift(alloc: Global, kind: Collect) -> Result<CodeTree, AllocError> {
    let body = block(alloc, Vec::new(alloc))?;
    alone(
        alloc,
        vec![in alloc; collect(1, kind, body), offer(2, var(0))]?,
    )
}

/// `main { finish { } offer 1; }`
pub(crate) fn awaits_nothing(alloc: Global) -> Result<CodeTree, AllocError> {
    let body = block(alloc, Vec::new(alloc))?;
    alone(alloc, vec![in alloc; finish(1, body), offer(2, number(1))]?)
}

/// `main { async { let t = finish least { } offer t; } offer 1; }`
pub(crate) fn awaits_in_async(alloc: Global) -> Result<CodeTree, AllocError> {
    let body = block(alloc, Vec::new(alloc))?;
    let stmts = vec![in alloc; collect(1, Collect::Least, body), offer(2, var(0))]?;
    let inner = block(alloc, stmts)?;
    alone(alloc, vec![in alloc; start(1, inner), offer(3, number(1))]?)
}

/// `main { let a = finish sum { let t = finish greatest { } offer t; } offer a + 1; }`
pub(crate) fn awaits_in_finish(alloc: Global) -> Result<CodeTree, AllocError> {
    let body = block(alloc, Vec::new(alloc))?;
    let stmts = vec![in alloc; collect(1, Collect::Greatest, body), offer(2, var(0))]?;
    let inner = block(alloc, stmts)?;
    let more = both(alloc, var(0), BinOp::Add, number(1))?;
    alone(
        alloc,
        vec![in alloc; collect(1, Collect::Sum, inner), offer(3, more)]?,
    )
}
