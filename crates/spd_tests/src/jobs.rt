// The job of the finish with which a program begins, which each way runs.

use spd_check::Code;
use spd_code::{CodeBlock, CodeStmtKind};
use spd_level::kind_of;
use spd_machine::{Job, JobBody};
use spd_top::build;
use spd_words::FinishKind;
use std::alloc::Global;
use std::process::Abort;

/// The code of a text that spells a program.
pub(crate) fn code_of(rt: &(impl Abort + AllocGlobal), text: &[u8]) -> Code {
    match build(rt.alloc(), text) {
        Ok(code) => code,
        Err(error) => panic!(rt; "{error:?} of {text:?}"),
    }
}

/// A finish of this kind over no values, as main meets it.
fn job_of<'a>(alloc: Global, kind: FinishKind, block: &'a CodeBlock) -> Job<'a> {
    let body = JobBody::Block {
        block,
        left: 256,
        vars: Vec::new(alloc),
    };
    Job { kind, body }
}

/// The job of the finish with which main begins.
pub(crate) fn first_job<'a>(rt: &(impl Abort + AllocGlobal), code: &'a Code) -> Job<'a> {
    let stmts = &code.tree().main.stmts;
    if stmts.is_empty() {
        panic!(rt; "main is empty");
    }
    match &stmts.get(0).what {
        CodeStmtKind::LetFinish { kind, body } => job_of(rt.alloc(), kind_of(*kind), body),
        CodeStmtKind::Finish { body } => job_of(rt.alloc(), FinishKind::Plain, body),
        _ => panic!(rt; "main begins with no finish"),
    }
}
