// Names and blocks of a checked program become numbers.

use spd_check::{Code, check};
use spd_code::{CodeExpr, CodeStmtKind};
use spd_parse::parse;
use spd_syntax::lex;
use std::alloc::Global;
use std::test::Fail;

/// The code of a text that spells a program without faults.
fn code_of(alloc: Global, text: &[u8]) -> Result<Code, Fail> {
    let tokens = lex(alloc, text)?;
    let program = parse(alloc, text, tokens.as_slice())?;
    Ok(check(alloc, program)?)
}

#[test]
fn names_are_places_and_numbers(rt: HostRuntime) -> Result<(), Fail> {
    let text = b"fn f(a) { return a; }\nfn g(a, b) { let c = f(b); return c; }\nmain { }";
    let code = code_of(rt.alloc(), text)?;
    let functions = &code.tree().functions;
    assert_eq!(rt; functions.len(), 2);
    let g = functions.get(1);
    assert_eq!(rt; g.params, 2);
    let stmts = &g.body.stmts;
    assert_eq!(rt; stmts.len(), 2);
    let CodeStmtKind::LetCall { callee, args } = &stmts.get(0).what else {
        panic!(rt; "no call");
    };
    assert_eq!(rt; *callee, 0);
    assert_eq!(rt; args.len(), 1);
    assert!(rt; matches!(args.get(0), CodeExpr::Var(1)));
    assert!(rt;
        matches!(
            &stmts.get(1).what,
            CodeStmtKind::Return {
                value: CodeExpr::Var(2)
            }
        )
    );
    Ok(())
}

#[test]
fn blocks_are_numbered_by_their_braces(rt: HostRuntime) -> Result<(), Fail> {
    let text = b"task t() { }\nmain { if 1 { } else { } if 1 { } else { print 1; } }";
    let code = code_of(rt.alloc(), text)?;
    let main = &code.tree().main;
    assert_eq!(rt; main.number, Some(1));
    assert_eq!(rt; main.stmts.len(), 2);
    let CodeStmtKind::If { yes, no, .. } = &main.stmts.get(0).what else {
        panic!(rt; "no if");
    };
    assert_eq!(rt; yes.number, Some(2));
    assert_eq!(rt; no.number, None);
    let CodeStmtKind::If { yes, no, .. } = &main.stmts.get(1).what else {
        panic!(rt; "no if");
    };
    assert_eq!(rt; yes.number, Some(3));
    assert_eq!(rt; no.number, Some(4));
    Ok(())
}

#[test]
fn the_program_is_kept(rt: HostRuntime) -> Result<(), Fail> {
    let code = code_of(rt.alloc(), b"\nmain { }")?;
    assert_eq!(rt; code.program().items.len(), 1);
    assert_eq!(rt; code.program().last_line, 2);
    Ok(())
}
