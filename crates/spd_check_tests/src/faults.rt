// The first fault of a program's checks, with its line.

use spd_check::{CheckKind, check};
use spd_parse::parse;
use spd_syntax::lex;
use std::alloc::Global;
use std::process::Abort;
use std::test::Fail;

/// A program, and the first fault of its checks with its line, if it has one.
pub(crate) type Row = (&'static [u8], Option<(u32, CheckKind)>);

/// Each kind of fault, at each kind of statement that may have it.
static KINDS: [Row; 52] = [
    // a variable, a column, a function or a task that isn't there
    (
        b"main {\n print 1;\n print y;\n}",
        Some((3, CheckKind::Unknown)),
    ),
    (b"main {\n let x = x;\n}", Some((2, CheckKind::Unknown))),
    (b"main {\n x = 1;\n}", Some((2, CheckKind::Unknown))),
    (
        b"main {\n finish {\n  let y = 1;\n }\n print y;\n}",
        Some((5, CheckKind::Unknown)),
    ),
    (
        b"main {\n if 1 {\n  let y = 1;\n } else {\n  print y;\n }\n}",
        Some((5, CheckKind::Unknown)),
    ),
    (
        b"main {\n for i in 0..2 {\n }\n print i;\n}",
        Some((4, CheckKind::Unknown)),
    ),
    (
        b"main {\n for i in 0..i {\n }\n}",
        Some((2, CheckKind::Unknown)),
    ),
    (
        b"main {\n let x = finish sum {\n  offer x;\n }\n}",
        Some((3, CheckKind::Unknown)),
    ),
    (
        b"fn f(a) {\n return b;\n}\nmain { }",
        Some((2, CheckKind::Unknown)),
    ),
    (
        b"fn f(a) { return a; }\nmain {\n print a;\n}",
        Some((3, CheckKind::Unknown)),
    ),
    (b"main {\n print len(c);\n}", Some((2, CheckKind::Unknown))),
    (b"main {\n print c[0];\n}", Some((2, CheckKind::Unknown))),
    (
        b"fn c() { return 1; }\nmain {\n print len(c);\n}",
        Some((3, CheckKind::Unknown)),
    ),
    (b"main {\n let x = f();\n}", Some((2, CheckKind::Unknown))),
    (
        b"task f() { }\nmain {\n let x = f();\n}",
        Some((3, CheckKind::Unknown)),
    ),
    (
        b"fn t() { return 1; }\nmain {\n finish {\n  run t();\n }\n}",
        Some((4, CheckKind::Unknown)),
    ),
    // a name twice
    (
        b"main {\n let x = 1;\n let x = 2;\n}",
        Some((3, CheckKind::Twice)),
    ),
    (
        b"main {\n let x = 1;\n finish {\n  let x = 2;\n }\n}",
        Some((4, CheckKind::Twice)),
    ),
    (
        b"main {\n let x = 1;\n let x = finish sum { }\n}",
        Some((3, CheckKind::Twice)),
    ),
    (
        b"fn f() { return 1; }\nmain {\n let x = f();\n let x = f();\n}",
        Some((4, CheckKind::Twice)),
    ),
    (
        b"main {\n let i = 1;\n for i in 0..2 {\n }\n}",
        Some((3, CheckKind::Twice)),
    ),
    (
        b"fn f(a) {\n let a = 1;\n return a;\n}\nmain { }",
        Some((2, CheckKind::Twice)),
    ),
    (
        b"\nfn f(a,\n a) { return 1; }\nmain { }",
        Some((2, CheckKind::Twice)),
    ),
    (
        b"\ntask t(a, b, a) { }\nmain { }",
        Some((2, CheckKind::Twice)),
    ),
    (
        b"lines c from \"a\";\ncolumn c: int from \"a\" field \"b\";\nmain { }",
        Some((2, CheckKind::Twice)),
    ),
    (
        b"fn f() { return 1; }\nmain { }\ntask f() { }",
        Some((3, CheckKind::Twice)),
    ),
    (
        b"main { }\nfn f() { return 1; }\nmain { }",
        Some((3, CheckKind::Twice)),
    ),
    // another number of arguments
    (
        b"fn f(a) { return a; }\nmain {\n let x = f();\n}",
        Some((3, CheckKind::Arity)),
    ),
    (
        b"fn f(a) { return a; }\nmain {\n let x = f(1, 2);\n}",
        Some((3, CheckKind::Arity)),
    ),
    (
        b"task t() { }\nmain {\n finish {\n  run t(1);\n }\n}",
        Some((4, CheckKind::Arity)),
    ),
    // outside a finish, an async and a task
    (b"main {\n async { }\n}", Some((2, CheckKind::AsyncOutside))),
    (
        b"task t() { }\nmain {\n run t();\n}",
        Some((3, CheckKind::AsyncOutside)),
    ),
    (
        b"fn f() {\n async { }\n return 1;\n}\nmain { }",
        Some((2, CheckKind::AsyncOutside)),
    ),
    (b"main {\n offer 1;\n}", Some((2, CheckKind::OfferOutside))),
    (
        b"fn f() {\n if 1 {\n  offer 1;\n }\n return 1;\n}\nmain { }",
        Some((3, CheckKind::OfferOutside)),
    ),
    // a print outside main, or in a finish or async block
    (
        b"main {\n finish {\n  print 1;\n }\n}",
        Some((3, CheckKind::PrintPlace)),
    ),
    (
        b"main {\n finish {\n  async {\n   print 1;\n  }\n }\n}",
        Some((4, CheckKind::PrintPlace)),
    ),
    (
        b"fn f() {\n print 1;\n return 1;\n}\nmain { }",
        Some((2, CheckKind::PrintPlace)),
    ),
    (
        b"task t() {\n print 1;\n}\nmain { }",
        Some((2, CheckKind::PrintPlace)),
    ),
    // a return outside a function, or in a finish or async block
    (b"main {\n return 1;\n}", Some((2, CheckKind::ReturnPlace))),
    (
        b"task t() {\n return 1;\n}\nmain { }",
        Some((2, CheckKind::ReturnPlace)),
    ),
    (
        b"fn f() {\n finish {\n  return 1;\n }\n return 1;\n}\nmain { }",
        Some((3, CheckKind::ReturnPlace)),
    ),
    // an outer variable that is assigned
    (
        b"main {\n let x = 1;\n finish {\n  x = 2;\n }\n}",
        Some((4, CheckKind::AssignOuter)),
    ),
    (
        b"main {\n finish {\n  let x = 1;\n  async {\n   x = 2;\n  }\n }\n}",
        Some((5, CheckKind::AssignOuter)),
    ),
    (
        b"fn f(a) {\n finish {\n  a = 2;\n }\n return a;\n}\nmain { }",
        Some((3, CheckKind::AssignOuter)),
    ),
    (
        b"main {\n for i in 0..2 {\n  finish {\n   i = 2;\n  }\n }\n}",
        Some((4, CheckKind::AssignOuter)),
    ),
    // a column of the other kind
    (
        b"column c: text from \"a\" field \"b\";\nmain {\n print c[0];\n}",
        Some((3, CheckKind::ColumnKind)),
    ),
    (
        b"lines c from \"a\";\nmain {\n print c[0];\n}",
        Some((3, CheckKind::ColumnKind)),
    ),
    (
        b"column c: int from \"a\" field \"b\";\nmain {\n print size(c, 0);\n}",
        Some((3, CheckKind::ColumnKind)),
    ),
    (
        b"column c: int from \"a\" field \"b\";\nmain {\n print begins(c, 0, \"x\");\n}",
        Some((3, CheckKind::ColumnKind)),
    ),
    // a missing main, and a function that doesn't return
    (b"\n\n# end\n", Some((1, CheckKind::NoMain))),
    (b"\nfn f() {\n return 1;\n}\n", Some((4, CheckKind::NoMain))),
];

/// Blocks that return, and those that don't.
static RETURNS: [Row; 9] = [
    (b"\nfn f() { }\nmain { }", Some((2, CheckKind::NoReturn))),
    (
        b"\nfn f() { return 1; let x = 1; }\nmain { }",
        Some((2, CheckKind::NoReturn)),
    ),
    (
        b"fn f(a) {\n if a { return 1; }\n}\nmain { }",
        Some((1, CheckKind::NoReturn)),
    ),
    (
        b"fn f(a) {\n if a { return 1; } else { let b = 1; }\n}\nmain { }",
        Some((1, CheckKind::NoReturn)),
    ),
    (
        b"fn f(a) {\n for i in 0..a { return 1; }\n}\nmain { }",
        Some((1, CheckKind::NoReturn)),
    ),
    (
        b"fn f(a) {\n if a { return 1; } else { if a { return 2; } else { return 3; } }\n}\nmain { }",
        None,
    ),
    (
        b"fn f(a) {\n for i in 0..a { if i { return i; } }\n return 0;\n}\nmain { }",
        None,
    ),
    (b"fn f(a) {\n return a;\n return a;\n}\nmain { }", None),
    (
        b"fn f() {\n let s = finish sum { offer 1; }\n return s;\n}\nmain { }",
        None,
    ),
];

/// Programs without faults.
static PASSED: [Row; 14] = [
    (b"main { }", None),
    (b"main { let x = finish sum { let x = 1; offer x; } }", None),
    (
        b"main { finish { let a = 1; } finish { let a = 1; } }",
        None,
    ),
    (
        b"main { if 1 { let a = 1; } else { let a = 2; } for a in 0..1 { } }",
        None,
    ),
    (
        b"main { for i in 0..2 { } for i in 0..2 { i = i + 1; } }",
        None,
    ),
    (
        b"fn x(x) { return x; }\nmain { let x = x(1); print x; }",
        None,
    ),
    (
        b"column c: int from \"a\" field \"b\";\nmain { let c = 1; print c + c[0] + len(c); }",
        None,
    ),
    (
        b"column f: int from \"a\" field \"b\";\nfn f() { return f[0]; }\nmain { }",
        None,
    ),
    (
        b"lines c from \"a\";\nmain { print size(c, 0), at(c, 0, 1), same(c, 0, \"x\"), begins(c, 0, \"\"); }",
        None,
    ),
    (
        b"task t(a) { offer a; async { run t(a); } a = 2; }\nmain { finish { run t(1); } }",
        None,
    ),
    (
        b"main { finish { let x = 1; x = 2; if x { x = 3; } for i in 0..x { x = i; } } }",
        None,
    ),
    (
        b"main { let x = g(); }\nfn g() { let y = f(); return y; }\nfn f() { return 1; }",
        None,
    ),
    (
        b"fn f() { finish { async { offer 1; } } return 1; }\nmain { if 1 { print 1; } for i in 0..2 { print i; } }",
        None,
    ),
    (
        b"fn fib(n) { if n < 2 { return n; } let r = finish sum { async { let a = fib(n - 1); offer a; } let b = fib(n - 2); offer b; } return r; } main { let x = fib(10); print x; }",
        None,
    ),
];

/// The first fault of the checks of a text that spells a program, or none.
fn fault_of(alloc: Global, text: &[u8]) -> Result<Option<(u32, CheckKind)>, Fail> {
    let tokens = lex(alloc, text)?;
    let program = parse(alloc, text, tokens.as_slice())?;
    match check(alloc, program) {
        Ok(_) => Ok(None),
        Err(fault) => Ok(Some((fault.line, fault.kind))),
    }
}

/// Asserts the first fault of each of these programs.
pub(crate) fn expect_faults(rt: &(impl Abort + AllocGlobal), rows: &[Row]) -> Result<(), Fail> {
    for (text, fault) in rows {
        let found = fault_of(rt.alloc(), text)?;
        assert_eq!(rt; found, *fault, "of {text:?}");
    }
    Ok(())
}

#[test]
fn each_kind_of_fault_is_told(rt: HostRuntime) -> Result<(), Fail> {
    expect_faults(&rt, &KINDS)
}

#[test]
fn blocks_that_do_not_return_are_told(rt: HostRuntime) -> Result<(), Fail> {
    expect_faults(&rt, &RETURNS)
}

#[test]
fn programs_without_faults_pass(rt: HostRuntime) -> Result<(), Fail> {
    expect_faults(&rt, &PASSED)
}
