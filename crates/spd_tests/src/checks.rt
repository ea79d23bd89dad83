// What the checks tell: the first fault with its line, or else the canonical text.

use crate::serving::{expect_check, expect_fault};
use std::alloc::AllocError;
use std::process::Abort;
use std::test::Fail;

/// A program, and the first fault of its checks as it is told.
type CheckRow = (&'static [u8], &'static str);

/// Each of these is told alike by both commands.
static CHECKS: [CheckRow; 66] = [
    (b"main {\n print 1;\n print y;\n}", "3: Unknown"),
    (b"main {\n let x = x;\n}", "2: Unknown"),
    (
        b"main {\n finish {\n  let y = 1;\n }\n print y;\n}",
        "5: Unknown",
    ),
    (
        b"main {\n finish {\n  async {\n   let y = 1;\n  }\n  offer y;\n }\n}",
        "6: Unknown",
    ),
    (
        b"main {\n let x = finish sum {\n  offer x;\n }\n}",
        "3: Unknown",
    ),
    (b"main {\n let x = 1;\n let x = 2;\n}", "3: Twice"),
    (
        b"main {\n let x = 1;\n finish {\n  let x = 2;\n }\n}",
        "4: Twice",
    ),
    (
        b"main {\n let x = 1;\n let x = finish sum { }\n}",
        "3: Twice",
    ),
    (b"main {\n async { }\n}", "2: AsyncOutside"),
    (b"main {\n offer 1;\n}", "2: OfferOutside"),
    (b"main {\n finish {\n  print 1;\n }\n}", "3: PrintPlace"),
    (
        b"main {\n finish {\n  async {\n   print 1;\n  }\n }\n}",
        "4: PrintPlace",
    ),
    (
        b"main {\n let s = finish sum {\n  print 1;\n }\n}",
        "3: PrintPlace",
    ),
    // At one statement the place comes first, then the expressions, then a block, then the name.
    (b"main {\n offer y;\n}", "2: OfferOutside"),
    (b"main {\n async {\n  offer y;\n }\n}", "2: AsyncOutside"),
    (b"main {\n finish {\n  print y;\n }\n}", "3: PrintPlace"),
    (b"main {\n let x = 1;\n let x = y;\n}", "3: Unknown"),
    (
        b"main {\n let x = 1;\n let x = finish sum {\n  offer y;\n }\n}",
        "4: Unknown",
    ),
    // The first of two faults.
    (b"main {\n print y;\n offer 1;\n}", "2: Unknown"),
    // A main too many or a missing one comes before the statements.
    (b"", "1: NoMain"),
    (b"\n\n# end\n", "1: NoMain"),
    (b"\nmain { offer x; }", "2: OfferOutside"),
    (b"\nmain { offer x; }\n\nmain { offer x; }", "4: Twice"),
    (
        b"\nmain { offer x; }\n\nmain { }\n\nmain { offer x; }",
        "4: Twice",
    ),
    (b"fn f() { }\nmain { }\ntask t() { }\nmain { }", "4: Twice"),
    (b"fn f() { }\ntask t() {\n}\n", "3: NoMain"),
    // Faults of functions stand in their place among those of main.
    (b"fn f() { }\nmain { }", "1: NoReturn"),
    (b"main { }\nfn f() { }", "2: NoReturn"),
    (b"main { print y; }\nfn f() { }", "1: Unknown"),
    (b"fn f() { }\nmain { print y; }", "1: NoReturn"),
    (b"main {\n x = 1;\n}", "2: Unknown"),
    (b"main {\n let x = f(y);\n}", "2: Unknown"),
    (b"main {\n if y {\n print y;\n }\n}", "2: Unknown"),
    (
        b"main {\n finish {\n return 1;\n print 1;\n }\n}",
        "3: ReturnPlace",
    ),
    (b"main {\n print y - 1;\n}", "2: Unknown"),
    (b"main {\n print 1 - y;\n}", "2: Unknown"),
    (b"main {\n print 1 + (2 + -y);\n}", "2: Unknown"),
    (b"main {\n print \"a\", c[y];\n}", "2: Unknown"),
    (b"main {\n offer 1 * 2;\n}", "2: OfferOutside"),
    (b"main {\n let x = 1;\n let x = 1 < 2;\n}", "3: Twice"),
    // Calls: the place, then the name and its arity, then the expressions.
    (b"main {\n run t(y);\n}", "2: AsyncOutside"),
    (b"main {\n finish {\n  run t(y);\n }\n}", "3: Unknown"),
    (
        b"fn t() { return 1; }\nmain {\n finish {\n  run t();\n }\n}",
        "4: Unknown",
    ),
    (b"task f() { }\nmain {\n let x = f();\n}", "3: Unknown"),
    (
        b"fn f(a) { return a; }\nmain {\n let x = f(y, 1);\n}",
        "3: Arity",
    ),
    (
        b"fn f(a) { return a; }\nmain {\n let x = 1;\n let x = f(y);\n}",
        "4: Unknown",
    ),
    (
        b"task t(a) { }\nmain { finish {\n run t();\n} }",
        "3: Arity",
    ),
    // Names of parameters and of loops come before their blocks, and that of an assignment last.
    (
        b"main { }\nfn f(a,\na) {\n print 1;\n return 1;\n}",
        "2: Twice",
    ),
    (
        b"main {\n let i = 1;\n for i in 0..3 {\n  print y;\n }\n}",
        "3: Twice",
    ),
    (
        b"main {\n let i = 1;\n for i in 0..y {\n }\n}",
        "3: Unknown",
    ),
    (
        b"main {\n let x = 1;\n finish {\n  x = y;\n }\n}",
        "4: Unknown",
    ),
    (
        b"main {\n let x = 1;\n finish {\n  x = 2;\n }\n}",
        "4: AssignOuter",
    ),
    (
        b"main { finish {\n let x = 1;\n async {\n  if 1 {\n   x = 2;\n  }\n } } }",
        "5: AssignOuter",
    ),
    // Places.
    (b"fn f() {\n print 1;\n}\nmain { }", "2: PrintPlace"),
    (b"task t() {\n return 1;\n}\nmain { }", "2: ReturnPlace"),
    (
        b"fn f() {\n offer 1;\n return 1;\n}\nmain { }",
        "2: OfferOutside",
    ),
    // A block that returns ends in a return, or in two blocks that do.
    (
        b"main { }\nfn f(a) {\n if a { return 1; }\n}",
        "2: NoReturn",
    ),
    (
        b"main { }\nfn f(a) {\n if a { return 1; } else { for i in 0..3 { return 2; } }\n}",
        "2: NoReturn",
    ),
    (
        b"main { }\nfn f(a) {\n return 1;\n let x = 1;\n}",
        "2: NoReturn",
    ),
    (b"main { }\nfn f() {\n offer 1;\n}", "3: OfferOutside"),
    // Items of one name.
    (b"main { }\nfn f() { return 1; }\ntask f() { }", "3: Twice"),
    (
        b"column c: int from \"a\" field \"b\";\nlines c from \"a\";\nmain { }",
        "2: Twice",
    ),
    // Columns.
    (
        b"column c: text from \"a\" field \"b\"; main {\n print c[y];\n}",
        "2: ColumnKind",
    ),
    (
        b"lines c from \"a\"; main {\n print c[0];\n}",
        "2: ColumnKind",
    ),
    (
        b"column c: int from \"a\" field \"b\"; main {\n print size(c, 0);\n}",
        "2: ColumnKind",
    ),
    (b"main {\n print len(c);\n}", "2: Unknown"),
];

/// Programs and their canonical texts.
static CANONICAL: [(&[u8], &[u8]); 15] = [
    (
        b"main{let x=1;print x,\"a\" ;}",
        b"main {\n  let x = 1;\n  print x, \"a\";\n}\n",
    ),
    (b"main { }", b"main {\n}\n"),
    (b"# one\nmain {\n\n}\n# two", b"main {\n}\n"),
    (
        b"main { print 007 , ( 1 ) ; }",
        b"main {\n  print 7, 1;\n}\n",
    ),
    (
        b"main { print (1+2)*3-(4-5); }",
        b"main {\n  print (1 + 2) * 3 - (4 - 5);\n}\n",
    ),
    (
        b"main { print (1*2)+3, -(1), !(-1); }",
        b"main {\n  print 1 * 2 + 3, -1, !(-1);\n}\n",
    ),
    (
        b"main { print (1<2)==(3), (1&&2)||3; }",
        b"main {\n  print (1 < 2) == 3, 1 && 2 || 3;\n}\n",
    ),
    (
        b"main { if 1 { } else { } if 0 { } else { print 1; } }",
        b"main {\n  if 1 {\n  }\n  if 0 {\n  } else {\n    print 1;\n  }\n}\n",
    ),
    (
        b"main { for i in 0 .. 2+1 { print i; } }",
        b"main {\n  for i in 0..2 + 1 {\n    print i;\n  }\n}\n",
    ),
    (
        b"fn f ( a,b ) { return a; } main { let x = f(1,2); }",
        b"fn f(a, b) {\n  return a;\n}\nmain {\n  let x = f(1, 2);\n}\n",
    ),
    (
        b"task t(){async{}} main{finish{run t();}}",
        b"task t() {\n  async {\n  }\n}\nmain {\n  finish {\n    run t();\n  }\n}\n",
    ),
    (
        b"main{let s=finish least{offer 1;}}",
        b"main {\n  let s = finish least {\n    offer 1;\n  }\n}\n",
    ),
    // Columns, and what faults where it runs.
    (
        b"column c:int from\"a\"field\"b\";main{print c[0];}",
        b"column c: int from \"a\" field \"b\";\nmain {\n  print c[0];\n}\n",
    ),
    (
        b"lines l from \"a\"; main{print at( l , 0 , 1 );}",
        b"lines l from \"a\";\nmain {\n  print at(l, 0, 1);\n}\n",
    ),
    (b"main { print 1/0; }", b"main {\n  print 1 / 0;\n}\n"),
];

fn expect_check_faults(
    rt: &(impl Abort + AllocGlobal),
    rows: &[CheckRow],
) -> Result<(), AllocError> {
    for (text, fault) in rows {
        expect_fault(rt, text, fault)?;
    }
    Ok(())
}

fn expect_canonical(
    rt: &(impl Abort + AllocGlobal),
    rows: &[(&'static [u8], &'static [u8])],
) -> Result<(), AllocError> {
    for (text, canonical) in rows {
        expect_check(rt, text, (canonical, b"", 0))?;
        // It is its own canonical text.
        expect_check(rt, canonical, (canonical, b"", 0))?;
    }
    Ok(())
}

#[test]
fn the_first_fault_of_the_checks_is_told(rt: HostRuntime) -> Result<(), Fail> {
    expect_check_faults(&rt, &CHECKS)?;
    Ok(())
}

#[test]
fn check_puts_the_canonical_text(rt: HostRuntime) -> Result<(), Fail> {
    expect_canonical(&rt, &CANONICAL)?;
    Ok(())
}
