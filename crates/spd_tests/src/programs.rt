// What programs print, and the faults with which they end.

use crate::finish_rows::{FINISH_ROWS, FinishRow};
use crate::serving::{expect_prints, expect_run_fault};
use std::alloc::AllocError;
use std::process::Abort;
use std::test::Fail;

/// Programs that begin with no finish, with what they print.
static PRINTS: [(&[u8], &[u8]); 22] = [
    (b"main { }", b""),
    (b"main { print \"n=\", 1+2; }", b"n=3\n"),
    (b"main { print 7, 8; print 9; }", b"78\n9\n"),
    (b"main { print (1); }", b"1\n"),
    (b"main { print 1+(2+3), \" \", ((1+2)+(3)); }", b"6 6\n"),
    (b"main{let x=1;let y=x+x+x;print y,x;}", b"31\n"),
    (b"main { let X = 1; let x = 2; print x; }", b"2\n"),
    (b"main { let mainly = 5; print mainly; }", b"5\n"),
    (
        b"main { let format = 1; let int1 = 2; let _if = 3; print format, int1, _if; }",
        b"123\n",
    ),
    (b"main { print 1; } #", b"1\n"),
    (b"main { print 1; }# 2", b"1\n"),
    (
        b"main { print 9223372036854775807 + 1; }",
        b"-9223372036854775808\n",
    ),
    (
        b"main { print 0009223372036854775807; }",
        b"9223372036854775807\n",
    ),
    (b"main { print \"\"; print \"\", \"\"; }", b"\n\n"),
    (b"main { print \"a\\\"b\\\\c\"; }", b"a\"b\\c\n"),
    (b"main { print \" ~\", \"1; }#\"; }", b" ~1; }#\n"),
    (b"main {\r\n\tprint 1;\r\n}\r\n", b"1\n"),
    (b"# \xff\nmain { # print 2; \"\n print 1; } # end", b"1\n"),
    // Blocks see the values of their place, and what they bind stays in them.
    (
        b"main { let x = 1; let s = finish sum { let y = x + 1; async { let z = y + 1; offer z; } offer y; } print s, x; }",
        b"51\n",
    ),
    (
        b"main { let a = 1; finish { let b = 2; async { let c = 3; } } let b = 20; print a, b; }",
        b"120\n",
    ),
    (
        b"main { let a = 1; let b = finish sum { let c = 2; offer a + c; } let d = finish sum { offer a + b; } print a, b, d; }",
        b"134\n",
    ),
    // Prints between finishes.
    (
        b"main { print 1; let s = finish sum { offer 2; } print s; finish { } print 3; }",
        b"1\n2\n3\n",
    ),
];

/// Programs of the whole language, with what they print.
static LANGUAGE: [(&[u8], &[u8]); 20] = [
    // Operators.
    (
        b"main { print 7 / 2, \" \", -7 / 2, \" \", 7 % -2, \" \", -7 % 2; }",
        b"3 -3 1 -1\n",
    ),
    (
        b"main { let m = -9223372036854775807 - 1; print m / -1, \" \", m % -1, \" \", -m; }",
        b"-9223372036854775808 0 -9223372036854775808\n",
    ),
    (
        b"main { print 10 - 3 - 2, 2 + 3 * 4, (2 + 3) * 4; }",
        b"51420\n",
    ),
    (
        b"main { print 1 < 2, 2 <= 1, 2 > 1, 1 >= 2, 3 == 3, 3 != 3; }",
        b"101010\n",
    ),
    (
        b"main { print 5 && 7, 0 && 7, 0 || 9, 0 || 0, !0, !5; }",
        b"101010\n",
    ),
    (b"main { print 0 && 1 / 0, 1 || 1 / 0; }", b"01\n"),
    // Branches and loops.
    (
        b"main { if 2 { print 1; } else { print 2; } if 0 { print 3; } if 0 { } else { print 4; } }",
        b"1\n4\n",
    ),
    (
        b"main { for i in 0..3 { print i; i = i + 10; print i; } }",
        b"0\n10\n1\n11\n2\n12\n",
    ),
    (
        b"main { for i in 3..3 { print i; } for j in 3..1 { print j; } print 9; }",
        b"9\n",
    ),
    (
        b"main { let n = 2; for i in 0..n { n = n + 5; } print n; }",
        b"12\n",
    ),
    (
        b"main { let s = 0; for i in -2..3 { if i > 0 { s = s + i; } } print s; }",
        b"3\n",
    ),
    // Functions and tasks.
    (
        b"fn f(a, b) { return a - b; } main { let x = f(5, 3); let y = f(3, 5); print x, y; }",
        b"2-2\n",
    ),
    (
        b"fn fib(n) { if n < 2 { return n; } let a = fib(n - 1); let b = fib(n - 2); return a + b; } main { let x = fib(15); print x; }",
        b"610\n",
    ),
    (
        b"fn f(n) { for i in 0..n { if i * i > n { return i; } } return -1; } main { let a = f(10); let b = f(0); print a, \" \", b; }",
        b"4 -1\n",
    ),
    (
        b"fn f(a) { a = a + 1; return a; } main { let a = 1; let b = f(a); print a, b; }",
        b"12\n",
    ),
    (
        b"task t(n) { if n > 0 { async { run t(n - 1); } offer n; } } main { let s = finish sum { run t(4); } print s; }",
        b"10\n",
    ),
    (
        b"fn f(n) { let s = finish sum { for i in 0..n { async { offer i * i; } } } return s; } main { let x = f(4); print x; }",
        b"14\n",
    ),
    // A block of its own has a copy of the variables.
    (
        b"main { let x = 1; finish { let y = x; y = 5; async { let z = y + x; } } print x; }",
        b"1\n",
    ),
    // 256 calls may be open.
    (
        b"fn d(n) { if n == 0 { return 0; } let x = d(n - 1); return x + 1; } main { let x = d(255); print x; }",
        b"255\n",
    ),
    // An offer to a plain finish counts for nothing.
    (
        b"task t() { offer 1; } main { finish { run t(); offer 2; } print 3; }",
        b"3\n",
    ),
];

/// A program that ends with a fault, what it prints before, and the fault as it is told.
type RunFaultRow = (&'static [u8], &'static [u8], &'static str);

static RUN_FAULTS: [RunFaultRow; 15] = [
    // Each operator that divides.
    (
        b"main {\n print 1;\n print 1 / 0;\n print 2;\n}",
        b"1\n",
        "3: division by zero",
    ),
    (b"main {\n print 5 % 0;\n}", b"", "2: division by zero"),
    // A print writes nothing where a part of it faults.
    (b"main { print 1,\n 2 / 0; }", b"", "1: division by zero"),
    (
        b"main {\n let x = 0;\n if\n 1 / x { }\n}",
        b"",
        "3: division by zero",
    ),
    (
        b"main {\n for i in 0..1 / 0 { print i; }\n}",
        b"",
        "2: division by zero",
    ),
    (
        b"main {\n for i in -1..2 {\n  print 6 / i;\n }\n}",
        b"-6\n",
        "3: division by zero",
    ),
    // The line is that of the statement that faults, also in a call.
    (
        b"fn f(n) {\n return 1 / n;\n}\nmain {\n print 1;\n let x = f(0);\n print x;\n}",
        b"1\n",
        "2: division by zero",
    ),
    (
        b"fn f(n) { return n; }\nmain {\n let x = f(1 / 0);\n}",
        b"",
        "3: division by zero",
    ),
    // A finish faults with the least of the codes that it got, at its end.
    (
        b"main { finish {\n async { let a = 1 / 0; }\n let b = 1 / 0;\n}\nprint 1; }",
        b"",
        "2: division by zero",
    ),
    (
        b"main { print 1; finish {\n async {\n let a = 1 / 0; } async {\n let b = 1 / 0; }\n} print 2; }",
        b"1\n",
        "3: division by zero",
    ),
    (
        b"main { let s = finish sum { finish {\n async { let a = 1 / 0; } }\n offer 1;\n}\nprint s; }",
        b"",
        "2: division by zero",
    ),
    // Calls too deep.
    (
        b"fn d(n) {\n if n == 0 { return 0; }\n let x = d(n - 1);\n return x + 1;\n}\nmain { print 1; let x = d(256); print x; }",
        b"1\n",
        "3: calls too deep",
    ),
    (
        b"task t() {\n run t();\n}\nmain { finish { run t(); } }",
        b"",
        "2: calls too deep",
    ),
    (
        b"task t(n) { async { if n == 0 { let x = 1 / 0; } else {\n run t(n - 1); } } }\nmain { finish { run t(256); } }",
        b"",
        "2: calls too deep",
    ),
    // The arguments come before the depth.
    (
        b"fn d(n) {\n let x = d(n + 1 + 0 / (255 - n));\n return x;\n}\nmain { let x = d(0); }",
        b"",
        "2: division by zero",
    ),
];

/// Asserts what programs print.
fn expect_all_print(
    rt: &(impl Abort + AllocGlobal),
    rows: &[(&'static [u8], &'static [u8])],
) -> Result<(), AllocError> {
    for (text, prints) in rows {
        expect_prints(rt, text, prints)?;
    }
    Ok(())
}

/// Asserts what programs print that begin with a finish.
fn expect_finishes_print(
    rt: &(impl Abort + AllocGlobal),
    rows: &[FinishRow],
) -> Result<(), AllocError> {
    for row in rows {
        expect_prints(rt, row.text, row.prints)?;
    }
    Ok(())
}

/// Asserts with what faults programs end.
fn expect_all_fault(
    rt: &(impl Abort + AllocGlobal),
    rows: &[RunFaultRow],
) -> Result<(), AllocError> {
    for (text, prints, fault) in rows {
        expect_run_fault(rt, text, prints, fault)?;
    }
    Ok(())
}

#[test]
fn programs_print(rt: HostRuntime) -> Result<(), Fail> {
    expect_all_print(&rt, &PRINTS)?;
    expect_finishes_print(&rt, &FINISH_ROWS)?;
    expect_all_print(&rt, &LANGUAGE)?;
    Ok(())
}

#[test]
fn faults_of_runs_are_told(rt: HostRuntime) -> Result<(), Fail> {
    expect_all_fault(&rt, &RUN_FAULTS)?;
    Ok(())
}
