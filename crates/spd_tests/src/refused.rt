// Texts that spell no program within the limits, and programs that are refused.

use crate::serving::{NO_DATA, expect_fault, expect_of};
use std::alloc::AllocError;
use std::process::Abort;
use std::test::Fail;

/// A text, and its first fault as it is told.
type FaultRow = (&'static [u8], &'static str);

/// Texts that can't be cut into tokens.
static LEXED: [FaultRow; 30] = [
    // Bytes that begin no token.
    (b"main { \\ }", "1: BadByte"),
    (b"main { \x7f }", "1: BadByte"),
    (b"main { \xc3\xa9 }", "1: BadByte"),
    (b"main {\n\n @ }", "3: BadByte"),
    (b"main { print 1 & 1; }", "1: BadByte"),
    (b"main { print 1 | 1; }", "1: BadByte"),
    (b"main { print 1 . 1; }", "1: BadByte"),
    (b"main { for i in 1...2 { } }", "1: BadByte"),
    (b"main { # @\n @ }", "2: BadByte"),
    // Bytes that can't stand in a string.
    (b"main { print \"\x7f\"; }", "1: BadByte"),
    (b"main { print \"\xc3\xa9\"; }", "1: BadByte"),
    (b"main {\n print \"a\tb\"; }", "2: BadByte"),
    (b"main { print \"a\r\n\"; }", "1: BadByte"),
    // Strings that aren't closed: the line is that of the quote, the place that where the string stops.
    (b"main { print \"a; }", "1: OpenString"),
    (b"main { print \"a\nb\"; }", "1: OpenString"),
    (b"main { print \"\\\"; }", "1: OpenString"),
    (b"main {\n print \"", "2: OpenString"),
    (b"main {\n print \"a\\\n\"; }", "2: OpenString"),
    (b"main {\n print \"a\\", "2: OpenString"),
    (b"main { print \"a\x01\n\"; }", "1: BadByte"),
    (b"main {\n print \"a\n @ }", "2: OpenString"),
    (b"main {\n @ print \"a\n }", "2: BadByte"),
    // Backslashes.
    (b"main { print \"\\n\"; }", "1: BadEscape"),
    (b"main {\n print \"a\",\n \"\\ \"; }", "3: BadEscape"),
    (b"main { print \"\\\x80\"; }", "1: BadEscape"),
    (b"main { print \"\\q; }", "1: BadEscape"),
    (b"main { print \"\\\\\\q\"; }", "1: BadEscape"),
    // They come before all faults of the grammar, of the limits and of the checks.
    (b"}\n@", "2: BadByte"),
    (b"main { print 9223372036854775808;\n\"", "2: OpenString"),
    (b"main { print y;\n \"\\q\" }", "2: BadEscape"),
];

/// Texts with a token that can't stand where it does.
static EXPECTED: [FaultRow; 99] = [
    // Programs. The end of a text is on the line of its last token.
    (b"main", "1: Expected"),
    (b"main {", "1: Expected"),
    (b"main {\n", "1: Expected"),
    (b"main\n{\n\n", "2: Expected"),
    (b"main {\n # }", "1: Expected"),
    (b"main }", "1: Expected"),
    (b"Main { }", "1: Expected"),
    (b"\n\n{ }", "3: Expected"),
    (b"print 1;", "1: Expected"),
    (b"main { } }", "1: Expected"),
    (b"main { };", "1: Expected"),
    (b"main { }\nmain", "2: Expected"),
    (b"main { { } }", "1: Expected"),
    (b"main() { }", "1: Expected"),
    (b"finish { }", "1: Expected"),
    // Items.
    (b"fn { } main { }", "1: Expected"),
    (b"fn f { } main { }", "1: Expected"),
    (b"fn f( { } main { }", "1: Expected"),
    (b"fn f(a,) { } main { }", "1: Expected"),
    (b"fn f(a b) { } main { }", "1: Expected"),
    (b"fn f(1) { } main { }", "1: Expected"),
    (b"fn f(); main { }", "1: Expected"),
    (b"task t() main { }", "1: Expected"),
    (b"column c int from \"a\" field \"b\";", "1: Expected"),
    (b"column c: fn from \"a\" field \"b\";", "1: Expected"),
    (b"column c: int from a field \"b\";", "1: Expected"),
    (b"column c: int\n from \"a\";", "2: Expected"),
    (
        b"column c: int from \"a\" field \"b\"\nmain { }",
        "2: Expected",
    ),
    (b"lines l from l;", "1: Expected"),
    (b"lines l from \"a\" field \"b\";", "1: Expected"),
    // Statements.
    (b"main { ; }", "1: Expected"),
    (b"main {\n ;\n }", "2: Expected"),
    (b"main {\r\n print 1;\r\n ;\r\n}\r\n", "3: Expected"),
    (b"main { 1; }", "1: Expected"),
    (b"main { x; }", "1: Expected"),
    (b"main { x = ; }", "1: Expected"),
    (b"main { x == 1; }", "1: Expected"),
    (b"main { let x 1; }", "1: Expected"),
    (b"main { let x == 1; }", "1: Expected"),
    (b"main { let x = \"a\"; }", "1: Expected"),
    (b"main { let 1 = 2; }", "1: Expected"),
    (b"main { let if = 2; }", "1: Expected"),
    (b"main { let x = f(1) + 1; }", "1: Expected"),
    (b"main { let x = f(1; }", "1: Expected"),
    (b"main { let x = f(,); }", "1: Expected"),
    (b"main { let x = f(\"a\"); }", "1: Expected"),
    (b"main { print ; }", "1: Expected"),
    (b"main { print 1 }", "1: Expected"),
    (b"main {\n print 1\n}", "3: Expected"),
    (b"main { print 1,; }", "1: Expected"),
    (b"main { print 1 2; }", "1: Expected"),
    (b"main { if 1 print 1; }", "1: Expected"),
    (b"main { if { } }", "1: Expected"),
    (b"main { if 1 { } else if 2 { } }", "1: Expected"),
    (b"main { if 1 { } else; }", "1: Expected"),
    (b"main { else { } }", "1: Expected"),
    (b"main { for i in 0 { } }", "1: Expected"),
    (b"main { for 0 in 0..1 { } }", "1: Expected"),
    (b"main { for i in 0..1 print i; }", "1: Expected"),
    (b"main { run t; }", "1: Expected"),
    (b"main { run t(1) }", "1: Expected"),
    (b"main { return; }", "1: Expected"),
    // Finishes, asyncs and offers.
    (b"main { finish sum { } }", "1: Expected"),
    (b"main { let s = finish { } }", "1: Expected"),
    (b"main { let s = finish plain { } }", "1: Expected"),
    (b"main { let s = finish sum { }; }", "1: Expected"),
    (b"main { let s = finish sum; }", "1: Expected"),
    (b"main { let s = sum { } }", "1: Expected"),
    (b"main { let s finish sum { } }", "1: Expected"),
    (b"main { let finish = 1; }", "1: Expected"),
    (b"main { let sum = 1; }", "1: Expected"),
    (b"main { finish }", "1: Expected"),
    (b"main { finish { }", "1: Expected"),
    (b"main { finish } { }", "1: Expected"),
    (b"main { finish { } } }", "1: Expected"),
    (b"main { finish { }; }", "1: Expected"),
    (b"main { finish { async } }", "1: Expected"),
    (b"main { finish { async offer 1; } }", "1: Expected"),
    (b"main { finish { async { offer 1 } } }", "1: Expected"),
    (b"main { finish { offer; } }", "1: Expected"),
    (b"main { finish { offer \"a\"; } }", "1: Expected"),
    (b"main { finish { offer 1, 2; } }", "1: Expected"),
    (b"main { finish { { } } }", "1: Expected"),
    // Expressions.
    (b"main { print + 1; }", "1: Expected"),
    (b"main { print 1 +; }", "1: Expected"),
    (b"main { print 1 ! 2; }", "1: Expected"),
    (b"main { print !-1; }", "1: Expected"),
    (b"main { print --1; }", "1: Expected"),
    (b"main { print \"a\" + 1; }", "1: Expected"),
    (b"main { print 1 + \"a\"; }", "1: Expected"),
    (b"main { print 1 < 2 < 3; }", "1: Expected"),
    (b"main { print 1 == 2 != 3; }", "1: Expected"),
    (b"main { print (1; }", "1: Expected"),
    (b"main { print (); }", "1: Expected"),
    (b"main { print f(1); }", "1: Expected"),
    (b"main { print c[1, 2]; }", "1: Expected"),
    (b"main { print len(1); }", "1: Expected"),
    (b"main { print same(c, 1, 2); }", "1: Expected"),
    (b"main { print 0..3; }", "1: Expected"),
];

/// Texts with two faults or more, of which the first is told.
static FIRST: [FaultRow; 13] = [
    // Numbers.
    (b"main { print 9223372036854775808; }", "1: Literal"),
    (b"main { print 18446744073709551617; }", "1: Literal"),
    (
        b"main {\n print 1,\n 0009223372036854775808;\n}",
        "3: Literal",
    ),
    (b"main { print -9223372036854775808; }", "1: Literal"),
    // Of two tokens the earlier one, and at one token the grammar.
    (b"main { print 9223372036854775808\n }", "1: Literal"),
    (b"main { print +\n 9223372036854775808; }", "1: Expected"),
    (b"main {\n 9223372036854775808; }", "2: Expected"),
    (b"main { ;\n ; }", "1: Expected"),
    (
        b"main { print 9223372036854775808,\n 9223372036854775809; }",
        "1: Literal",
    ),
    // They come before the checks.
    (b"main { print y;\n ; }", "2: Expected"),
    (b"main { }\nmain { }\nmain", "3: Expected"),
    (
        b"fn f() { }\nmain { print y;\n print 9223372036854775808; }",
        "3: Literal",
    ),
    (b"main { print 1 - 1;\n print 1", "2: Expected"),
];

/// Programs that the checks refuse.
static REFUSED: [FaultRow; 23] = [
    // Programs.
    (b"", "1: NoMain"),
    (b"\n\n", "1: NoMain"),
    (b"# main { }", "1: NoMain"),
    (b"main {} main {}", "1: Twice"),
    // Names.
    (b"main { print x; let x = 1; }", "1: Unknown"),
    (b"main { let x = x; }", "1: Unknown"),
    (b"main { let x = 1; let x = 2; }", "1: Twice"),
    (b"main { print 1 + y; }", "1: Unknown"),
    // Items and statements.
    (b"fn f() { } main { }", "1: NoReturn"),
    (b"main { x = 1; }", "1: Unknown"),
    (b"main { let x = f(); }", "1: Unknown"),
    (b"main { let x = f(1, 2 + 3); }", "1: Unknown"),
    (b"main { let a = 1; for i in a..len(c) { } }", "1: Unknown"),
    (b"main { run t(); }", "1: AsyncOutside"),
    (b"main { run t(1, 2); }", "1: AsyncOutside"),
    (b"main { return 1; }", "1: ReturnPlace"),
    // Columns.
    (b"main { print c[0]; }", "1: Unknown"),
    (b"main { print len(c); }", "1: Unknown"),
    (b"main { print size(c, 0); }", "1: Unknown"),
    (b"main { print at(c, 0, 1); }", "1: Unknown"),
    (b"main { print same(c, 0, \"a\"); }", "1: Unknown"),
    (b"main { print begins(c, 0, \"\\\"\"); }", "1: Unknown"),
    (b"main { print c[c[0] + 1] + 1; }", "1: Unknown"),
];

/// Programs that pass the checks, and whose data file is missing.
static WITHOUT_DATA: [&[u8]; 4] = [
    b"column c: int from \"a\" field \"b\"; main { }",
    b"column c: text from \"a\" field \"b\"; main { }",
    b"main { } lines l from \"a\";",
    // Nothing of it runs.
    b"main { print 1; print 1 / 0; } lines l from \"a\";",
];

fn expect_faults(rt: &(impl Abort + AllocGlobal), rows: &[FaultRow]) -> Result<(), AllocError> {
    for (text, fault) in rows {
        expect_fault(rt, text, fault)?;
    }
    Ok(())
}

fn expect_no_data(
    rt: &(impl Abort + AllocGlobal),
    texts: &[&'static [u8]],
) -> Result<(), AllocError> {
    for text in texts {
        expect_of(rt, text, NO_DATA)?;
    }
    Ok(())
}

#[test]
fn the_first_fault_of_a_text_is_told(rt: HostRuntime) -> Result<(), Fail> {
    expect_faults(&rt, &LEXED)?;
    expect_faults(&rt, &EXPECTED)?;
    expect_faults(&rt, &FIRST)?;
    expect_faults(&rt, &REFUSED)?;
    Ok(())
}

#[test]
fn a_missing_data_file_is_told(rt: HostRuntime) -> Result<(), Fail> {
    expect_no_data(&rt, &WITHOUT_DATA)?;
    Ok(())
}
