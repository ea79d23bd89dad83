// Texts with the first fault of each, by hand, and texts that are programs.

use spd_parse::parse;
use spd_syntax::{ParseFault, ParseKind, lex};
use std::alloc::Global;
use std::test::Fail;

/// Texts that spell programs.
const PROGRAMS: [&[u8]; 16] = [
    b"",
    b"# nothing\r\n",
    b"main { }",
    b"main{print 1+(2*3);}",
    b"main { print a - -1, - 1, !x, -(-1), !(!x); }",
    b"main { for i in 0..len(c) { print c[i]; } for j in 1..2 { } }",
    b"main { if a < b { } else { if b < a { print \"more\"; } } }",
    b"main { let format = 1; let int1 = format; int1 = int1 + 1; }",
    b"main { let a = f(); let b = f(1, a - 1); let c = f + 1; let d = f[0] * 2; run t(); run t(1); }",
    b"main { let s = finish sum { async { offer 1; } } finish { } let l = finish least { } let g = finish greatest { } }",
    b"fn f() { return 1; } fn g(a, b) { return a % b; } task t(lo, hi) { offer size(c, lo) + at(c, lo, hi); }",
    b"column c: int from \"a.csv\" field \"x\"; column d: text from \"a.csv\" field \"y\\\"\"; lines l from \"b\";",
    b"main { print same(d, i, \"\"), begins(d, i + 1, \"a\"), a == b && c != d || e <= f && g >= h; }",
    b"main { print (a < b) == (b < c), 9223372036854775807, 0009223372036854775807; }",
    b"main { let x = finish sum { let x = 1; offer x; } print x; }",
    b"main { let main_ = 1; } main { }",
];

/// Texts, and their first fault.
const FAULTS: [(&[u8], ParseKind, u32); 35] = [
    (b"x", ParseKind::Expected, 1),
    (b"\n\nmain {\n", ParseKind::Expected, 3),
    (b"main {\n print 1\n\n", ParseKind::Expected, 2),
    (b"main {\n print 1\n}", ParseKind::Expected, 3),
    (b"main { }\n}", ParseKind::Expected, 2),
    (b"main { }\n}\n}", ParseKind::Expected, 2),
    (b"main { }\nx\nmain\n{ }", ParseKind::Expected, 2),
    (b"main { print ; }", ParseKind::Expected, 1),
    (b"main { print 1,\n; }", ParseKind::Expected, 2),
    (b"main { print a <\nb\n< c; }", ParseKind::Expected, 3),
    (b"main { print a == b\n!= c; }", ParseKind::Expected, 2),
    (b"main { print !\n-x; }", ParseKind::Expected, 2),
    (b"main { print 1\n(2); }", ParseKind::Expected, 2),
    (b"main { print f\n(2); }", ParseKind::Expected, 2),
    (b"main { if a { } else\nif b { } }", ParseKind::Expected, 2),
    (b"main { if a\n; }", ParseKind::Expected, 2),
    (b"main { else\n{ } }", ParseKind::Expected, 1),
    (b"main { let x\n; }", ParseKind::Expected, 2),
    (b"main { let x = f(1)\n+ 2; }", ParseKind::Expected, 2),
    (b"main { let x = finish\n{ } }", ParseKind::Expected, 2),
    (b"main { let sum\n= 1; }", ParseKind::Expected, 1),
    (b"main { for i in 0\n{ } }", ParseKind::Expected, 2),
    (b"main { offer 1\n, 2; }", ParseKind::Expected, 2),
    (b"main { run f\n; }", ParseKind::Expected, 2),
    (b"main { return\n; }", ParseKind::Expected, 2),
    (b"main { print len(\n1); }", ParseKind::Expected, 2),
    (b"main { print same(c, 1,\n2); }", ParseKind::Expected, 2),
    (b"fn f(a,\n) { }", ParseKind::Expected, 2),
    (b"fn f { }", ParseKind::Expected, 1),
    (
        b"column c: sum\nfrom \"\" field \"\";",
        ParseKind::Expected,
        1,
    ),
    (
        b"main { print\n9223372036854775808; }",
        ParseKind::Literal,
        2,
    ),
    (
        b"main { print\n99999999999999999999999 9; }",
        ParseKind::Literal,
        2,
    ),
    (
        b"main { print 9223372036854775808;\n print ; }",
        ParseKind::Literal,
        1,
    ),
    (
        b"main { print ;\n print 9223372036854775808; }",
        ParseKind::Expected,
        1,
    ),
    (b"fn 9223372036854775808", ParseKind::Expected, 1),
];

/// Texts that keep a limit, and their first fault where they have one piece more: what stands in front, a piece with
/// what closes it, how many pieces, what stands between the pieces and what closes them, and what stands behind.
const LIMITS: [(&[u8], &[u8], u32, &[u8], &[u8], &[u8], ParseKind, u32); 10] = [
    (
        b"main {",
        b"\nasync {",
        31,
        b"",
        b"}",
        b"}",
        ParseKind::TooDeep,
        33,
    ),
    (
        b"main { print ",
        b"\n(",
        31,
        b"1",
        b")",
        b"; }",
        ParseKind::TooDeep,
        33,
    ),
    (
        b"main { print (",
        b"\nc[(",
        15,
        b"1",
        b")]",
        b"); }",
        ParseKind::TooDeep,
        17,
    ),
    (
        b"main { run f(",
        b"\nat(c, 1, ",
        30,
        b"1",
        b")",
        b"); }",
        ParseKind::TooDeep,
        32,
    ),
    (
        b"fn f(a, b) { let c = 1; } main {\n",
        b"let a = 1;\n",
        64,
        b"",
        b"",
        b"}",
        ParseKind::TooMany,
        66,
    ),
    (
        b"main {\n",
        b"async { for i in 0..1 { } }\n",
        64,
        b"",
        b"",
        b"}",
        ParseKind::TooMany,
        66,
    ),
    (
        b"fn f(a",
        b"\n, a",
        63,
        b"",
        b"",
        b") { }",
        ParseKind::TooMany,
        65,
    ),
    (
        b"",
        b"fn f() { }\ntask t() { }\n",
        128,
        b"",
        b"",
        b"",
        ParseKind::TooMany,
        257,
    ),
    (
        b"",
        b"lines l from \"\";\ncolumn c: int from \"\" field \"\";\n",
        8,
        b"",
        b"",
        b"",
        ParseKind::TooMany,
        17,
    ),
    (
        b"main { print 1 + 1; if a < b { } print 0",
        b"\n, (a - b)",
        1000,
        b"",
        b"",
        b"; }",
        ParseKind::TooMany,
        1002,
    ),
];

/// Texts of two faults, and the first: what stands in front, a piece, how often it stands there, and what stands behind.
const TWO_FAULTS: [(&[u8], &[u8], u32, &[u8], ParseKind, u32); 7] = [
    // one too many, and then a fault of another kind
    (
        b"",
        b"lines l from \"\";\n",
        17,
        b"}",
        ParseKind::TooMany,
        17,
    ),
    (
        b"main {\n",
        b"let a = 1;\n",
        65,
        b"print 9223372036854775808; }",
        ParseKind::TooMany,
        66,
    ),
    (
        b"main { print 0",
        b"\n+ 1",
        1001,
        b"\n; print ((((((((((((((((((((((((((((((((1",
        ParseKind::TooMany,
        1002,
    ),
    // a fault of another kind, and then one too many
    (
        b"}\n",
        b"lines l from \"\";\n",
        17,
        b"",
        ParseKind::Expected,
        1,
    ),
    (
        b"main { print 9223372036854775808; }\n",
        b"lines l from \"\";\n",
        17,
        b"",
        ParseKind::Literal,
        1,
    ),
    (
        b"main { print\n((((((((((((((((((((((((((((((((1",
        b"\n+ 1",
        1001,
        b"",
        ParseKind::TooDeep,
        2,
    ),
    // both at one token
    (
        b"main { print 0",
        b"\n+ 1",
        999,
        b"\n+\n* 1; }",
        ParseKind::Expected,
        1002,
    ),
];

/// The first fault of a text, if it is no program.
pub(crate) fn fault_of(alloc: Global, text: &[u8]) -> Result<Option<ParseFault>, Fail> {
    let tokens = lex(alloc, text)?;
    Ok(parse(alloc, text, tokens.as_slice()).err())
}

#[test]
fn programs_are_read(rt: HostRuntime) -> Result<(), Fail> {
    for text in PROGRAMS {
        assert_eq!(rt; fault_of(rt.alloc(), text)?, None, "of {text:?}");
    }
    Ok(())
}

#[test]
fn the_first_fault_is_answered(rt: HostRuntime) -> Result<(), Fail> {
    for (text, kind, line) in FAULTS {
        assert_eq!(rt;
            fault_of(rt.alloc(), text)?,
            Some(ParseFault { line, kind }),
            "of {text:?}"
        );
    }
    Ok(())
}

#[test]
fn limits_are_kept(rt: HostRuntime) -> Result<(), Fail> {
    for (front, piece, times, middle, close, back, kind, line) in LIMITS {
        for more in 0..2u32 {
            let mut text = Vec::new(rt.alloc());
            text.extend_from_slice(front)?;
            for _ in 0..times.saturating_add(more) {
                text.extend_from_slice(piece)?;
            }
            text.extend_from_slice(middle)?;
            for _ in 0..times.saturating_add(more) {
                text.extend_from_slice(close)?;
            }
            text.extend_from_slice(back)?;
            let want = (more == 1).then_some(ParseFault { line, kind });
            assert_eq!(rt;
                fault_of(rt.alloc(), text.as_slice())?,
                want,
                "with {more} more of {piece:?}"
            );
        }
    }
    Ok(())
}

#[test]
fn of_two_faults_the_first_is_answered(rt: HostRuntime) -> Result<(), Fail> {
    for (front, piece, times, back, kind, line) in TWO_FAULTS {
        let mut text = Vec::new(rt.alloc());
        text.extend_from_slice(front)?;
        for _ in 0..times {
            text.extend_from_slice(piece)?;
        }
        text.extend_from_slice(back)?;
        assert_eq!(rt;
            fault_of(rt.alloc(), text.as_slice())?,
            Some(ParseFault { line, kind }),
            "of {times} pieces {piece:?}"
        );
    }
    Ok(())
}
