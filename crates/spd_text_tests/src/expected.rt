// Texts with a token that can't stand where it stands, at each place where a token may stand.

use crate::faults::fault_of;
use crate::pieces::joined;
use spd_syntax::{ParseFault, ParseKind, lex};
use std::test::Fail;

/// Texts whose second line begins with the first token that can't stand where it stands.
const TEXTS: [&[u8]; 78] = [
    // items
    b"\nlet x = 1;",
    b"fn\n(a) { }",
    b"fn f\n{ }",
    b"fn f(\n1) { }",
    b"fn f(a\nb) { }",
    b"fn f(\n,a) { }",
    b"fn f(a)\n;",
    b"task\nmain { }",
    b"task t(a)\nreturn a;",
    b"main\n() { }",
    b"main\n;",
    b"main { }\n;",
    b"main {\nfn f() { } }",
    b"main {\nmain { } }",
    b"column c\nint from \"\" field \"\";",
    b"column c:\nfloat from \"\" field \"\";",
    b"column c: int from\nc field \"\";",
    b"column c: int from \"\"\n;",
    b"column c: text\nfield \"\" from \"\";",
    b"column c: int from \"\" field \"\"\nmain { }",
    b"lines l\n: text from \"\";",
    b"lines l from \"\"\nfield \"\";",
    // statements
    b"main { print 1\n}",
    b"main { print 1\n2; }",
    b"main { print \"a\"\n\"b\"; }",
    b"main { print \"a\"\n+ 1; }",
    b"main { print a\n= 1; }",
    b"main { print 1\nx; }",
    b"main {\n; }",
    b"main {\n1 = 2; }",
    b"main {\n{ } }",
    b"main { x\n; }",
    b"main { x\n== 1; }",
    b"main { f\n(1); }",
    b"main { let\n1 = 2; }",
    b"main { let x\n== 1; }",
    b"main { let x =\n\"a\"; }",
    b"main { let x =\nasync { } }",
    b"main { let x = -f\n(1); }",
    b"main { let x = f()\n[0]; }",
    b"main { let x = f(1\n2); }",
    b"main { let x = f(1,\n); }",
    b"main { let x = finish sum\noffer 1; }",
    b"main { let x = finish sum { }\n; }",
    b"main { finish\nsum { } }",
    b"main { async\noffer 1; }",
    b"main { if\n{ } }",
    b"main { if a\nb { } }",
    b"main { if a { } else\n; }",
    b"main { if a { } else { }\nelse { } }",
    b"main { for\nin 0..1 { } }",
    b"main { for i\n0..1 { } }",
    b"main { for i in 0..\n{ } }",
    b"main { for i in 0..1\n..2 { } }",
    b"main { for i in (0\n..1) { } }",
    b"main { run t(\n,1); }",
    b"main { run\n1(); }",
    b"main { offer\n; }",
    // operators
    b"main { print 1 +\n; }",
    b"main { print\n+1; }",
    b"main { print\n* 1; }",
    b"main { print -\n-1; }",
    b"main { print 1 - -\n-1; }",
    b"main { print a < b\n== c; }",
    b"main { print a != b + c\n>= d; }",
    // brackets and columns
    b"main { print (\n); }",
    b"main { print (1\n, 2); }",
    b"main { print ((1)\n; }",
    b"main { print c[\n]; }",
    b"main { print c[1\n, 2]; }",
    b"main { print c[1]\n[2]; }",
    b"main { print (c)\n[1]; }",
    b"main { print len(c\n+ 1); }",
    b"main { print size(c\n); }",
    b"main { print at(c, 1\n); }",
    b"main { print at(c, 1, 2\n, 3); }",
    b"main { print begins(c,\n\"a\", 1); }",
    b"main { print same(\n\"c\", 1, \"a\"); }",
];

/// Programs of one item, and a mark that can stand nowhere in them.
const ITEMS: [(&[u8], &[u8]); 7] = [
    (
        b"main {\nlet a = f(1, b) ;let c = g();\nlet d = (a + -c) * 2; d =\nd % 3 ; }",
        b":",
    ),
    (
        b"main { if a <\nb || !c { print \"x\",\na == b && c; } else {\n}\nfor i in 0..\nd { } }",
        b":",
    ),
    (
        b"main { let s\n= finish sum { async\n{ offer 1 / 2; } run\nt(s - 1,\n2); } finish {\n} }",
        b":",
    ),
    (
        b"main { print c[\n1], len(c\n), size(c, 1),\nat(c, 1,\n2), same(c, 1\n, \"\"), begins(c,\n2, \"x\"); }",
        b":",
    ),
    (b"fn f\n(a,\nb) {\nreturn a\n- b; }", b":"),
    (b"column\nc : int\nfrom \"a\"\nfield \"b\" ;", b"("),
    (b"lines\nl from\n\"a\" ;", b":"),
];

/// What is told of a token, or of the end of a text, on a line.
fn expected(line: u32) -> Option<ParseFault> {
    Some(ParseFault {
        line,
        kind: ParseKind::Expected,
    })
}

#[test]
fn the_first_token_that_can_not_stand_there_is_told(rt: HostRuntime) -> Result<(), Fail> {
    for text in TEXTS {
        assert_eq!(rt; fault_of(rt.alloc(), text)?, expected(2), "of {text:?}");
    }
    Ok(())
}

#[test]
fn a_text_that_is_cut_off_is_told_on_the_line_of_its_last_token(
    rt: HostRuntime,
) -> Result<(), Fail> {
    for (text, _) in ITEMS {
        let tokens = lex(rt.alloc(), text)?;
        let tokens = tokens.as_slice();
        for token in tokens.iter().take(tokens.len().saturating_sub(1)) {
            let front = text.get(..token.end as usize).unwrap_or(b"");
            let cut = joined(rt.alloc(), &[front, b"\n\n# the end"])?;
            assert_eq!(rt;
                fault_of(rt.alloc(), cut.as_slice())?,
                expected(token.line),
                "of {cut:?}"
            );
        }
    }
    Ok(())
}

#[test]
fn a_mark_that_can_stand_nowhere_is_told_before_each_token(rt: HostRuntime) -> Result<(), Fail> {
    for (text, mark) in ITEMS {
        let tokens = lex(rt.alloc(), text)?;
        for token in tokens.as_slice() {
            let (front, back) = text.split_at((token.start as usize).min(text.len()));
            let marked = joined(rt.alloc(), &[front, b"\n\n", mark, b" ", back])?;
            assert_eq!(rt;
                fault_of(rt.alloc(), marked.as_slice())?,
                expected(token.line.saturating_add(2)),
                "of {marked:?}"
            );
        }
    }
    Ok(())
}
