// Texts that keep a limit, and the same with one piece more.

use crate::faults::fault_of;
use crate::levels::OPERATORS;
use crate::pieces::repeated;
use spd_syntax::{ParseFault, ParseKind};
use std::test::Fail;

/// Statements that open a bracket, and none in it.
const OPENING: [&[u8]; 14] = [
    b"finish { }",
    b"let s = finish greatest { }",
    b"async { }",
    b"if a { } else { }",
    b"for i in a..b { }",
    b"let x = f(a);",
    b"run t();",
    b"print (a);",
    b"print c[a];",
    b"print len(c);",
    b"offer size(c, 1);",
    b"x = at(c, a, b);",
    b"return same(c, a, \"\");",
    b"print begins(c, 0, \"a\");",
];

/// Statements that bind one name.
const BINDING: [&[u8]; 4] = [
    b"let a = b;",
    b"let a = f(b);",
    b"let a = finish least { }",
    b"for a in b..c { }",
];

/// Pieces of a text, each with how often it stands there.
type Pieces = &'static [(&'static [u8], u32)];

/// Texts that keep every limit.
const KEPT: [Pieces; 9] = [
    // brackets that are closed again, also in what stands beside each other
    &[(b"main { print 1", 1), (b", (1)", 40), (b"; }", 1)],
    &[(b"main {", 1), (b" finish { }", 40), (b" }", 1)],
    // names that are read or called, and none that are bound
    &[(b"main { print a", 1), (b", a", 300), (b"; }", 1)],
    &[(b"main {", 1), (b" a = b; run t(a);", 300), (b" }", 1)],
    // each item has its own names
    &[
        (b"fn f(a", 1),
        (b", a", 63),
        (b") { } task t(a", 1),
        (b", a", 63),
        (b") { } main {", 1),
        (b" let a = 1;", 64),
        (b" } main {", 1),
        (b" let a = 1;", 64),
        (b" }", 1),
    ],
    // mains are no functions
    &[
        (b"fn f() { }", 128),
        (b"main { }", 3),
        (b"task t() { }", 128),
    ],
    // operators begin anew behind a semicolon and a brace
    &[
        (b"main { print 0", 1),
        (b" + 1", 1000),
        (b"; print 0", 1),
        (b" - 1", 1000),
        (b"; if 0", 1),
        (b" * 1", 1000),
        (b" { a = 0", 1),
        (b" / 1", 1000),
        (b"; } }", 1),
    ],
    // a mark of a `let`, a comma and two dots are no operators
    &[
        (b"main { let x = f(0", 1),
        (b", a", 2000),
        (b"); for i in 1", 1),
        (b" + 1", 500),
        (b"..1", 1),
        (b" - 1", 500),
        (b" { } }", 1),
    ],
    &[(b"main { print 0", 1), (b", -1, !a", 500), (b"; }", 1)],
];

/// Texts with one piece too many, which is the first on its line, and the number of that line.
const BROKEN: [(Pieces, ParseKind, u32); 9] = [
    (
        &[
            (b"main {", 1),
            (b" finish {", 9),
            (b" x = ", 1),
            (b"(c[", 11),
            (b"\n(1)", 1),
            (b"])", 11),
            (b"; }", 1),
        ],
        ParseKind::TooDeep,
        2,
    ),
    (
        &[
            (b"main {", 1),
            (b" finish {", 10),
            (b" x = ", 1),
            (b"(c[", 10),
            (b"(c\n[1])", 1),
            (b"])", 10),
            (b"; }", 1),
        ],
        ParseKind::TooDeep,
        2,
    ),
    (&[(b"task t() { }\n", 257)], ParseKind::TooMany, 257),
    (
        &[(b"main { }\n", 1), (b"fn f() { }\n", 257)],
        ParseKind::TooMany,
        258,
    ),
    (
        &[
            (b"task t(a", 1),
            (b", a", 20),
            (b") {", 1),
            (b"\nlet a = 1;", 22),
            (b"\nfor a in 0..1 { let a = f();", 11),
            (b"}", 11),
        ],
        ParseKind::TooMany,
        34,
    ),
    (
        &[
            (b"main { let x = f(0", 1),
            (b" + 1", 500),
            (b",\n-1", 501),
            (b"); }", 1),
        ],
        ParseKind::TooMany,
        502,
    ),
    (
        &[
            (b"main { for i in 0", 1),
            (b" + 1", 500),
            (b"\n..\n0", 1),
            (b"\n- 1", 501),
            (b" { }", 1),
        ],
        ParseKind::TooMany,
        504,
    ),
    (
        &[
            (b"main { print c[a", 1),
            (b" + a", 999),
            (b"]\n+ (1\n+ a); }", 1),
        ],
        ParseKind::TooMany,
        3,
    ),
    (
        &[(b"main { print 0", 1), (b",\n!a, -1", 501), (b"; }", 1)],
        ParseKind::TooMany,
        502,
    ),
];

#[test]
fn a_bracket_more_is_one_too_many(rt: HostRuntime) -> Result<(), Fail> {
    for statement in OPENING {
        for more in 0..2u32 {
            let open = more.saturating_add(30);
            let text = repeated(
                rt.alloc(),
                &[
                    (b"main {", 1),
                    (b" async {", open),
                    (b"\n", 1),
                    (statement, 1),
                    (b"\n}", open),
                    (b"}", 1),
                ],
            )?;
            let wanted = (more == 1).then_some(ParseFault {
                line: 2,
                kind: ParseKind::TooDeep,
            });
            assert_eq!(rt;
                fault_of(rt.alloc(), text.as_slice())?,
                wanted,
                "of {statement:?}"
            );
        }
    }
    Ok(())
}

#[test]
fn a_name_more_is_one_too_many(rt: HostRuntime) -> Result<(), Fail> {
    for statement in BINDING {
        for more in 0..2u32 {
            let text = repeated(
                rt.alloc(),
                &[
                    (b"fn f(a) { } main {", 1),
                    (b"\nif b { let a = 1; }", more.saturating_add(63)),
                    (b"\n", 1),
                    (statement, 1),
                    (b"\n}", 1),
                ],
            )?;
            let wanted = (more == 1).then_some(ParseFault {
                line: 66,
                kind: ParseKind::TooMany,
            });
            assert_eq!(rt;
                fault_of(rt.alloc(), text.as_slice())?,
                wanted,
                "of {statement:?}"
            );
        }
    }
    Ok(())
}

#[test]
fn an_operator_more_is_one_too_many(rt: HostRuntime) -> Result<(), Fail> {
    for (mark, ..) in OPERATORS {
        for more in 0..2u32 {
            let text = repeated(
                rt.alloc(),
                &[
                    (b"main { print a", 1),
                    (b", a + b", 999),
                    (b", a", 1),
                    (b" + b", more),
                    (b"\n", 1),
                    (mark, 1),
                    (b"\nb; }", 1),
                ],
            )?;
            let wanted = (more == 1).then_some(ParseFault {
                line: 2,
                kind: ParseKind::TooMany,
            });
            assert_eq!(rt;
                fault_of(rt.alloc(), text.as_slice())?,
                wanted,
                "of {mark:?}"
            );
        }
    }
    Ok(())
}

#[test]
fn texts_within_all_limits_are_read(rt: HostRuntime) -> Result<(), Fail> {
    for pieces in KEPT {
        let text = repeated(rt.alloc(), pieces)?;
        assert_eq!(rt;
            fault_of(rt.alloc(), text.as_slice())?,
            None,
            "of {pieces:?}"
        );
    }
    Ok(())
}

#[test]
fn the_first_piece_too_many_is_told(rt: HostRuntime) -> Result<(), Fail> {
    for (pieces, kind, line) in BROKEN {
        let text = repeated(rt.alloc(), pieces)?;
        assert_eq!(rt;
            fault_of(rt.alloc(), text.as_slice())?,
            Some(ParseFault { line, kind }),
            "of {pieces:?}"
        );
    }
    Ok(())
}
