// Of several faults of a program the one that is told.

use crate::faults::{Row, expect_faults};
use spd_check::CheckKind;
use std::test::Fail;

/// Of several faults the first: at one statement the place, a called name and its arity, expressions
/// from left to right, blocks, and the name; but that of a `for` before its block.
static ORDERS: [Row; 29] = [
    (b"main {\n offer y;\n}", Some((2, CheckKind::OfferOutside))),
    (b"main {\n run t(y);\n}", Some((2, CheckKind::AsyncOutside))),
    (
        b"main {\n async {\n  offer y;\n }\n}",
        Some((2, CheckKind::AsyncOutside)),
    ),
    (b"main {\n return y;\n}", Some((2, CheckKind::ReturnPlace))),
    (
        b"main {\n finish {\n  print y;\n }\n}",
        Some((3, CheckKind::PrintPlace)),
    ),
    (
        b"fn f(a) { return a; }\nmain {\n let x = f(y, z);\n}",
        Some((3, CheckKind::Arity)),
    ),
    (
        b"fn f(a) { return a; }\nmain {\n let x = 1;\n let x = f(y);\n}",
        Some((4, CheckKind::Unknown)),
    ),
    (
        b"main {\n let x = 1;\n let x = y;\n}",
        Some((3, CheckKind::Unknown)),
    ),
    (
        b"main {\n let x = 1;\n let x = finish sum {\n  offer y;\n }\n}",
        Some((4, CheckKind::Unknown)),
    ),
    (
        b"column c: int from \"a\" field \"b\";\nmain {\n print size(c, y);\n}",
        Some((3, CheckKind::ColumnKind)),
    ),
    (
        b"column c: int from \"a\" field \"b\";\nmain {\n print y + size(c, 0);\n}",
        Some((3, CheckKind::Unknown)),
    ),
    (
        b"main {\n let i = 1;\n for i in 0..2 {\n  print y;\n }\n}",
        Some((3, CheckKind::Twice)),
    ),
    (
        b"main {\n let i = 1;\n for i in y..2 {\n }\n}",
        Some((3, CheckKind::Unknown)),
    ),
    (
        b"main {\n let x = 1;\n finish {\n  x = y;\n }\n}",
        Some((4, CheckKind::Unknown)),
    ),
    (
        b"fn f(a, a) {\n print y;\n return 1;\n}\nmain { }",
        Some((1, CheckKind::Twice)),
    ),
    // expressions from left to right: arguments, the parts of a print, both bounds of a loop
    (
        b"column c: int from \"a\" field \"b\";\nfn f(a, b) { return a; }\nmain {\n let x = f(size(c, 0), y);\n}",
        Some((4, CheckKind::ColumnKind)),
    ),
    (
        b"column c: int from \"a\" field \"b\";\nmain {\n print size(c, 0), y;\n}",
        Some((3, CheckKind::ColumnKind)),
    ),
    (
        b"column c: int from \"a\" field \"b\";\nmain {\n for i in size(c, 0)..y {\n }\n}",
        Some((3, CheckKind::ColumnKind)),
    ),
    // the condition of a branch comes before its blocks, and the first of these before the second
    (
        b"main {\n if\n y {\n  offer 1;\n }\n}",
        Some((2, CheckKind::Unknown)),
    ),
    (
        b"main {\n if 1 {\n  offer 1;\n } else {\n  print y;\n }\n}",
        Some((3, CheckKind::OfferOutside)),
    ),
    // an assigned name that isn't there comes behind the value, and so does an outer one
    (
        b"column c: int from \"a\" field \"b\";\nmain {\n y = size(c, 0);\n}",
        Some((3, CheckKind::ColumnKind)),
    ),
    // a statement of an earlier item comes before the parameters of a later one
    (
        b"task t(a) {\n print a;\n}\nfn f(a, a) { return a; }\nmain { }",
        Some((2, CheckKind::PrintPlace)),
    ),
    // statements come before `NoReturn`, which comes before later items
    (
        b"fn f() {\n let x = y;\n}\nmain { }",
        Some((2, CheckKind::Unknown)),
    ),
    (
        b"fn f() {\n}\nmain {\n print y;\n}",
        Some((1, CheckKind::NoReturn)),
    ),
    (
        b"main {\n print y;\n}\nfn f() {\n}",
        Some((2, CheckKind::Unknown)),
    ),
    // what is declared comes before all of these
    (
        b"fn f() {\n}\nfn f() { return 1; }\nmain { }",
        Some((3, CheckKind::Twice)),
    ),
    (
        b"fn f() {\n}\nmain {\n print y;\n}\nmain { }",
        Some((6, CheckKind::Twice)),
    ),
    (b"fn f() {\n print y;\n}\n", Some((3, CheckKind::NoMain))),
    (
        b"fn f() { return 1; }\nfn f() { return 1; }\n",
        Some((2, CheckKind::Twice)),
    ),
];

#[test]
fn the_first_of_several_faults_is_told(rt: HostRuntime) -> Result<(), Fail> {
    expect_faults(&rt, &ORDERS)
}
