// Numbers that are literals, and those that are too great, at each place of a number.

use crate::faults::fault_of;
use crate::pieces::joined;
use spd_syntax::{ParseFault, ParseKind};
use std::test::Fail;

/// Statements with a number between their two pieces.
const PLACES: [(&[u8], &[u8]); 16] = [
    (b"print ", b";"),
    (b"print -", b", 1;"),
    (b"print 1 + 2 * (3 - ", b");"),
    (b"let x = ", b";"),
    (b"let x = -", b" - 1;"),
    (b"let x = f(1, ", b");"),
    (b"x = !", b";"),
    (b"if ", b" < a { }"),
    (b"for i in ", b"..1 { }"),
    (b"for i in 1..", b" { }"),
    (b"run t(", b");"),
    (b"offer ", b";"),
    (b"return ", b";"),
    (b"print c[", b"];"),
    (b"print at(c, 1, ", b");"),
    (b"print same(c, ", b", \"99999999999999999999\");"),
];

/// Numbers up to the greatest literal.
const LITERALS: [&[u8]; 5] = [
    b"0",
    b"00",
    b"9223372036854775806",
    b"9223372036854775807",
    b"00000000000000000000000000000009223372036854775807",
];

/// Numbers above it, also some whose lowest 64 bits are a small number.
const TOO_GREAT: [&[u8]; 9] = [
    b"9223372036854775808",
    b"9223372036854775810",
    b"0009223372036854775808",
    b"18446744073709551615",
    b"18446744073709551616",
    b"18446744073709551621",
    b"92233720368547758070",
    b"184467440737095516170",
    b"340282366920938463463374607431768211457",
];

#[test]
fn literals_are_read_at_each_place(rt: HostRuntime) -> Result<(), Fail> {
    for (before, behind) in PLACES {
        for number in LITERALS {
            let text = joined(rt.alloc(), &[b"main { ", before, number, behind, b" }"])?;
            assert_eq!(rt; fault_of(rt.alloc(), text.as_slice())?, None, "of {text:?}");
        }
    }
    Ok(())
}

#[test]
fn greater_numbers_are_told_at_each_place(rt: HostRuntime) -> Result<(), Fail> {
    let fault = Some(ParseFault {
        line: 2,
        kind: ParseKind::Literal,
    });
    for (before, behind) in PLACES {
        for number in TOO_GREAT {
            let text = joined(
                rt.alloc(),
                &[b"main { ", before, b"\n", number, b"\n", behind],
            )?;
            assert_eq!(rt;
                fault_of(rt.alloc(), text.as_slice())?,
                fault,
                "of {text:?}"
            );
        }
    }
    Ok(())
}
