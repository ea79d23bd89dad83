// Every byte by itself, in a string, and behind a backslash.

use crate::pieces::joined;
use spd_syntax::{LexKind, lex};
use std::alloc::Global;
use std::test::Fail;

/// The bytes that are a token by themselves, or stand between tokens.
const ALONE: &[u8] =
    b"ABCDEFGHIJKLMNOPQRSTUVWXYZ_abcdefghijklmnopqrstuvwxyz0123456789(){}[],;:=<>+-*/%! \t\r\n#";

/// The kind of the first fault of a text, if it has one.
fn kind_of(alloc: Global, pieces: &[&[u8]]) -> Result<Option<LexKind>, Fail> {
    let text = joined(alloc, pieces)?;
    Ok(lex(alloc, text.as_slice()).err().map(|fault| fault.kind))
}

#[test]
fn a_byte_by_itself(rt: HostRuntime) -> Result<(), Fail> {
    for b in 0..=u8::MAX {
        let wanted = if b == b'"' {
            Some(LexKind::OpenString)
        } else if ALONE.contains(&b) {
            None
        } else {
            Some(LexKind::BadByte)
        };
        assert_eq!(rt; kind_of(rt.alloc(), &[&[b]])?, wanted, "of {b}");
    }
    Ok(())
}

#[test]
fn a_byte_in_a_string(rt: HostRuntime) -> Result<(), Fail> {
    for b in 0..=u8::MAX {
        let wanted = match b {
            b'\n' | b'"' | b'\\' => Some(LexKind::OpenString),
            0x20..=0x7e => None,
            _ => Some(LexKind::BadByte),
        };
        assert_eq!(rt;
            kind_of(rt.alloc(), &[b"\"", &[b], b"\""])?,
            wanted,
            "of {b}"
        );
    }
    Ok(())
}

#[test]
fn a_byte_behind_a_backslash(rt: HostRuntime) -> Result<(), Fail> {
    for b in 0..=u8::MAX {
        let wanted = match b {
            b'\n' => Some(LexKind::OpenString),
            b'"' | b'\\' => None,
            _ => Some(LexKind::BadEscape),
        };
        assert_eq!(rt;
            kind_of(rt.alloc(), &[b"\"a\\", &[b], b"\""])?,
            wanted,
            "of {b}"
        );
    }
    Ok(())
}
