// Words of the language, and names that look like them.

use crate::faults::fault_of;
use crate::pieces::joined;
use spd_syntax::{ParseFault, ParseKind, TokenKind, lex};
use std::test::Fail;

/// The words of the language.
const WORDS: [&[u8]; 28] = [
    b"column",
    b"int",
    b"text",
    b"from",
    b"field",
    b"lines",
    b"fn",
    b"task",
    b"main",
    b"let",
    b"finish",
    b"sum",
    b"least",
    b"greatest",
    b"if",
    b"else",
    b"for",
    b"in",
    b"async",
    b"offer",
    b"run",
    b"return",
    b"print",
    b"len",
    b"size",
    b"at",
    b"same",
    b"begins",
];

/// What makes a name of a word, where it stands before or behind it.
const NAMED: [(&[u8], &[u8]); 6] = [
    (b"", b"s"),
    (b"", b"1"),
    (b"", b"_"),
    (b"_", b""),
    (b"x", b""),
    (b"", b"Z"),
];

#[test]
fn no_word_is_a_name(rt: HostRuntime) -> Result<(), Fail> {
    let fault = Some(ParseFault {
        line: 2,
        kind: ParseKind::Expected,
    });
    for word in WORDS {
        let text = joined(rt.alloc(), &[b"main { let\n", word, b" = 1; }"])?;
        assert_eq!(rt;
            fault_of(rt.alloc(), text.as_slice())?,
            fault,
            "of {text:?}"
        );
        let text = joined(rt.alloc(), &[b"fn f(a,\n", word, b") { }"])?;
        assert_eq!(rt;
            fault_of(rt.alloc(), text.as_slice())?,
            fault,
            "of {text:?}"
        );
    }
    Ok(())
}

#[test]
fn a_word_with_a_byte_more_is_a_name(rt: HostRuntime) -> Result<(), Fail> {
    for word in WORDS {
        for (before, behind) in NAMED {
            let name = joined(rt.alloc(), &[before, word, behind])?;
            let tokens = lex(rt.alloc(), name.as_slice())?;
            let [token] = tokens.as_slice() else {
                panic!(rt; "{name:?} isn't one token");
            };
            assert_eq!(rt; token.kind, TokenKind::Name, "of {name:?}");
            assert_eq!(rt; token.end as usize, name.len(), "of {name:?}");
            let text = joined(rt.alloc(), &[b"main { let ", name.as_slice(), b" = 1; }"])?;
            assert_eq!(rt; fault_of(rt.alloc(), text.as_slice())?, None, "of {text:?}");
        }
    }
    Ok(())
}

#[test]
fn a_word_cut_short_is_a_name(rt: HostRuntime) -> Result<(), Fail> {
    for word in WORDS {
        let short = word.get(..word.len().saturating_sub(1)).unwrap_or(b"");
        if WORDS.contains(&short) {
            continue;
        }
        let tokens = lex(rt.alloc(), short)?;
        let [token] = tokens.as_slice() else {
            panic!(rt; "{short:?} isn't one token");
        };
        assert_eq!(rt; token.kind, TokenKind::Name, "of {short:?}");
    }
    Ok(())
}
