// Texts with their tokens, or the first fault of each.

use spd_syntax::{LexFault, LexKind, Mark, TokenKind as Kind, Word, lex};
use std::test::Fail;

/// Texts, and their tokens with start, end and line.
const TEXTS: [(&[u8], &[(Kind, u32, u32, u32)]); 19] = [
    (b"", &[]),
    (b" \t\r\n\n", &[]),
    (
        b"column int text from field lines fn\ntask main let finish sum least greatest\nif else for in async offer run\nreturn print len size at same begins",
        &[
            (Kind::Word(Word::Column), 0, 6, 1),
            (Kind::Word(Word::Int), 7, 10, 1),
            (Kind::Word(Word::Text), 11, 15, 1),
            (Kind::Word(Word::From), 16, 20, 1),
            (Kind::Word(Word::Field), 21, 26, 1),
            (Kind::Word(Word::Lines), 27, 32, 1),
            (Kind::Word(Word::Fn), 33, 35, 1),
            (Kind::Word(Word::Task), 36, 40, 2),
            (Kind::Word(Word::Main), 41, 45, 2),
            (Kind::Word(Word::Let), 46, 49, 2),
            (Kind::Word(Word::Finish), 50, 56, 2),
            (Kind::Word(Word::Sum), 57, 60, 2),
            (Kind::Word(Word::Least), 61, 66, 2),
            (Kind::Word(Word::Greatest), 67, 75, 2),
            (Kind::Word(Word::If), 76, 78, 3),
            (Kind::Word(Word::Else), 79, 83, 3),
            (Kind::Word(Word::For), 84, 87, 3),
            (Kind::Word(Word::In), 88, 90, 3),
            (Kind::Word(Word::Async), 91, 96, 3),
            (Kind::Word(Word::Offer), 97, 102, 3),
            (Kind::Word(Word::Run), 103, 106, 3),
            (Kind::Word(Word::Return), 107, 113, 4),
            (Kind::Word(Word::Print), 114, 119, 4),
            (Kind::Word(Word::Len), 120, 123, 4),
            (Kind::Word(Word::Size), 124, 128, 4),
            (Kind::Word(Word::At), 129, 131, 4),
            (Kind::Word(Word::Same), 132, 136, 4),
            (Kind::Word(Word::Begins), 137, 143, 4),
        ],
    ),
    (
        b"(){}[],;: = == != < <= > >=\n+-*/% && || ! ..",
        &[
            (Kind::Mark(Mark::LeftParen), 0, 1, 1),
            (Kind::Mark(Mark::RightParen), 1, 2, 1),
            (Kind::Mark(Mark::LeftBrace), 2, 3, 1),
            (Kind::Mark(Mark::RightBrace), 3, 4, 1),
            (Kind::Mark(Mark::LeftBracket), 4, 5, 1),
            (Kind::Mark(Mark::RightBracket), 5, 6, 1),
            (Kind::Mark(Mark::Comma), 6, 7, 1),
            (Kind::Mark(Mark::Semicolon), 7, 8, 1),
            (Kind::Mark(Mark::Colon), 8, 9, 1),
            (Kind::Mark(Mark::Assign), 10, 11, 1),
            (Kind::Mark(Mark::Equal), 12, 14, 1),
            (Kind::Mark(Mark::NotEqual), 15, 17, 1),
            (Kind::Mark(Mark::Less), 18, 19, 1),
            (Kind::Mark(Mark::LessEqual), 20, 22, 1),
            (Kind::Mark(Mark::Greater), 23, 24, 1),
            (Kind::Mark(Mark::GreaterEqual), 25, 27, 1),
            (Kind::Mark(Mark::Plus), 28, 29, 2),
            (Kind::Mark(Mark::Minus), 29, 30, 2),
            (Kind::Mark(Mark::Star), 30, 31, 2),
            (Kind::Mark(Mark::Slash), 31, 32, 2),
            (Kind::Mark(Mark::Percent), 32, 33, 2),
            (Kind::Mark(Mark::AndAnd), 34, 36, 2),
            (Kind::Mark(Mark::OrOr), 37, 39, 2),
            (Kind::Mark(Mark::Not), 40, 41, 2),
            (Kind::Mark(Mark::DotDot), 42, 44, 2),
        ],
    ),
    (
        b"<=<===!=!..",
        &[
            (Kind::Mark(Mark::LessEqual), 0, 2, 1),
            (Kind::Mark(Mark::LessEqual), 2, 4, 1),
            (Kind::Mark(Mark::Equal), 4, 6, 1),
            (Kind::Mark(Mark::NotEqual), 6, 8, 1),
            (Kind::Mark(Mark::Not), 8, 9, 1),
            (Kind::Mark(Mark::DotDot), 9, 11, 1),
        ],
    ),
    (
        b">==&&&&<",
        &[
            (Kind::Mark(Mark::GreaterEqual), 0, 2, 1),
            (Kind::Mark(Mark::Assign), 2, 3, 1),
            (Kind::Mark(Mark::AndAnd), 3, 5, 1),
            (Kind::Mark(Mark::AndAnd), 5, 7, 1),
            (Kind::Mark(Mark::Less), 7, 8, 1),
        ],
    ),
    (b"=", &[(Kind::Mark(Mark::Assign), 0, 1, 1)]),
    (
        b"0..x",
        &[
            (Kind::Number, 0, 1, 1),
            (Kind::Mark(Mark::DotDot), 1, 3, 1),
            (Kind::Name, 3, 4, 1),
        ],
    ),
    (
        b"let\r\n\tx\r\n",
        &[(Kind::Word(Word::Let), 0, 3, 1), (Kind::Name, 6, 7, 2)],
    ),
    (
        b"1\n\n2",
        &[(Kind::Number, 0, 1, 1), (Kind::Number, 3, 4, 3)],
    ),
    (b"x#\"y\" # z", &[(Kind::Name, 0, 1, 1)]),
    (b"# \x80\xff\x07\n0#", &[(Kind::Number, 6, 7, 2)]),
    (
        b"\"a\"\"\\\"b\\\\\"\" #~\"",
        &[
            (Kind::Lit, 0, 3, 1),
            (Kind::Lit, 3, 10, 1),
            (Kind::Lit, 10, 15, 1),
        ],
    ),
    (
        b"mainly main main1 _main Main",
        &[
            (Kind::Name, 0, 6, 1),
            (Kind::Word(Word::Main), 7, 11, 1),
            (Kind::Name, 12, 17, 1),
            (Kind::Name, 18, 23, 1),
            (Kind::Name, 24, 28, 1),
        ],
    ),
    (
        b"_ a_9Z 007x",
        &[
            (Kind::Name, 0, 1, 1),
            (Kind::Name, 2, 6, 1),
            (Kind::Number, 7, 10, 1),
            (Kind::Name, 10, 11, 1),
        ],
    ),
    (
        b"0..len(c) 1..2",
        &[
            (Kind::Number, 0, 1, 1),
            (Kind::Mark(Mark::DotDot), 1, 3, 1),
            (Kind::Word(Word::Len), 3, 6, 1),
            (Kind::Mark(Mark::LeftParen), 6, 7, 1),
            (Kind::Name, 7, 8, 1),
            (Kind::Mark(Mark::RightParen), 8, 9, 1),
            (Kind::Number, 10, 11, 1),
            (Kind::Mark(Mark::DotDot), 11, 13, 1),
            (Kind::Number, 13, 14, 1),
        ],
    ),
    (
        b"a--1!==b",
        &[
            (Kind::Name, 0, 1, 1),
            (Kind::Mark(Mark::Minus), 1, 2, 1),
            (Kind::Mark(Mark::Minus), 2, 3, 1),
            (Kind::Number, 3, 4, 1),
            (Kind::Mark(Mark::NotEqual), 4, 6, 1),
            (Kind::Mark(Mark::Assign), 6, 7, 1),
            (Kind::Name, 7, 8, 1),
        ],
    ),
    // a CR ends no line and no comment
    (
        b"a # b\r\nc\rd # e\rf\ng",
        &[
            (Kind::Name, 0, 1, 1),
            (Kind::Name, 7, 8, 2),
            (Kind::Name, 9, 10, 2),
            (Kind::Name, 17, 18, 3),
        ],
    ),
    // neither a quote in a comment nor a `#` in a string begins anything
    (
        b"# \"\n\"# \\\\\"1# \"",
        &[(Kind::Lit, 4, 10, 2), (Kind::Number, 10, 11, 2)],
    ),
];

/// Texts, and their first fault with its line.
const FAULTS: [(&[u8], LexKind, u32); 41] = [
    (b"&", LexKind::BadByte, 1),
    (b"|", LexKind::BadByte, 1),
    (b".", LexKind::BadByte, 1),
    (b"\\", LexKind::BadByte, 1),
    (b"@", LexKind::BadByte, 1),
    (b"\x80", LexKind::BadByte, 1),
    (b"\x07", LexKind::BadByte, 1),
    (b"a & b", LexKind::BadByte, 1),
    (b"1\n...", LexKind::BadByte, 2),
    (b"\"\x80\"", LexKind::BadByte, 1),
    (b"\"\x07\"", LexKind::BadByte, 1),
    (b"\"\t\"", LexKind::BadByte, 1),
    (b"\"\x7f\"", LexKind::BadByte, 1),
    (b"\"\x80\n\"", LexKind::BadByte, 1),
    (b"\"", LexKind::OpenString, 1),
    (b"\"a", LexKind::OpenString, 1),
    (b"\"a\n\"", LexKind::OpenString, 1),
    (b"\"a\\\"\n@", LexKind::OpenString, 1),
    (b"\"\\\n\"", LexKind::OpenString, 1),
    (b"\"\\", LexKind::OpenString, 1),
    (b"\"\\n\"", LexKind::BadEscape, 1),
    (b"\"\\\x80\"", LexKind::BadEscape, 1),
    (b"x \"\\n\" @", LexKind::BadEscape, 1),
    (b"# one\n# two\n@", LexKind::BadByte, 3),
    (b"# \"\n\n \"# two", LexKind::OpenString, 3),
    // of several faults the first in the text; an open string stands at the end of its line
    (b"\"a\" @ \"b", LexKind::BadByte, 1),
    (b"\"a\n@", LexKind::OpenString, 1),
    (b"\"a\r\n@", LexKind::BadByte, 1),
    (b"\"\\\r\n@", LexKind::BadEscape, 1),
    (b"\"\\\"\x01", LexKind::BadByte, 1),
    (b"\"\\\\\\\"\n\"", LexKind::OpenString, 1),
    (b"x\n\"ab\n\n@", LexKind::OpenString, 2),
    (b"x\n\"a\" \"b # c\n", LexKind::OpenString, 2),
    (b"\n\n\"a\\nb\"\n@", LexKind::BadEscape, 3),
    (b"# @ \"\\n\n\"# @ &\"\n&", LexKind::BadByte, 3),
    // marks of two bytes, of which one is missing
    (b"a\n&&& b", LexKind::BadByte, 2),
    (b"a |||", LexKind::BadByte, 1),
    (b"1\n. 2", LexKind::BadByte, 2),
    (b"a.b", LexKind::BadByte, 1),
    // bytes that are no ASCII
    (b"\xef\xbb\xbfmain { }", LexKind::BadByte, 1),
    (b"main { }\n\xc3\xa9", LexKind::BadByte, 2),
];

#[test]
fn cuts_texts_into_tokens(rt: HostRuntime) -> Result<(), Fail> {
    for (text, want) in TEXTS {
        let tokens = lex(rt.alloc(), text)?;
        assert_eq!(rt; tokens.as_slice().len(), want.len(), "of {text:?}");
        for (token, (kind, start, end, line)) in tokens.as_slice().iter().zip(want) {
            assert_eq!(rt; token.kind, *kind, "at {start} of {text:?}");
            assert_eq!(rt;
                (token.start, token.end, token.line),
                (*start, *end, *line),
                "of {text:?}"
            );
        }
    }
    Ok(())
}

#[test]
fn answers_the_first_fault(rt: HostRuntime) {
    for (text, kind, line) in FAULTS {
        assert_eq!(rt;
            lex(rt.alloc(), text).err(),
            Some(LexFault { line, kind }),
            "of {text:?}"
        );
    }
}

#[test]
fn tells_faults(rt: HostRuntime) -> Result<(), Fail> {
    let fault = LexFault {
        line: 7,
        kind: LexKind::OpenString,
    };
    let told = format!(in rt.alloc(); "{fault}")?;
    assert_eq!(rt;
        told.as_str(),
        "line 7: a string that isn't closed on its line"
    );
    Ok(())
}
