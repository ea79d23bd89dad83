// The word or the mark that bytes spell, found by their first byte.

ghost use Rattle.std.specs.Prelude.{◌≡◌, ◌∷◌, [], map};
ghost use Rattle.spd_syntax.specs.Tokens as spec;

use crate::token::{Mark, Word};

/// The words that begin with `f`, each without it.
const AFTER_F: [(&[u8], Word); 5] = [
    (b"rom", Word::From),
    (b"ield", Word::Field),
    (b"n", Word::Fn),
    (b"inish", Word::Finish),
    (b"or", Word::For),
];

/// The words that begin with `i`, each without it.
const AFTER_I: [(&[u8], Word); 3] = [(b"f", Word::If), (b"n", Word::In), (b"nt", Word::Int)];

/// The words that begin with `l`, each without it.
const AFTER_L: [(&[u8], Word); 4] = [
    (b"ines", Word::Lines),
    (b"et", Word::Let),
    (b"east", Word::Least),
    (b"en", Word::Len),
];

/// The words that begin with `s`, each without it.
const AFTER_S: [(&[u8], Word); 3] = [
    (b"um", Word::Sum),
    (b"ize", Word::Size),
    (b"ame", Word::Same),
];

/// The entry of a table that is spelled so.
fn lookup<T: Copy>(mut table: &[(&[u8], T)], text: &[u8]) -> Option<T>
    ensures { result ≡ spec.lookup (map (λ entry. (entry.0.now, entry.1)) table.entry.now) text.now }
{
    while let [entry, rest @ ..] = table {
        if entry.0 == text {
            return Some(entry.1);
        }
        table = rest;
    }
    None
}

/// The word that is spelled so. Only words with the first byte of the text are compared with it.
pub(crate) fn word_of(text: &[u8]) -> Option<Word>
    ensures { result ≡ spec.word_of text.now }
{
    let [first, rest @ ..] = text else {
        return None;
    };
    match *first {
        b'a' => lookup(&[(b"t", Word::At), (b"sync", Word::Async)], rest),
        b'b' => lookup(&[(b"egins", Word::Begins)], rest),
        b'c' => lookup(&[(b"olumn", Word::Column)], rest),
        b'e' => lookup(&[(b"lse", Word::Else)], rest),
        b'f' => lookup(&AFTER_F, rest),
        b'g' => lookup(&[(b"reatest", Word::Greatest)], rest),
        b'i' => lookup(&AFTER_I, rest),
        b'l' => lookup(&AFTER_L, rest),
        b'm' => lookup(&[(b"ain", Word::Main)], rest),
        b'o' => lookup(&[(b"ffer", Word::Offer)], rest),
        b'p' => lookup(&[(b"rint", Word::Print)], rest),
        b'r' => lookup(&[(b"un", Word::Run), (b"eturn", Word::Return)], rest),
        b's' => lookup(&AFTER_S, rest),
        b't' => lookup(&[(b"ext", Word::Text), (b"ask", Word::Task)], rest),
        _ => None,
    }
}

/// The mark of one byte.
pub(crate) fn single_mark(b: u8) -> Option<Mark>
    ensures { result ≡ spec.mark_of (b ∷ []) }
{
    match b {
        b'(' => Some(Mark::LeftParen),
        b')' => Some(Mark::RightParen),
        b'{' => Some(Mark::LeftBrace),
        b'}' => Some(Mark::RightBrace),
        b'[' => Some(Mark::LeftBracket),
        b']' => Some(Mark::RightBracket),
        b',' => Some(Mark::Comma),
        b';' => Some(Mark::Semicolon),
        b':' => Some(Mark::Colon),
        b'=' => Some(Mark::Assign),
        b'<' => Some(Mark::Less),
        b'>' => Some(Mark::Greater),
        b'+' => Some(Mark::Plus),
        b'-' => Some(Mark::Minus),
        b'*' => Some(Mark::Star),
        b'/' => Some(Mark::Slash),
        b'%' => Some(Mark::Percent),
        b'!' => Some(Mark::Not),
        _ => None,
    }
}

/// The mark of two bytes.
pub(crate) fn double_mark(b: u8, c: u8) -> Option<Mark>
    ensures { result ≡ spec.mark_of (b ∷ c ∷ []) }
{
    match (b, c) {
        (b'=', b'=') => Some(Mark::Equal),
        (b'!', b'=') => Some(Mark::NotEqual),
        (b'<', b'=') => Some(Mark::LessEqual),
        (b'>', b'=') => Some(Mark::GreaterEqual),
        (b'&', b'&') => Some(Mark::AndAnd),
        (b'|', b'|') => Some(Mark::OrOr),
        (b'.', b'.') => Some(Mark::DotDot),
        _ => None,
    }
}
