// Cutting a text into tokens.

ghost use Rattle.std.specs.Prelude.{IfSome, ◌≡◌, ◌≤◌, ◌<◌, ◌+◌, ◌-◌, ◌^◌, ◌⊎◌, false, length, drop, map, Ok, Err, IfOk, IfErr, MatchResult};
ghost use Rattle.std.specs.Char.{is_ascii_digit};
ghost use Rattle.std.specs.List.{prefix_len};
ghost use Rattle.spd_syntax.specs.Tokens as spec;
ghost use Rattle.spd_syntax.specs.Tokens.{AreInOrder, tokens_of};

use crate::spelled::{double_mark, single_mark, word_of};
use crate::token::{Mark, Token, TokenKind, Tokens};
use std::alloc::Global;
use thiserror::Error;

/// What is wrong with a text that can't be cut into tokens.
#[derive(Clone, Copy, Debug, PartialEq, Eq, Error)]
pub enum LexKind {
    #[error("a byte that begins no token, or that can't stand in a string")]
    BadByte,
    #[error("a string that isn't closed on its line")]
    OpenString,
    #[error("a backslash in a string that escapes neither a quote nor a backslash")]
    BadEscape,
    #[error("out of memory")]
    NoMemory,
}

/// The first fault of a text, with its line, counted from 1.
#[derive(Clone, Copy, Debug, PartialEq, Eq, Error)]
#[error("line {line}: {kind}")]
pub struct LexFault {
    pub line: u32,
    pub kind: LexKind,
}

fn no_memory(line: u32) -> LexFault
    ensures { result.kind ≡ LexKind.NoMemory }
{
    LexFault {
        line,
        kind: LexKind::NoMemory,
    }
}

fn is_blank(b: u8) -> bool
    ensures { result ≡ spec.is_blank b }
{
    b == b' ' || b == b'\t' || b == b'\r'
}

fn begins_name(b: u8) -> bool
    ensures { result ≡ spec.begins_name b }
{
    b.is_ascii_alphabetic() || b == b'_'
}

fn is_in_name(b: u8) -> bool
    ensures { result ≡ spec.is_in_name b }
{
    b.is_ascii_alphanumeric() || b == b'_'
}

fn is_printable(b: u8) -> bool
    ensures { result ≡ spec.is_printable b }
{
    (b' '..=b'~').contains(&b)
}

/// How many bytes at the front can stand in a name.
fn name_len(z: &[u8]) -> usize
    ensures value { result ≡ prefix_len spec.is_in_name z.now }
    ensures within { result ≤ length z.now }
{
    z.iter().take_while(|b| is_in_name(**b)).count()
}

/// How many bytes at the front are digits.
fn number_len(z: &[u8]) -> usize
    ensures value { result ≡ prefix_len is_ascii_digit z.now }
    ensures within { result ≤ length z.now }
{
    z.iter().take_while(|b| b.is_ascii_digit()).count()
}

/// How many bytes at the front belong to a comment.
fn comment_len(z: &[u8]) -> usize
    ensures value { result ≡ prefix_len spec.is_in_comment z.now }
    ensures within { result ≤ length z.now }
{
    z.iter().take_while(|b| **b != b'\n').count()
}

/// The place behind the closing quote, for bytes that begin behind the opening one, which has
/// place 0.
fn string_len(mut z: &[u8]) -> Result<usize, LexKind>
    ensures value { result ≡ spec.string_end false 1 z.entry.now }
    ensures within { IfOk result (λ end. (1 ≤ end) × (end ≤ length z.entry.now + 1)) }
{
    let mut escaped = false;
    let mut at: usize = 1;
    while let [b, rest @ ..] = z {
        let b = *b;
        if b == b'\n' {
            return Err(LexKind::OpenString);
        }
        if escaped {
            if b != b'"' && b != b'\\' {
                return Err(LexKind::BadEscape);
            }
            escaped = false;
        } else if b == b'"' {
            return Ok(at + 1);
        } else if b == b'\\' {
            escaped = true;
        } else if !is_printable(b) {
            return Err(LexKind::BadByte);
        }
        at += 1;
        z = rest;
    }
    Err(LexKind::OpenString)
}

/// The word that is spelled so, or a name.
#[tactic(auto, unfolding(crate::specs::Tokens::word_or_name))]
fn word_or_name(text: &[u8]) -> TokenKind
    ensures { result ≡ spec.word_or_name text.now }
{
    match word_of(text) {
        Some(word) => TokenKind::Word(word),
        None => TokenKind::Name,
    }
}

/// The longest mark at the front, and its length.
#[tactic(auto, unfolding(crate::specs::Tokens::longest_mark))]
fn longest_mark(z: &[u8]) -> Option<(Mark, usize)>
    requires { 0 < length z.now }
    ensures value { result ≡ spec.longest_mark z.now }
    ensures within { IfSome result (λ found. (1 ≤ found.1) × (found.1 ≤ length z.now)) }
{
    match z {
        [first, second, ..] => match double_mark(*first, *second) {
            Some(mark) => Some((mark, 2)),
            None => Some((single_mark(*first)?, 1)),
        },
        [first] => Some((single_mark(*first)?, 1)),
        [] => None,
    }
}

/// The token at the front, and its length.
#[tactic(auto, unfolding(crate::specs::Tokens::token))]
fn token(z: &[u8]) -> Result<(TokenKind, usize), LexKind>
    requires { 0 < length z.now }
    ensures value { result ≡ spec.token z.now }
    ensures within { IfOk result (λ found. (1 ≤ found.1) × (found.1 ≤ length z.now)) }
{
    let b = z[0];
    if begins_name(b) {
        let len = name_len(z);
        return Ok((word_or_name(&z[..len]), len));
    }
    if b.is_ascii_digit() {
        return Ok((TokenKind::Number, number_len(z)));
    }
    if b == b'"' {
        let len = string_len(&z[1..])?;
        return Ok((TokenKind::Lit, len));
    }
    match longest_mark(z) {
        Some((mark, len)) => Ok((TokenKind::Mark(mark), len)),
        None => Err(LexKind::BadByte),
    }
}

/// The token at a place of a text, on a line.
fn token_at(text: &[u8], at: usize, line: u32) -> Result<Token, LexFault>
    requires inside { at < length text.now }
    requires short { length text.now < 2 ^ 32 }
    ensures token { IfOk result (λ token. spec.token (drop at text.now) ≡ Ok (token.kind, token.end - at)) }
    ensures place { IfOk result (λ token. (token.start ≡ at) × (at < token.end) × (token.end ≤ length text.now)) }
    ensures fault { IfErr result (λ fault. spec.token (drop at text.now) ≡ Err fault.kind) }
    ensures line { MatchResult result (λ token. token.line ≡ line) (λ fault. fault.line ≡ line) }
{
    let (kind, len) = token(&text[at..]).map_err(|kind| LexFault { line, kind })?;
    Ok(Token {
        kind,
        start: at as u32,
        end: (at + len) as u32,
        line,
    })
}

/// The tokens of a text, each with its kind, its span and its line, or its first fault. Blanks and comments, which run from `#` to the end of
/// the line, stand between tokens.
///
/// A text of 4,294,967,295 bytes or more, whose places have no numbers, is answered as where memory
/// runs out.
pub fn lex(alloc: Global, text: &[u8]) -> Result<Tokens, LexFault>
    ensures tokens { IfOk result (λ tokens. tokens_of text.now ≡ Ok tokens) }
    ensures spans { IfOk result (λ tokens. AreInOrder 0 tokens (length text.now)) }
    ensures fault { IfErr result (λ fault. (fault.kind ≡ LexKind.NoMemory) ⊎ (tokens_of text.now ≡ Err fault)) }
{
    let mut line: u32 = 1;
    if text.len() >= u32::MAX as usize {
        return Err(no_memory(line));
    }
    let mut tokens = Tokens::new(alloc);
    let mut at: usize = 0;
    while at < text.len() {
        let b = text[at];
        if b == b'\n' {
            line += 1;
            at += 1;
        } else if is_blank(b) {
            at += 1;
        } else if b == b'#' {
            at += 1;
            at += comment_len(&text[at..]);
        } else {
            let token = token_at(text, at, line)?;
            let Ok(()) = tokens.push(token) else {
                return Err(no_memory(line));
            };
            at = token.end as usize;
        }
    }
    Ok(tokens)
}
