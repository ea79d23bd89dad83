// Reading one token.

ghost use Rattle.std.specs.Prelude.{◌≡◌, ◌-◌, ℕ, suc, List, take, drop, length, Ok, IfOk, [], ◌∷◌};
ghost use Rattle.spd_syntax.specs.Tokens.{seen};
ghost use Rattle.spd_syntax.specs.Symbols.{all_seen, same_kind, kind_of, unquoted};
ghost use Rattle.spd_read.specs.Reading.{next_in, next_kind, reads_at};
ghost use Rattle.spd_syntax.specs.Shapes.{word, mark, name, name_and_line, text as text_shape};
ghost use Rattle.spd_read.specs.Gives.{Gives, Deeper};
ghost use Rattle.spd_syntax.specs.declared.token.TokenKind.TheVariants as kind;

use crate::reading::{Read, ReadError, StopKind};
use spd_syntax::{Lit, Mark, Name, Token, TokenKind, Word};
use std::alloc::{AllocError, Global};

/// The bytes of a token.
pub(crate) fn text_of<'a>(text: &'a [u8], token: &Token) -> &'a [u8]
    ensures { result.now ≡ take (token.now.end - token.now.start) (drop token.now.start text.now) }
{
    let start = (token.start as usize).min(text.len());
    let end = (token.end as usize).min(text.len()).max(start);
    &text[start..end]
}

#[tactic(auto, unfolding(spd_syntax::specs::Symbols::same_word))]
pub(crate) fn is_word(token: &Token, which: Word) -> bool
    ensures { (text : List ℕ) → result ≡ same_kind (kind.Word which) (kind_of (seen text token.now).0) }
{
    match token.kind {
        TokenKind::Word(other) => which == other,
        _ => false,
    }
}

#[tactic(auto, unfolding(spd_syntax::specs::Symbols::same_mark))]
pub(crate) fn is_mark(token: &Token, which: Mark) -> bool
    ensures { (text : List ℕ) → result ≡ same_kind (kind.Mark which) (kind_of (seen text token.now).0) }
{
    match token.kind {
        TokenKind::Mark(other) => which == other,
        _ => false,
    }
}

/// What the next token is.
pub fn next(tokens: &[Token]) -> Option<TokenKind>
    ensures { (text : List ℕ) → result ≡ next_kind (all_seen text tokens.now) }
{
    match tokens {
        [token, ..] => Some(token.kind),
        [] => None,
    }
}

/// Whether a mark stands next.
#[tactic(auto, unfolding(spd_syntax::specs::Symbols::same_mark))]
pub fn next_is(tokens: &[Token], which: Mark) -> bool
    ensures { (text : List ℕ) → result ≡ next_in (kind.Mark which ∷ []) (all_seen text tokens.now) }
{
    match next(tokens) {
        Some(TokenKind::Mark(other)) => which == other,
        _ => false,
    }
}

/// Reads a word, of which it gives the line.
pub fn word<'a>(tokens: &'a [Token], which: Word) -> Read<'a, u32>
    ensures { (text : List ℕ) → Gives text result (reads_at 0 (word which) (all_seen text tokens.now)) }
{
    let [token, rest @ ..] = tokens else {
        return Err(ReadError::Fault(StopKind::Expected, tokens));
    };
    if !is_word(token, which) {
        return Err(ReadError::Fault(StopKind::Expected, tokens));
    }
    Ok((token.line, rest))
}

/// Reads a mark, of which it gives the line.
pub fn mark<'a>(tokens: &'a [Token], which: Mark) -> Read<'a, u32>
    ensures { (text : List ℕ) → Gives text result (reads_at 0 (mark which) (all_seen text tokens.now)) }
{
    let [token, rest @ ..] = tokens else {
        return Err(ReadError::Fault(StopKind::Expected, tokens));
    };
    if !is_mark(token, which) {
        return Err(ReadError::Fault(StopKind::Expected, tokens));
    }
    Ok((token.line, rest))
}

/// Reads a name.
pub fn name<'a>(alloc: Global, text: &[u8], tokens: &'a [Token]) -> Read<'a, Name>
    ensures { Gives text.now result (reads_at 0 name (all_seen text.now tokens.now)) }
{
    match tokens {
        [token, rest @ ..] => match token.kind {
            TokenKind::Name => Ok((Name::from_slice(alloc, text_of(text, token))?, rest)),
            _ => Err(ReadError::Fault(StopKind::Expected, tokens)),
        },
        [] => Err(ReadError::Fault(StopKind::Expected, tokens)),
    }
}

/// The bytes of a string, without its quotes and the backslashes of its escapes.
fn unquoted(alloc: Global, text: &[u8]) -> Result<Lit, AllocError>
    ensures { IfOk result (λ found. found ≡ unquoted text.now) }
{
    let mut found = Lit::new(alloc);
    let mut rest = text.get(1..).unwrap_or(&[]);
    let mut escaped = false;
    while let [b, after @ ..] = rest {
        if escaped {
            found.push(*b)?;
            escaped = false;
        } else if *b == b'"' {
            break;
        } else if *b == b'\\' {
            escaped = true;
        } else {
            found.push(*b)?;
        }
        rest = after;
    }
    Ok(found)
}

/// Reads a string, of which it gives the bytes.
pub fn lit<'a>(alloc: Global, text: &[u8], tokens: &'a [Token]) -> Read<'a, Lit>
    ensures { Gives text.now result (reads_at 0 text_shape (all_seen text.now tokens.now)) }
{
    match tokens {
        [token, rest @ ..] => match token.kind {
            TokenKind::Lit => Ok((unquoted(alloc, text_of(text, token))?, rest)),
            _ => Err(ReadError::Fault(StopKind::Expected, tokens)),
        },
        [] => Err(ReadError::Fault(StopKind::Expected, tokens)),
    }
}

/// Reads a name, with its line.
pub fn name_and_line<'a>(alloc: Global, text: &[u8], tokens: &'a [Token]) -> Read<'a, (Name, u32)>
    ensures { Gives text.now result (reads_at 0 name_and_line (all_seen text.now tokens.now)) }
{
    match tokens {
        [token, rest @ ..] => match token.kind {
            TokenKind::Name => {
                let name = Name::from_slice(alloc, text_of(text, token))?;
                Ok(((name, token.line), rest))
            }
            _ => Err(ReadError::Fault(StopKind::Expected, tokens)),
        },
        [] => Err(ReadError::Fault(StopKind::Expected, tokens)),
    }
}

/// The number of brackets that may be open behind one that stands here.
pub fn deeper<'a>(depth: u32, here: &'a [Token]) -> Result<u32, ReadError<'a>>
    ensures { Deeper here.now depth result }
{
    if depth == 0 {
        return Err(ReadError::Fault(StopKind::TooDeep, here));
    }
    Ok(depth - 1)
}
