// A page that tokens are written on, one behind the other, each with what stands before it.

ghost use Rattle.std.specs.Prelude.{◌≡◌, ◌++◌, OnOk, IfOk};
ghost use Rattle.std.specs.Fmt.{signed_decimal};
ghost use Rattle.spd_canonical.specs.declared.page.Gap.TheVariants.{Line};
ghost use Rattle.spd_syntax.specs.Tokens as symbol;
ghost use Rattle.spd_canonical.specs.Canonical.{escaped, quoted_text};
ghost use Rattle.spd_canonical.specs.Layout as spec;

use spd_syntax::{MARKS, Mark, TokenKind, WORDS, Word};
use std::alloc::{AllocError, Global};
use std::marker::Model;

/// What a token is to the next one.
#[derive(Clone, Copy)]
pub(crate) enum Last {
    /// There is none.
    Nothing,
    /// A unary operator.
    Unary,
    Token(TokenKind),
}

/// What stands between two tokens.
#[derive(Clone, Copy)]
pub(crate) enum Gap {
    Nothing,
    Space,
    Line,
}

/// The bytes that were written, with how many braces are open and what the last token was.
#[derive(Drop)]
pub(crate) struct Page {
    bytes: Vec<u8>,
    braces: u32,
    last: Last,
}

impl Model for Page {
    ghost use Rattle.spd_canonical.specs.Layout.{PageView};

    ghost Value = { PageView };

    ghost view = { λ page. record { bytes = page.bytes.items; braces = page.braces; last = page.last } };
}

fn ends_operand(last: Last) -> bool
    ensures { result ≡ spec.ends_operand last }
{
    matches!(
        last,
        Last::Token(
            TokenKind::Name
                | TokenKind::Number
                | TokenKind::Mark(Mark::RightParen | Mark::RightBracket)
        )
    )
}

fn last_with(before: Last, kind: TokenKind) -> Last
    ensures { result ≡ spec.last_with before kind }
{
    match kind {
        TokenKind::Mark(Mark::Not) => Last::Unary,
        TokenKind::Mark(Mark::Minus) if !ends_operand(before) => Last::Unary,
        _ => Last::Token(kind),
    }
}

fn ends_line(kind: TokenKind) -> bool
    ensures { result ≡ spec.ends_line kind }
{
    matches!(
        kind,
        TokenKind::Mark(Mark::Semicolon | Mark::LeftBrace | Mark::RightBrace)
    )
}

fn sticks_to_next(kind: TokenKind) -> bool
    ensures { result ≡ spec.sticks_to_next kind }
{
    matches!(
        kind,
        TokenKind::Mark(Mark::LeftParen | Mark::LeftBracket | Mark::DotDot)
    )
}

fn sticks_to_last(kind: TokenKind) -> bool
    ensures { result ≡ spec.sticks_to_last kind }
{
    matches!(
        kind,
        TokenKind::Mark(
            Mark::Comma
                | Mark::Semicolon
                | Mark::Colon
                | Mark::RightParen
                | Mark::RightBracket
                | Mark::DotDot
        )
    )
}

fn is_called(kind: TokenKind) -> bool
    ensures { result ≡ spec.is_called kind }
{
    matches!(
        kind,
        TokenKind::Name
            | TokenKind::Word(Word::Len | Word::Size | Word::At | Word::Same | Word::Begins)
    )
}

fn opens_call(kind: TokenKind) -> bool
    ensures { result ≡ spec.opens_call kind }
{
    matches!(kind, TokenKind::Mark(Mark::LeftParen | Mark::LeftBracket))
}

fn begins_primary(kind: TokenKind) -> bool
    ensures { result ≡ spec.begins_primary kind }
{
    matches!(
        kind,
        TokenKind::Name | TokenKind::Number | TokenKind::Word(_) | TokenKind::Mark(Mark::LeftParen)
    )
}

fn unless(joined: bool) -> Gap
    ensures { result ≡ spec.unless joined }
{
    if joined { Gap::Nothing } else { Gap::Space }
}

fn gap_between(last: Last, next: TokenKind) -> Gap
    ensures { result ≡ spec.gap_between last next }
{
    match last {
        Last::Nothing => Gap::Nothing,
        Last::Unary => unless(begins_primary(next)),
        Last::Token(kind) if ends_line(kind) => match next {
            TokenKind::Word(Word::Else) => Gap::Space,
            _ => Gap::Line,
        },
        Last::Token(kind) => unless(
            sticks_to_next(kind) || sticks_to_last(next) || (is_called(kind) && opens_call(next)),
        ),
    }
}

fn braces_at(braces: u32, kind: TokenKind) -> u32
    ensures { result ≡ spec.braces_at braces kind }
{
    match kind {
        TokenKind::Mark(Mark::RightBrace) => braces.saturating_sub(1),
        _ => braces,
    }
}

/// How many braces are open behind a token. More than 4,294,967,295 are told as want of memory.
fn braces_behind(braces: u32, kind: TokenKind) -> Result<u32, AllocError>
    ensures { IfOk result (λ behind. behind ≡ spec.braces_behind braces kind) }
{
    match kind {
        TokenKind::Mark(Mark::LeftBrace) => braces.checked_add(1).ok_or(AllocError),
        _ => Ok(braces_at(braces, kind)),
    }
}

/// How a word is spelled.
#[tactic(auto, unfolding(crate::specs::Layout::word_text, spd_syntax::specs::Symbols::same_word))]
fn word_text(word: Word) -> &'static [u8]
    ensures { result.now ≡ spec.word_text word }
{
    let mut table: &[(&'static [u8], Word)] = &WORDS;
    while let [(text, other), rest @ ..] = table {
        if *other == word {
            return text;
        }
        table = rest;
    }
    b""
}

/// How a mark is spelled.
#[tactic(auto, unfolding(crate::specs::Layout::mark_text, spd_syntax::specs::Symbols::same_mark))]
fn mark_text(mark: Mark) -> &'static [u8]
    ensures { result.now ≡ spec.mark_text mark }
{
    let mut table: &[(&'static [u8], Mark)] = &MARKS;
    while let [(text, other), rest @ ..] = table {
        if *other == mark {
            return text;
        }
        table = rest;
    }
    b""
}

/// The end of a line, and two spaces for each brace that is open on the next.
fn put_line_start(bytes: &mut Vec<u8>, braces: u32) -> Result<(), AllocError>
    ensures { OnOk result (bytes.new.items ≡ bytes.old.items ++ spec.gap_text Line braces) }
{
    bytes.push(b'\n')?;
    for _brace in 0..braces {
        bytes.extend_from_slice(b"  ")?;
    }
    Ok(())
}

/// A string in quotes, with its escapes.
#[tactic(auto, unfolding(crate::specs::Canonical::quoted_text))]
fn quoted(alloc: Global, lit: &[u8]) -> Result<Vec<u8>, AllocError>
    ensures { IfOk result (λ text. text.items ≡ quoted_text lit.now) }
{
    let mut text = Vec::new(alloc);
    text.push(b'"')?;
    for b in lit {
        put_escaped(&mut text, *b)?;
    }
    text.push(b'"')?;
    Ok(text)
}

/// A byte of a string, behind a backslash where it needs one.
fn put_escaped(text: &mut Vec<u8>, b: u8) -> Result<(), AllocError>
    ensures { OnOk result (text.new.items ≡ text.old.items ++ escaped b) }
{
    if b == b'"' || b == b'\\' {
        text.push(b'\\')?;
    }
    text.push(b)?;
    Ok(())
}

impl Page {
    /// A page without bytes.
    pub(crate) fn new(alloc: Global) -> Page
        ensures { result ≡ spec.empty_page }
    {
        Page {
            bytes: Vec::new(alloc),
            braces: 0,
            last: Last::Nothing,
        }
    }
    /// The bytes between the last token and the next, of this kind.
    fn put_gap(&mut self, next: TokenKind) -> Result<(), AllocError>
        ensures { OnOk result (self.new ≡ spec.with_gap self.old next) }
    {
        match gap_between(self.last, next) {
            Gap::Nothing => {}
            Gap::Space => self.bytes.push(b' ')?,
            Gap::Line => put_line_start(&mut self.bytes, braces_at(self.braces, next))?,
        }
        Ok(())
    }

    /// A token of this kind, with these bytes.
    pub(crate) fn put(&mut self, kind: TokenKind, text: &[u8]) -> Result<(), AllocError>
        ensures { OnOk result (self.new ≡ spec.with_written self.old kind text.now) }
    {
        self.put_gap(kind)?;
        self.bytes.extend_from_slice(text)?;
        self.braces = braces_behind(self.braces, kind)?;
        self.last = last_with(self.last, kind);
        Ok(())
    }

    pub(crate) fn put_name(&mut self, name: &[u8]) -> Result<(), AllocError>
        ensures { OnOk result (self.new ≡ spec.with_symbol self.old (symbol.name name.now)) }
    {
        self.put(TokenKind::Name, name)
    }

    pub(crate) fn put_word(&mut self, word: Word) -> Result<(), AllocError>
        ensures { OnOk result (self.new ≡ spec.with_symbol self.old (symbol.word word)) }
    {
        self.put(TokenKind::Word(word), word_text(word))
    }

    pub(crate) fn put_mark(&mut self, mark: Mark) -> Result<(), AllocError>
        ensures { OnOk result (self.new ≡ spec.with_symbol self.old (symbol.mark mark)) }
    {
        self.put(TokenKind::Mark(mark), mark_text(mark))
    }

    /// A number, as its decimal digits.
    pub(crate) fn put_number(&mut self, alloc: Global, number: i64) -> Result<(), AllocError>
        ensures { OnOk result (self.new ≡ spec.with_symbol self.old (symbol.number (signed_decimal number))) }
    {
        let text = number.to_string(alloc)?;
        self.put(TokenKind::Number, text.as_bytes())
    }

    /// A string, in quotes and with its escapes.
    pub(crate) fn put_lit(&mut self, alloc: Global, lit: &[u8]) -> Result<(), AllocError>
        ensures { OnOk result (self.new ≡ spec.with_symbol self.old (symbol.lit (quoted_text lit.now))) }
    {
        let text = quoted(alloc, lit)?;
        self.put(TokenKind::Lit, &text)
    }

    /// The bytes, of which the last line is ended too.
    pub(crate) fn into_text(self) -> Result<Vec<u8>, AllocError>
        ensures { IfOk result (λ text. text.items ≡ spec.page_text self) }
    {
        let Page {
            mut bytes,
            braces: _,
            last,
        } = self;
        match last {
            Last::Nothing => {}
            _ => bytes.push(b'\n')?,
        }
        Ok(bytes)
    }
}
