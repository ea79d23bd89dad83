// From tokens to the program that they spell, or their first fault.

ghost use Rattle.std.specs.Prelude.{◌≡◌, ◌<◌, ℕ, List, length, IfOk, IfErr, Ok};
ghost use Rattle.spd_syntax.specs.Tokens.{Seen, tokens_of};
ghost use Rattle.spd_syntax.specs.Symbols.{all_seen};
ghost use Rattle.spd_syntax.specs.Grammar.{program};
ghost use Rattle.spd_syntax.specs.Limits.{Keeps, KeepsCounts, KeepsLimits, no_counts};
ghost use Rattle.spd_syntax.specs.Faults.{IsSpelled, line_at};
ghost use Rattle.spd_syntax.specs.declared.fault.ParseKind.TheVariants as ParseKind;
ghost use Rattle.spd_syntax.specs.declared.tree.Program.{Program};
ghost use Rattle.spd_read.specs.Reading.{reads_all};
ghost use Rattle.spd_parse.specs.Counting.{first_over};
ghost use Rattle.spd_parse.specs.Stops.{IsByGrammar, IsFirstStop, fault_kind};
ghost use Rattle.spd_parse.specs.Gives.{GivesAll, AnswersFault, IsOrWants, IsFirstOrWants};
ghost use Rattle.spd_read.specs.declared.reading.StopKind.{StopKind};

use crate::counting::first_over;
use crate::items::program;
use spd_read::{ReadError, StopKind};
use spd_syntax::{ParseFault, ParseKind, Program, Token};
use std::alloc::Global;

/// The greatest number of brackets that are open at once.
pub const MAX_DEPTH: u32 = 32;

/// Reads all of the tokens.
#[tactic(auto, unfolding(spd_read::specs::Reading::reads_all))]
fn all<'a>(alloc: Global, text: &[u8], tokens: &'a [Token]) -> Result<Program, ReadError<'a>>
    ensures { GivesAll text.now result (reads_all 32 program (all_seen text.now tokens.now)) }
{
    let (found, rest) = program(alloc, text, MAX_DEPTH, tokens)?;
    match rest {
        [] => Ok(found),
        [_, ..] => Err(ReadError::Fault(StopKind::Expected, rest)),
    }
}

/// The program that tokens spell, all of them, or the first fault that reading finds itself.
fn read<'a>(alloc: Global, text: &[u8], tokens: &'a [Token]) -> Result<Program, ReadError<'a>>
    ensures found { IfOk result (λ x. IsByGrammar program x (all_seen text.now tokens.now)) }
    ensures keeps { IfOk result (λ x. Keeps 32 0 (all_seen text.now tokens.now)) }
    ensures first { (kind : StopKind) (rest : List Seen) → AnswersFault text.now result kind rest
        → IsFirstStop program 32 (all_seen text.now tokens.now) kind rest }
{
    all(alloc, text, tokens)
}

fn kind_of(kind: StopKind) -> ParseKind
    ensures { result ≡ fault_kind kind }
{
    match kind {
        StopKind::Expected => ParseKind::Expected,
        StopKind::Literal => ParseKind::Literal,
        StopKind::TooDeep => ParseKind::TooDeep,
    }
}

fn no_memory() -> ParseFault
    ensures { result.kind ≡ ParseKind.NoMemory }
{
    ParseFault {
        line: 0,
        kind: ParseKind::NoMemory,
    }
}

fn too_many(token: &Token) -> ParseFault
    ensures line { result.line ≡ token.now.line }
    ensures kind { result.kind ≡ ParseKind.TooMany }
{
    ParseFault {
        line: token.line,
        kind: ParseKind::TooMany,
    }
}

/// The line of the first of the tokens that are left, or that of the last token where none is, or 1 where there is none.
fn line_of(tokens: &[Token], rest: &[Token]) -> u32
    ensures { (text : List ℕ) → result ≡ line_at (all_seen text tokens.now) (all_seen text rest.now) }
{
    match rest {
        [token, ..] => token.line,
        [] => match tokens {
            [.., token] => token.line,
            [] => 1,
        },
    }
}

/// Reads tokens of which none is one too many.
fn read_all(alloc: Global, text: &[u8], tokens: &[Token]) -> Result<Program, ParseFault>
    requires kept { KeepsCounts (all_seen text.now tokens.now) }
    ensures found { IfOk result (λ x. IsByGrammar program x (all_seen text.now tokens.now)) }
    ensures keeps { IfOk result (λ x. KeepsLimits (all_seen text.now tokens.now)) }
    ensures first { IfErr result (IsFirstOrWants (all_seen text.now tokens.now)) }
{
    match read(alloc, text, tokens) {
        Ok(found) => Ok(found),
        Err(ReadError::NoMemory) => Err(no_memory()),
        Err(ReadError::Fault(kind, rest)) => {
            let line = line_of(tokens, rest);
            let kind = kind_of(kind);
            Err(ParseFault { line, kind })
        }
    }
}

/// The first fault of tokens of which that at a place is the first that is one too many.
fn fault_before(alloc: Global, text: &[u8], tokens: &[Token], place: usize) -> ParseFault
    requires inside { place < length tokens.now }
    requires first_over { place ≡ first_over no_counts (all_seen text.now tokens.now) }
    ensures { IsFirstOrWants (all_seen text.now tokens.now) result }
{
    match read(alloc, text, &tokens[..place + 1]) {
        Ok(_) => return too_many(&tokens[place]),
        Err(ReadError::NoMemory) => return no_memory(),
        Err(ReadError::Fault(kind, rest)) => match rest {
            [] => return too_many(&tokens[place]),
            [token, ..] => {
                let line = token.line;
                let kind = kind_of(kind);
                return ParseFault { line, kind };
            }
        },
    }
}

/// The program that tokens spell by the grammar, or their first fault.
fn answer(alloc: Global, text: &[u8], tokens: &[Token]) -> Result<Program, ParseFault>
    ensures found { IfOk result (λ x. IsByGrammar program x (all_seen text.now tokens.now)) }
    ensures keeps { IfOk result (λ x. KeepsLimits (all_seen text.now tokens.now)) }
    ensures first { IfErr result (IsFirstOrWants (all_seen text.now tokens.now)) }
{
    let place = first_over(tokens);
    if place < tokens.len() {
        return Err(fault_before(alloc, text, tokens, place));
    }
    read_all(alloc, text, tokens)
}

/// The program that the tokens of a text spell, all of them, within the limits; or their first fault.
///
/// The end of the text is a place of a fault too, on the line of its last token. Where memory runs
/// out, the line is 0.
pub fn parse(alloc: Global, text: &[u8], tokens: &[Token]) -> Result<Program, ParseFault>
    requires lexed { tokens_of text.now ≡ Ok tokens.now }
    // What is answered is spelled by the tokens, which keep the limits.
    ensures found { IfOk result (λ x. IsSpelled program x (all_seen text.now tokens.now)) }
    ensures keeps { IfOk result (λ x. KeepsLimits (all_seen text.now tokens.now)) }
    // What they spell within the limits is answered, unless memory runs out.
    ensures only { (x : Program) → IsSpelled program x (all_seen text.now tokens.now)
        → KeepsLimits (all_seen text.now tokens.now) → IsOrWants x result }
    // A fault is the first one of the text.
    ensures first { IfErr result (IsFirstOrWants (all_seen text.now tokens.now)) }
{
    answer(alloc, text, tokens)
}
