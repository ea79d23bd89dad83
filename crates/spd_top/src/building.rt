// From a text to the code of its program, or why it has none.

ghost use Rattle.std.specs.Prelude.{◌≡◌, IfOk, IfErr};
ghost use Rattle.spd_top.specs.Built.{IsProgram, TextOutcome, passes, ComesTo, IsRefused, lex_error, parse_error, check_error};
ghost use Rattle.spd_top.specs.declared.building.BuildError.TheVariants.{NoMemory};

use spd_check::{CheckFault, CheckKind, Code, check};
use spd_parse::parse;
use spd_syntax::{LexFault, LexKind, ParseFault, ParseKind, Program, lex};
use std::alloc::{AllocError, AllocFailed, Global};

/// Why a text gave no code.
#[derive(Clone, Copy, Debug, PartialEq, Eq)]
pub enum BuildError {
    /// It can't be cut into tokens.
    Lex(LexFault),
    /// Its tokens spell no program within the limits.
    Parse(ParseFault),
    /// The checks refuse its program.
    Check(CheckFault),
    NoMemory,
}

impl From<LexFault> for BuildError {
    ghost from_gives = { λ fault error. error ≡ lex_error fault.kind fault };

    fn from(fault: LexFault) -> BuildError {
        match fault.kind {
            LexKind::NoMemory => BuildError::NoMemory,
            _ => BuildError::Lex(fault),
        }
    }
}

impl From<ParseFault> for BuildError {
    ghost from_gives = { λ fault error. error ≡ parse_error fault.kind fault };

    fn from(fault: ParseFault) -> BuildError {
        match fault.kind {
            ParseKind::NoMemory => BuildError::NoMemory,
            _ => BuildError::Parse(fault),
        }
    }
}

impl From<CheckFault> for BuildError {
    ghost from_gives = { λ fault error. error ≡ check_error fault.kind fault };

    fn from(fault: CheckFault) -> BuildError {
        match fault.kind {
            CheckKind::NoMemory => BuildError::NoMemory,
            _ => BuildError::Check(fault),
        }
    }
}

/// The program that a text spells within the limits, or its first fault. Its tokens are let go.
#[tactic(auto, using(crate::proofs::Refusals::parse_refuses))]
pub fn read(alloc: Global, text: &[u8]) -> Result<Program, BuildError>
    ensures found { IfOk result (λ tree. IsProgram text.now tree) }
    ensures fault { IfErr result (λ error. IsRefused text.now error) }
{
    let tokens = lex(alloc, text)?;
    let program = parse(alloc, text, tokens.as_slice())?;
    Ok(program)
}

/// The program that a text spells within the limits and that passes the checks, with its code; or the
/// first of what is wrong: a fault of its tokens, else one of its grammar or of a limit, else one of the
/// checks. `NoMemory` comes where memory runs out.
#[tactic(auto, using(crate::proofs::OneOutcome::comes_to_one, crate::proofs::Refusals::check_refuses))]
pub fn build(alloc: Global, text: &[u8]) -> Result<Code, BuildError>
    ensures built { IfOk result (λ code. ComesTo text.now (passes code)) }
    ensures refused { IfErr result (λ error. IsRefused text.now error) }
    // A text comes to one of them alone.
    ensures one { (a b : TextOutcome) → ComesTo text.now a → ComesTo text.now b → a ≡ b }
{
    let program = read(alloc, text)?;
    let code = check(alloc, program)?;
    Ok(code)
}
