// Reading the words behind a command by a `clap` command that is built for it alone.

ghost use Rattle.std.specs.Prelude.{◌≡◌, map, true, false, is_some, IfOk, IfErr};
ghost use Rattle.std.specs.String.{string_bytes};
ghost use Rattle.clap.specs.Words.{app_of, kind_of, rule_of};
ghost use Rattle.spd_command.specs.Found.{Reads};
ghost use Rattle.spd_command.specs.Lines.{arguments_in};
ghost use Rattle.spd_command.specs.Matching.{operand_rule, option_rule, bare_app, with_operands, with_options, app_for};

use crate::argument::{Argument, ValueKind};
use crate::command_name::CommandName;
use clap::error::ErrorKind;
use clap::{Arg, ArgAction, ArgMatches};
use std::alloc::{AllocError, Global};

/// An operand, which has to be given.
fn operand<'a>(alloc: Global, operand: Argument) -> Arg<'a>
    ensures rule { rule_of result ≡ operand_rule operand }
    ensures own { result.global ≡ false }
{
    let name: &'a str = operand.name();
    Arg::new(alloc, name).required(true).action(ArgAction::Set)
}

/// An option with one value, or one that stands alone.
fn option<'a>(alloc: Global, option: Argument) -> Arg<'a>
    ensures rule { rule_of result ≡ option_rule option }
    ensures own { result.global ≡ false }
{
    let name: &'a str = option.name();
    let action = match option.kind() {
        ValueKind::Flag => ArgAction::SetTrue,
        _ => ArgAction::Set,
    };
    Arg::new(alloc, name).long(name).action(action)
}

/// A command without arguments, which knows no words for help.
fn bare<'a>(alloc: Global, command: CommandName) -> clap::Command<'a>
    ensures { app_of result ≡ bare_app command }
{
    let name: &'a str = command.word();
    clap::Command::new(alloc, name)
        .no_binary_name(true)
        .disable_help_flag(true)
        .disable_version_flag(true)
}

/// The command with these operands.
fn with_operands<'a>(
    alloc: Global,
    parser: clap::Command<'a>,
    operands: &[Argument],
) -> Result<clap::Command<'a>, AllocError>
    ensures { IfOk result (λ made. app_of made ≡ with_operands operands.now (app_of parser.entry)) }
{
    let mut made = parser;
    for each in operands {
        made = made.arg(operand(alloc, *each))?;
    }
    Ok(made)
}

/// The command with these options.
fn with_options<'a>(
    alloc: Global,
    parser: clap::Command<'a>,
    options: &[Argument],
) -> Result<clap::Command<'a>, AllocError>
    ensures { IfOk result (λ made. app_of made ≡ with_options options.now (app_of parser.entry)) }
{
    let mut made = parser;
    for each in options {
        made = made.arg(option(alloc, *each))?;
    }
    Ok(made)
}

/// The parser of the words behind a command.
fn parser_for<'a>(alloc: Global, command: CommandName) -> Result<clap::Command<'a>, AllocError>
    ensures { IfOk result (λ parser. app_of parser ≡ app_for command) }
{
    let parser = with_operands(alloc, bare(alloc, command), command.operands())?;
    let parser = with_options(alloc, parser, command.options())?;
    Ok(parser)
}

/// What a parser finds in lawful words.
fn parse<'a>(
    parser: clap::Command<'a>,
    command: CommandName,
    words: &'a [String],
) -> Result<ArgMatches<'a>, clap::Error>
    requires built { app_of parser ≡ app_for command }
    requires lawful { is_some (arguments_in command (map string_bytes words.now)) ≡ true }
    ensures found { IfOk result (λ found. Reads found (arguments_in command (map string_bytes words.entry.now))) }
    ensures refused { IfErr result (λ error. kind_of error ≡ ErrorKind.OutOfMemory) }
{
    parser.try_get_matches_from(words)
}

/// The arguments of a command, as `clap` reads them in words that are lawful behind it. Only want of
/// memory makes it fail.
pub(crate) fn matches<'a>(
    alloc: Global,
    command: CommandName,
    words: &'a [String],
) -> Result<ArgMatches<'a>, AllocError>
    requires { is_some (arguments_in command (map string_bytes words.now)) ≡ true }
    ensures { IfOk result (λ found. Reads found (arguments_in command (map string_bytes words.entry.now))) }
{
    let parser = parser_for(alloc, command)?;
    match parse(parser, command, words) {
        Ok(matches) => Ok(matches),
        Err(error) => match error.kind() {
            ErrorKind::OutOfMemory => Err(AllocError),
            _ => unreachable!(),
        },
    }
}
