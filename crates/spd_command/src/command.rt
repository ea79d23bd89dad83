// What the words of a command line ask for.

ghost use Rattle.std.specs.Prelude.{◌≡◌, ◌↔◌, Bool, List, [], map, Some, None, IfOk, Err, MatchOption, option_map, unwrap_or};
ghost use Rattle.std.specs.Option.{option_map_or};
ghost use Rattle.std.specs.String.{string_bytes};
ghost use Rattle.std.specs.Str.Parse.{digits_value};
ghost use Rattle.spd_command.specs.Lines.{Passed};
ghost use Rattle.spd_command.specs.Values.{scheme_called};
ghost use Rattle.spd_command.specs.Found.{word_found, flag_found, IsFlagText, IsFound, MayBeNumber};
ghost use Rattle.spd_command.specs.Asked.{asked_of, asked_by, name_in, settings_in, KeepsRanges, IsLine};
ghost use Rattle.spd_command.specs.Seen.{asked};

use crate::argument::Argument;
use crate::command_name::CommandName;
use crate::lawful::are_lawful;
use crate::matching::matches;
use crate::settings::{STANDARD, Settings};
use crate::value::{number_of, scheme_called};
use clap::ArgMatches;
use spd_words::Scheme;
use std::alloc::Global;
use thiserror::Error;

/// A command with the values of its arguments.
#[derive(Clone, Copy, Debug, PartialEq, Eq)]
pub enum Command<'a> {
    /// To run a program on one thread, each async and finish where it stands.
    Elide {
        program: &'a str,
    },
    /// To tell the first fault of a program, or else its canonical text.
    Check {
        program: &'a str,
    },
    /// To write a CSV file of this many rows, at most 1,000,000, that is made from a seed.
    Make {
        rows: u32,
        seed: u32,
    },
    /// To run a program on workers.
    Run {
        program: &'a str,
        settings: Settings,
    },
    /// To run the built-in program over a made file on workers.
    Job {
        rows: u32,
        seed: u32,
        settings: Settings,
    },
}

/// Why words give no command.
#[derive(Clone, Copy, Debug, PartialEq, Eq, Error)]
pub enum CommandError {
    /// They are no command line.
    #[error("words refused")]
    Refused,
    #[error("out of memory")]
    NoMemory,
}

/// The value that was found for an argument.
fn word<'a>(found: &ArgMatches<'a>, argument: Argument) -> Option<&'a str>
    ensures { option_map (λ word. word.now) result ≡ word_found found.now argument }
{
    found.get_str(argument.name())
}

/// The value that was found for an operand.
fn text<'a>(found: &ArgMatches<'a>, argument: Argument) -> &'a str
    ensures { result.now ≡ unwrap_or (word_found found.now argument) [] }
{
    match word(found, argument) {
        Some(word) => word,
        None => "",
    }
}

/// The number that was found for an argument, or the standard one.
fn number(found: &ArgMatches, argument: Argument, standard: u32) -> u32
    requires { MayBeNumber found.now argument }
    ensures { result ≡ option_map_or (digits_value 10) (word_found found.now argument) standard }
{
    match word(found, argument) {
        Some(word) => number_of(word),
        None => standard,
    }
}

/// The scheme that was found for an option, or the standard one.
fn scheme(found: &ArgMatches, argument: Argument, standard: Scheme) -> Scheme
    ensures { result ≡ option_map_or scheme_called (word_found found.now argument) standard }
{
    match word(found, argument) {
        Some(word) => scheme_called(word),
        None => standard,
    }
}

/// Whether an option that stands alone was found.
fn flag(found: &ArgMatches, argument: Argument) -> bool
    ensures { (given : Bool) → IsFlagText given (flag_found found.now argument) → result ≡ given }
{
    found.get_flag(argument.name())
}

/// The settings that were found.
fn settings(found: &ArgMatches) -> Settings
    requires { (all : List Passed) × IsFound found.now all }
    ensures { (all : List Passed) → IsFound found.now all → result ≡ settings_in all }
{
    Settings {
        workers: number(found, Argument::Workers, STANDARD.workers),
        moves: number(found, Argument::Moves, STANDARD.moves),
        nodes: number(found, Argument::Nodes, STANDARD.nodes),
        tree: scheme(found, Argument::Tree, STANDARD.tree),
        grow: number(found, Argument::Grow, STANDARD.grow),
        seed: number(found, Argument::Seed, STANDARD.seed),
        counts: flag(found, Argument::Counts),
    }
}

/// A command with the values that were found for its arguments.
fn command_of<'a>(name: CommandName, found: &ArgMatches<'a>) -> Command<'a>
    requires { (all : List Passed) × IsFound found.now all }
    ensures asked { (all : List Passed) → IsFound found.now all → asked result ≡ asked_by name all }
    ensures ranges { KeepsRanges (asked result) }
{
    match name {
        CommandName::Elide => Command::Elide {
            program: text(found, Argument::Program),
        },
        CommandName::Check => Command::Check {
            program: text(found, Argument::Program),
        },
        CommandName::Make => Command::Make {
            rows: number(found, Argument::Rows, 0),
            seed: number(found, Argument::FileSeed, 0),
        },
        CommandName::Run => Command::Run {
            program: text(found, Argument::Program),
            settings: settings(found),
        },
        CommandName::Job => Command::Job {
            rows: number(found, Argument::Rows, 0),
            seed: number(found, Argument::FileSeed, 0),
            settings: settings(found),
        },
    }
}

/// The command of a command line and the words behind it, or none where the words are no command line.
fn line_of<'a>(words: &'a [String]) -> Option<(CommandName, &'a [String])>
    ensures { MatchOption result (asked_of (map string_bytes words.now) ≡ None)
        (λ line. IsLine (map string_bytes words.now) line.0 (map string_bytes line.1.now)) }
{
    match words {
        [first, rest @ ..] => {
            let name = CommandName::called(first.as_bytes())?;
            if are_lawful(name, rest) {
                Some((name, rest))
            } else {
                None
            }
        }
        [] => None,
    }
}

/// The command of a command line, or none where the words are no command line. The first word names
/// it; behind it stand its operands, in order, and options in any place, each with its value as the next word
/// unless it stands alone. It takes no memory.
pub fn lawful_command(words: &[String]) -> Option<CommandName>
    ensures { result ≡ name_in (map string_bytes words.now) }
{
    let (name, _) = line_of(words)?;
    Some(name)
}

/// What the words of a command line ask for. `Refused` comes exactly where they are no command line,
/// whatever memory there is.
pub fn read_command<'a>(alloc: Global, words: &'a [String]) -> Result<Command<'a>, CommandError>
    ensures read { IfOk result (λ command. Some (asked command) ≡ asked_of (map string_bytes words.now)) }
    ensures refused { (result ≡ Err CommandError.Refused) ↔ (asked_of (map string_bytes words.now) ≡ None) }
    ensures ranges { IfOk result (λ command. KeepsRanges (asked command)) }
{
    let Some((name, rest)) = line_of(words) else {
        return Err(CommandError::Refused);
    };
    match matches(alloc, name, rest) {
        Ok(found) => Ok(command_of(name, &found)),
        Err(_) => Err(CommandError::NoMemory),
    }
}
