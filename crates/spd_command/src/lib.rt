//! The words of a command line: which lists of words are one, and what each asks for.
#![tactic(auto)]

mod argument;
mod command;
mod command_name;
mod lawful;
mod matching;
mod settings;
mod value;

pub use argument::{Argument, ValueKind};
pub use command::{Command, CommandError, lawful_command, read_command};
pub use command_name::CommandName;
pub use settings::{STANDARD, Settings};
