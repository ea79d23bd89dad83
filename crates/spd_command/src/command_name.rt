// The commands, one row each.

ghost use Rattle.std.specs.Prelude.{◌≡◌};
ghost use Rattle.std.specs.Str.{bytes_eq};
ghost use Rattle.spd_command.specs.Table.{command_word, operands_of, options_of, command_called, first_called, option_called};

use crate::argument::Argument;

/// A command that has a row.
#[derive(Clone, Copy, Debug, PartialEq, Eq)]
pub enum CommandName {
    /// To run a program on one thread, each async and finish where it stands.
    Elide,
    /// To tell the first fault of a program, or else its canonical text.
    Check,
    /// To write a CSV file that is made from two numbers.
    Make,
    /// To run a program on workers.
    Run,
    /// To run the built-in program over a made file on workers.
    Job,
}

impl CommandName {
    /// All of them.
    pub const ALL: [CommandName; 5] = [
        CommandName::Elide,
        CommandName::Check,
        CommandName::Make,
        CommandName::Run,
        CommandName::Job,
    ];

    /// The word that names it.
    pub fn word(self) -> &'static str
        ensures { result.now ≡ command_word self }
    {
        match self {
            CommandName::Elide => "elide",
            CommandName::Check => "check",
            CommandName::Make => "make",
            CommandName::Run => "run",
            CommandName::Job => "job",
        }
    }

    /// Whether a word is its own.
    fn is_named_by(self, word: &[u8]) -> bool
        ensures { result ≡ bytes_eq (command_word self) word.now }
    {
        self.word().as_bytes() == word
    }

    /// Its operands, in order. Each has to be given.
    pub fn operands(self) -> &'static [Argument]
        ensures { result.now ≡ operands_of self }
    {
        match self {
            CommandName::Elide => &[Argument::Program],
            CommandName::Check => &[Argument::Program],
            CommandName::Make => &[Argument::Rows, Argument::FileSeed],
            CommandName::Run => &[Argument::Program],
            CommandName::Job => &[Argument::Rows, Argument::FileSeed],
        }
    }

    /// Its options, of which each may be given once, in any place.
    pub fn options(self) -> &'static [Argument]
        ensures { result.now ≡ options_of self }
    {
        match self {
            CommandName::Elide => &[],
            CommandName::Check => &[],
            CommandName::Make => &[],
            CommandName::Run | CommandName::Job => &[
                Argument::Workers,
                Argument::Moves,
                Argument::Nodes,
                Argument::Tree,
                Argument::Grow,
                Argument::Seed,
                Argument::Counts,
            ],
        }
    }

    /// The command that a word names.
    pub fn called(word: &[u8]) -> Option<CommandName>
        ensures { result ≡ command_called word.now }
    {
        let all = CommandName::ALL;
        first_called(all.as_slice(), word)
    }

    /// The option of this command that a word names.
    pub(crate) fn option_called(self, word: &[u8]) -> Option<Argument>
        ensures { result ≡ option_called (options_of self) word.now }
    {
        let mut options = self.options();
        while let [option, rest @ ..] = options {
            if option.is_named_by(word) {
                return Some(*option);
            }
            options = rest;
        }
        None
    }
}

/// The first of some commands that a word names.
fn first_called(commands: &[CommandName], word: &[u8]) -> Option<CommandName>
    ensures { result ≡ first_called commands.now word.now }
{
    let mut left = commands;
    while let [command, rest @ ..] = left {
        if command.is_named_by(word) {
            return Some(*command);
        }
        left = rest;
    }
    None
}
