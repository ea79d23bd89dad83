// The test on the words behind a command.

ghost use Rattle.std.specs.Prelude.{◌≡◌, ◌∷◌, List, ℕ, map, Some, None, count_by, is_some};
ghost use Rattle.std.specs.String.{string_bytes};
ghost use Rattle.spd_command.specs.declared.argument.Argument.{Argument};
ghost use Rattle.spd_command.specs.Table.{is_option_word, operands_of, options_of, option_called};
ghost use Rattle.spd_command.specs.Lines.{passed_by, arguments_in};
ghost use Rattle.spd_command.specs.Testing.{fits, fits_from, fits_behind, stand_once};

use crate::argument::{Argument, ValueKind};
use crate::command_name::CommandName;

/// What may stand next behind a command.
#[derive(Clone, Copy)]
pub(crate) struct Next {
    /// The option whose value it is.
    waiting: Option<Argument>,
    /// The operands that haven't come yet.
    operands: &'static [Argument],
}

impl Next {
    /// What may stand behind a word, or none where the word may not stand here.
    fn behind(self, command: CommandName, word: &str) -> Option<Next>
        ensures { (rest : List (List ℕ)) → fits_behind result (options_of command) rest
            ≡ fits_from self.waiting self.operands.now (options_of command) (word.now ∷ rest) }
    {
        match self.waiting {
            Some(option) => self.behind_value(option, word),
            None => match command.option_called(word.as_bytes()) {
                Some(option) => Some(self.behind_option(option)),
                None => self.behind_operand(word),
            },
        }
    }

    /// The same of an option's word: its value, unless it stands alone.
    fn behind_option(self, option: Argument) -> Next
        ensures { (options : List Argument) (word : List ℕ) (rest : List (List ℕ))
            → option_called options word ≡ Some option
            → fits_behind (Some result) options rest ≡ fits_from None self.operands.now options (word ∷ rest) }
    {
        let waiting = match option.kind() {
            ValueKind::Flag => None,
            _ => Some(option),
        };
        Next {
            waiting,
            operands: self.operands,
        }
    }

    /// The same of an option's value.
    fn behind_value(self, option: Argument, word: &str) -> Option<Next>
        ensures { (options : List Argument) (rest : List (List ℕ)) → fits_behind result options rest
            ≡ fits_from (Some option) self.operands.now options (word.now ∷ rest) }
    {
        if option.kind().takes(word) {
            Some(Next {
                waiting: None,
                operands: self.operands,
            })
        } else {
            None
        }
    }

    /// The same of an operand.
    fn behind_operand(self, word: &str) -> Option<Next>
        ensures { (options : List Argument) (rest : List (List ℕ)) → option_called options word.now ≡ None
            → fits_behind result options rest ≡ fits_from None self.operands.now options (word.now ∷ rest) }
    {
        match self.operands {
            [operand, operands @ ..] => {
                if operand.kind().takes(word) {
                    Some(Next {
                        waiting: None,
                        operands,
                    })
                } else {
                    None
                }
            }
            [] => None,
        }
    }
}

/// Whether the words behind a command are its operands, in order, and options with their values, in
/// any place, and each value is one that its argument takes.
fn fit(command: CommandName, words: &[String]) -> bool
    ensures { result ≡ fits (passed_by (operands_of command) (options_of command) (map string_bytes words.now)) }
{
    let mut next = Next {
        waiting: None,
        operands: command.operands(),
    };
    for word in words {
        let Some(behind) = next.behind(command, word.as_str()) else {
            return false;
        };
        next = behind;
    }
    next.waiting.is_none() && next.operands.is_empty()
}

/// How many words are that of an option.
fn count(option: Argument, words: &[String]) -> usize
    ensures { result ≡ count_by (is_option_word option) (map string_bytes words.now) }
{
    let mut count = 0;
    for word in words {
        if option.is_named_by(word.as_bytes()) {
            count += 1;
        }
    }
    count
}

/// Whether the word of each of some options stands among the words at most once.
fn stand_once(options: &[Argument], words: &[String]) -> bool
    ensures { result ≡ stand_once options.now (map string_bytes words.now) }
{
    let mut left = options;
    while let [option, rest @ ..] = left {
        if count(*option, words) > 1 {
            return false;
        }
        left = rest;
    }
    true
}

/// Whether words may stand behind a command.
pub(crate) fn are_lawful(command: CommandName, words: &[String]) -> bool
    ensures { result ≡ is_some (arguments_in command (map string_bytes words.now)) }
{
    fit(command, words) && stand_once(command.options(), words)
}
