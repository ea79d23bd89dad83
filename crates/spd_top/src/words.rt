// The words of a command line.

ghost use Rattle.std.specs.Prelude.{◌≡◌, ◌↔◌, [], ◌∷◌, ◌++◌, Some, None, Err, is_some, map, IfOk, OnOk, OnErr};
ghost use Rattle.std.specs.String.{string_bytes};
ghost use Rattle.spd_command.specs.Asked.{KeepsRanges, asked_of};
ghost use Rattle.spd_command.specs.Seen.{asked};
ghost use Rattle.spd_top.specs.Requests.{needs_workers, settings_asked, still_request_of};

use spd_command::{Command, CommandError, CommandName, lawful_command, read_command};
use std::alloc::{AllocError, Global};
use std::marker::Model;

/// A command over a program, on one thread.
#[derive(Clone, Copy, Debug, PartialEq, Eq)]
pub enum SerialCommand {
    /// To run a program, each async and finish where it stands.
    Elide,
    /// To tell the first fault of a program, or else its canonical text.
    Check,
}

/// The words of a command line, without the program's own name.
#[derive(Drop)]
pub struct Words {
    words: Vec<String>,
}

impl Model for Words {
    ghost use Rattle.std.specs.Prelude.{ℕ, List, map, string_bytes};

    ghost Value = { List (List ℕ) };

    ghost view = { λ words. map (λ word. string_bytes word) words.words.items };
}

impl Words {
    /// No words.
    pub fn new(alloc: Global) -> Words
        ensures { result ≡ [] }
    {
        Words {
            words: Vec::new(alloc),
        }
    }

    /// Adds a word at the end. Where memory runs out the words are unchanged.
    pub fn add(&mut self, alloc: Global, word: &str) -> Result<(), AllocError>
        ensures ok { OnOk result (self.new ≡ self.old ++ word.now ∷ []) }
        ensures err { OnErr result (self.new ≡ self.old) }
    {
        let word = String::from_str(alloc, word)?;
        self.words.push(word)?;
        Ok(())
    }

    /// Whether they ask for a command on one thread. It takes no memory.
    pub(crate) fn ask_still(&self) -> bool
        ensures { result ≡ is_some (still_request_of self.now) }
    {
        ask_still_in(self.words.as_slice())
    }

    /// Whether they ask for workers. It takes no memory.
    pub(crate) fn ask_workers(&self) -> bool
        ensures { result ≡ is_some (settings_asked self.now) }
    {
        ask_workers_in(self.words.as_slice())
    }

    /// What they ask for. `Refused` comes exactly where they are no command line, whatever memory there is.
    pub(crate) fn command(&self, alloc: Global) -> Result<Command<'_>, CommandError>
        ensures read { IfOk result (λ command. Some (asked command) ≡ asked_of self.now) }
        ensures refused { (result ≡ Err CommandError.Refused) ↔ (asked_of self.now ≡ None) }
        ensures ranges { IfOk result (λ command. KeepsRanges (asked command)) }
    {
        read_command(alloc, self.words.as_slice())
    }
}

/// Whether words ask for a command on one thread.
#[tactic(auto, using(crate::proofs::Asking::still_named, crate::proofs::Asking::still_none))]
fn ask_still_in(words: &[String]) -> bool
    ensures { result ≡ is_some (still_request_of (map string_bytes words.now)) }
{
    match lawful_command(words) {
        Some(name) => !needs_workers(name),
        None => false,
    }
}

/// Whether words ask for workers.
#[tactic(auto, using(crate::proofs::Asking::workers_named, crate::proofs::Asking::workers_none))]
fn ask_workers_in(words: &[String]) -> bool
    ensures { result ≡ is_some (settings_asked (map string_bytes words.now)) }
{
    match lawful_command(words) {
        Some(name) => needs_workers(name),
        None => false,
    }
}

/// Whether the command of a name runs on workers.
fn needs_workers(name: CommandName) -> bool
    ensures { result ≡ needs_workers name }
{
    match name {
        CommandName::Run | CommandName::Job => true,
        CommandName::Elide | CommandName::Check | CommandName::Make => false,
    }
}
