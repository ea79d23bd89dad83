// What the words of a command line do, over files and sinks.

ghost use Rattle.std.specs.Prelude.{◌≡◌, ◌≢◌, ◌<◌, ◌⊎◌, ℕ, List, None};
ghost use Rattle.spd_io.specs.Sink.{Failed, SameFaults};
ghost use Rattle.spd_top.specs.Requests.{program_asked, still_request_of};
ghost use Rattle.spd_top.specs.Serving.{words_refused, IsUnread, ChangesNoUntouched, Says, Answer, HasOneOutcome};

use crate::programs::{check, elide, make};
use crate::telling::{out_of_memory, refuse_words};
use crate::words::Words;
use spd_command::{Command, CommandError};
use spd_io::{Shelf, Sink};
use std::alloc::Global;

/// Does what the words of a command line say, over a shelf of files, a sink for the output and one
/// for errors, and answers the status that the command ends with.
///
/// It does `elide PROGRAM`, `check PROGRAM` and `make ROWS SEED`; every other list of words is refused.
/// Where the program runs, its data files are read first, in the order of their declarations. It always
/// returns.
#[tactic(auto, using(crate::proofs::OneOutcome::has_one_outcome))]
pub fn serve_still<F: Shelf, O: Sink, E: Sink>(
    alloc: Global,
    words: &Words,
    shelf: &mut F,
    out: &mut O,
    err: &mut E,
) -> u8
    // The status, the bytes and the line are those of the outcome, unless a read, a sink or memory failed.
    ensures answer { Answer (still_request_of words.now) (F.state shelf.old) (F.state shelf.new)
        (O.state out.old) (O.state out.new) (E.state err.old) (E.state err.new) result }
    // Refused words are told as such, whatever memory there is. They and a made file don't call the shelf.
    ensures refused { still_request_of words.now ≡ None →
        Says 2 (E.state err.old) (E.state err.new) words_refused result }
    ensures uncalled { program_asked (still_request_of words.now) ≡ None → shelf.new ≡ shelf.old }
    // No count changes but that of PROGRAM and those of its data files.
    ensures others { ChangesNoUntouched (still_request_of words.now) (F.state shelf.old) (F.state shelf.new) }
    // 4 comes only where a read of one of these failed, and 5 only where a sink failed.
    ensures read_cause { result ≡ 4 → (name : List ℕ) ×
        IsUnread (still_request_of words.now) (F.state shelf.old) (F.state shelf.new) name }
    ensures write_cause { result ≡ 5 →
        Failed (O.state out.old) (O.state out.new) ⊎ Failed (E.state err.old) (E.state err.new) }
    // Where `out` failed the status is 5, and where `err` failed it is 4, 5 or 7.
    ensures out_kept { result ≢ 5 → SameFaults (O.state out.old) (O.state out.new) }
    ensures err_kept { result < 4 → SameFaults (E.state err.old) (E.state err.new) }
    // Over a file that is told, the outcome is one.
    ensures one { HasOneOutcome (still_request_of words.now) (F.state shelf.old).file }
{
    if !words.ask_still() {
        return refuse_words(err);
    }
    match words.command(alloc) {
        Ok(Command::Elide { program }) => elide(alloc, program, shelf, out, err),
        Ok(Command::Check { program }) => check(alloc, program, shelf, out, err),
        Ok(Command::Make { rows, seed }) => make(alloc, rows, seed, out, err),
        Err(CommandError::NoMemory) => out_of_memory(err),
        Ok(_) => unreachable!(),
        Err(CommandError::Refused) => unreachable!(),
    }
}
