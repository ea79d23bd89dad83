// The whole command: what the program does, as a function of its arguments, its files and its sinks.
ghost use Rattle.std.specs.Prelude.{◌≡◌, ◌≢◌, ◌<◌, ◌⊎◌, ◌↔◌, ℕ, List, IfOk, OnErr, IsTrue, Some, None};
ghost use Rattle.spd_io.specs.Sink.{Failed, SameFaults};
ghost use Rattle.spd_command.specs.Asked.{asked_of};
ghost use Rattle.spd_top.specs.BuiltIn.{shelf_for};
ghost use Rattle.spd_top.specs.Requests.{request_of, NamesFile, IsJob};
ghost use Rattle.spd_top.specs.Serving.{words_refused, IsUnread, ChangesNoUntouched, Says, WantsMemory, Answer};
ghost use Rattle.spd_top.specs.Command.{words_of, AreText, OfWords, WhereNotText};

use crate::coins::coins_for;
use crate::on_workers::serve;
use crate::telling::{out_of_memory, refuse_words};
use crate::words::Words;
use spd_io::{Shelf, Sink};
use spd_list::Seq;
use spd_work::{Open, RunLog};
use std::alloc::{AllocError, Global};
use std::str;
use std::sync::Wait;
use std::thread::Threads;

/// The arguments behind the program's own name.
fn words_of(arguments: &[Seq<u8>]) -> &[Seq<u8>]
    ensures { result.now ≡ words_of arguments.now }
{
    match arguments {
        [] => &[],
        [_, words @ ..] => words,
    }
}

/// Whether each word is UTF-8.
fn are_text(words: &[Seq<u8>]) -> bool
    ensures { IsTrue result ↔ AreText words.now }
{
    for word in words {
        let Ok(_) = str::from_utf8(word.as_slice()) else {
            return false;
        };
    }
    true
}

/// The words as `serve` takes them.
fn to_words(alloc: Global, texts: &[Seq<u8>]) -> Result<Words, AllocError>
    requires { AreText texts.now }
    ensures { IfOk result (λ words. words ≡ texts.now) }
{
    let mut words = Words::new(alloc);
    for text in texts {
        let Ok(word) = str::from_utf8(text.as_slice()) else {
            unreachable!()
        };
        words.add(alloc, word)?;
    }
    Ok(words)
}

/// Does what words say, with the coins that their options ask for, a gate that is open, and a new log.
fn serve_words<R: Threads + Wait + Sync, F: Shelf, O: Sink, E: Sink>(
    rt: &R,
    alloc: Global,
    words: &Words,
    shelf: &mut F,
    out: &mut O,
    err: &mut E,
) -> u8
    ensures answer { Answer (request_of words.now)
        (shelf_for words.now (F.state shelf.old)) (shelf_for words.now (F.state shelf.new))
        (O.state out.old) (O.state out.new) (E.state err.old) (E.state err.new) result }
    ensures refused { request_of words.now ≡ None → Says 2 (E.state err.old) (E.state err.new) words_refused result ⊎
        WantsMemory (E.state err.old) (E.state err.new) result }
    ensures uncalled { (NamesFile (asked_of words.now) → ⊥) → shelf.new ≡ shelf.old }
    ensures others { ChangesNoUntouched (request_of words.now)
        (shelf_for words.now (F.state shelf.old)) (shelf_for words.now (F.state shelf.new)) }
    ensures read_cause { result ≡ 4 → (name : List ℕ) × IsUnread (request_of words.now)
        (shelf_for words.now (F.state shelf.old)) (shelf_for words.now (F.state shelf.new)) name }
    ensures job_is_read { IsJob (asked_of words.now) → result ≢ 4 }
    ensures write_cause { result ≡ 5 →
        Failed (O.state out.old) (O.state out.new) ⊎ Failed (E.state err.old) (E.state err.new) }
    ensures out_kept { result ≢ 5 → SameFaults (O.state out.old) (O.state out.new) }
    ensures err_kept { result < 4 → SameFaults (E.state err.old) (E.state err.new) }
{
    match coins_for(alloc, words) {
        Ok(coins) => {
            let mut coins = coins;
            let mut log = RunLog::new();
            let coins = coins.as_mut_slice();
            serve(rt, alloc, words, shelf, out, err, coins, &Open, &mut log)
        }
        Err(_) => out_of_memory(err),
    }
}

/// Does what the arguments of a program say, of which the first is its own name and is not looked
/// at, and answers the status that the program ends with.
///
/// The words behind it go to `serve` as they are; where one isn't UTF-8 they are refused. The coins of a run
/// are made by the words' own options.
/// Arguments that could not be had for want of memory are answered as such.
pub fn serve_arguments<R: Threads + Wait + Sync, F: Shelf, O: Sink, E: Sink>(
    rt: &R,
    alloc: Global,
    arguments: Result<Seq<Seq<u8>>, AllocError>,
    shelf: &mut F,
    out: &mut O,
    err: &mut E,
) -> u8
    // The answer is that to the words.
    ensures answer { OfWords arguments (λ words. Answer (request_of words)
        (shelf_for words (F.state shelf.old)) (shelf_for words (F.state shelf.new))
        (O.state out.old) (O.state out.new) (E.state err.old) (E.state err.new) result) }
    // Words that aren't UTF-8 are refused, whatever memory there is, and arguments that could not be had are told.
    ensures not_text { WhereNotText arguments (Says 2 (E.state err.old) (E.state err.new) words_refused result) }
    ensures not_had { OnErr arguments (WantsMemory (E.state err.old) (E.state err.new) result) }
    // Refused words are told as such, unless memory runs out.
    ensures refused { OfWords arguments (λ words. request_of words ≡ None →
        Says 2 (E.state err.old) (E.state err.new) words_refused result ⊎
        WantsMemory (E.state err.old) (E.state err.new) result) }
    // Refused words, a made file and a job don't call the shelf; arguments that give no words call neither it nor `out`.
    ensures uncalled { OfWords arguments (λ words. (NamesFile (asked_of words) → ⊥) → shelf.new ≡ shelf.old) }
    ensures uncalled_not_text { WhereNotText arguments ((shelf.new ≡ shelf.old) × (out.new ≡ out.old)) }
    ensures uncalled_not_had { OnErr arguments ((shelf.new ≡ shelf.old) × (out.new ≡ out.old)) }
    // No count changes but that of PROGRAM and those of its data files.
    ensures others { OfWords arguments (λ words. ChangesNoUntouched (request_of words)
        (shelf_for words (F.state shelf.old)) (shelf_for words (F.state shelf.new))) }
    // 4 comes only where a read of one of these failed, so not for a job, and 5 only where a sink failed.
    ensures read_cause { OfWords arguments (λ words. result ≡ 4 → (name : List ℕ) × IsUnread (request_of words)
        (shelf_for words (F.state shelf.old)) (shelf_for words (F.state shelf.new)) name) }
    ensures job_is_read { OfWords arguments (λ words. IsJob (asked_of words) → result ≢ 4) }
    ensures write_cause { result ≡ 5 →
        Failed (O.state out.old) (O.state out.new) ⊎ Failed (E.state err.old) (E.state err.new) }
    // Where `out` failed the status is 5, and where `err` failed it is 4, 5 or 7.
    ensures out_kept { result ≢ 5 → SameFaults (O.state out.old) (O.state out.new) }
    ensures err_kept { result < 4 → SameFaults (E.state err.old) (E.state err.new) }
{
    let Ok(arguments) = arguments else {
        return out_of_memory(err);
    };
    let words = words_of(arguments.as_slice());
    if !are_text(words) {
        return refuse_words(err);
    }
    match to_words(alloc, words) {
        Ok(words) => serve_words(rt, alloc, &words, shelf, out, err),
        Err(_) => out_of_memory(err),
    }
}
