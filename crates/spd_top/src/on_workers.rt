// The words of a command line where a program may run on workers.

ghost use Rattle.std.specs.Prelude.{◌≡◌, ◌≢◌, ◌<◌, ◌≤◌, ◌⊎◌, ℕ, List, Some, None, length};
ghost use Rattle.spd_io.specs.Sink.{Failed, SameFaults};
ghost use Rattle.spd_command.specs.declared.settings.Settings.{Settings};
ghost use Rattle.spd_command.specs.Asked.{AreInRange, asked_of};
ghost use Rattle.spd_top.specs.declared.words.SerialCommand.TheVariants.{Elide};
ghost use Rattle.spd_top.specs.BuiltIn.{job_name, job_shelf, shelf_for};
ghost use Rattle.spd_top.specs.Requests.{over, counts_for, request_of, settings_asked, NamesFile, IsJob};
ghost use Rattle.spd_top.specs.Serving.{words_refused, IsUnread, ChangesNoUntouched, Says, Answer, HasOneOutcome};
ghost use Rattle.spd_top.specs.Jobs.{EndsRun, LogsRun};

use crate::counts::RegionCounts;
use crate::job_shelf::{JOB_NAME, JobShelf};
use crate::loaded::load_program;
use crate::programs::tell_end;
use crate::serving::serve_still;
use crate::telling::out_of_memory;
use crate::words::Words;
use spd_command::{Command, CommandError, Settings};
use spd_grow::Coin;
use spd_io::{Shelf, Sink};
use spd_run::run_main_on_workers;
use spd_words::{Plan, Scheme};
use spd_work::{Gate, RunLog};
use std::alloc::Global;
use std::sync::Wait;
use std::thread::Threads;

/// Runs the program of a file, each job of its main by workers, as the settings say, tells the counts by
/// which the log rose, where they ask for that, and answers the status. The trees of a table are flat,
/// whatever the settings say.
fn run<R: Threads + Wait + Sync, F: Shelf, O: Sink, E: Sink, C: Coin, G: Gate>(
    rt: &R,
    alloc: Global,
    name: &str,
    settings: Settings,
    shelf: &mut F,
    out: &mut O,
    err: &mut E,
    coins: &mut [C],
    gate: &G,
    log: &mut RunLog,
) -> u8
    requires ranges { AreInRange settings }
    requires coins { 64 ≤ length coins.old }
    ensures answer { Answer (Some (over Elide name.now (counts_for settings))) (F.state shelf.old) (F.state shelf.new)
        (O.state out.old) (O.state out.new) (E.state err.old) (E.state err.new) result }
    ensures others { ChangesNoUntouched (Some (over Elide name.now (counts_for settings)))
        (F.state shelf.old) (F.state shelf.new) }
    ensures read_cause { result ≡ 4 → (file : List ℕ) ×
        IsUnread (Some (over Elide name.now (counts_for settings))) (F.state shelf.old) (F.state shelf.new) file }
    ensures log { EndsRun result → LogsRun settings (Some (over Elide name.now (counts_for settings)))
        (F.state shelf.old).file log.old log.new }
{
    let program = match load_program(alloc, name, shelf, err) {
        Ok(program) => program,
        Err(status) => return status,
    };
    let Ok(plan) = Plan::new(Scheme::Flat, settings.moves, settings.nodes) else {
        unreachable!()
    };
    let before = RegionCounts::of(log);
    let ended = run_main_on_workers(
        rt,
        alloc,
        program.code.tree(),
        &program.columns,
        plan,
        settings.workers,
        coins,
        gate,
        log,
        out,
    );
    let counts = before.risen_in(log, settings.counts);
    tell_end(alloc, err, name, ended, counts)
}

/// The same of the built-in program, over a file of so many rows that is made from a seed.
fn run_job<R: Threads + Wait + Sync, O: Sink, E: Sink, C: Coin, G: Gate>(
    rt: &R,
    alloc: Global,
    rows: u32,
    seed: u32,
    settings: Settings,
    out: &mut O,
    err: &mut E,
    coins: &mut [C],
    gate: &G,
    log: &mut RunLog,
) -> u8
    requires rows { rows ≤ 1000000 }
    requires ranges { AreInRange settings }
    requires coins { 64 ≤ length coins.old }
    ensures answer { Answer (Some (over Elide job_name (counts_for settings)))
        (job_shelf rows seed) (job_shelf rows seed)
        (O.state out.old) (O.state out.new) (E.state err.old) (E.state err.new) result }
    ensures read { result ≢ 4 }
    ensures log { EndsRun result → LogsRun settings (Some (over Elide job_name (counts_for settings)))
        (job_shelf rows seed).file log.old log.new }
{
    let mut shelf = JobShelf::new(rows, seed);
    let shelf = &mut shelf;
    run(
        rt, alloc, JOB_NAME, settings, shelf, out, err, coins, gate, log,
    )
}

/// Does what the words of a command line say, over a shelf of files, a sink for the output and one for
/// errors, and answers the status that the command ends with.
///
/// `run PROGRAM` runs the program on workers, each job of its main over a new table; the field that it
/// leaves goes into the log. The gate is told of each start. `job ROWS SEED` runs the built-in program so, over
/// a file of its own. With `--counts` the regions and the moves by which the log rose are told behind a
/// program that ran to its end. Every other list of words goes to `serve_still`. That a run returns isn't
/// promised, since it waits for its workers.
#[tactic(auto, using(crate::proofs::OneOutcome::has_one_outcome))]
pub fn serve<R: Threads + Wait + Sync, F: Shelf, O: Sink, E: Sink, C: Coin, G: Gate>(
    rt: &R,
    alloc: Global,
    words: &Words,
    shelf: &mut F,
    out: &mut O,
    err: &mut E,
    coins: &mut [C],
    gate: &G,
    log: &mut RunLog,
) -> u8
    requires coins { 64 ≤ length coins.old }
    // The status, the bytes and the line are those of the outcome, unless a read, a sink or memory failed: of a run
    // it is that of its program's serial elision, whatever its workers, moves, coins and schedule are.
    ensures answer { Answer (request_of words.now)
        (shelf_for words.now (F.state shelf.old)) (shelf_for words.now (F.state shelf.new))
        (O.state out.old) (O.state out.new) (E.state err.old) (E.state err.new) result }
    // Refused words are told as such, whatever memory there is. They, a made file and a job don't call the shelf.
    ensures refused { request_of words.now ≡ None →
        Says 2 (E.state err.old) (E.state err.new) words_refused result }
    ensures uncalled { (NamesFile (asked_of words.now) → ⊥) → shelf.new ≡ shelf.old }
    // No count changes but that of PROGRAM and those of its data files.
    ensures others { ChangesNoUntouched (request_of words.now)
        (shelf_for words.now (F.state shelf.old)) (shelf_for words.now (F.state shelf.new)) }
    // 4 comes only where a read of one of these failed, so not for a job, and 5 only where a sink failed.
    ensures read_cause { result ≡ 4 → (name : List ℕ) × IsUnread (request_of words.now)
        (shelf_for words.now (F.state shelf.old)) (shelf_for words.now (F.state shelf.new)) name }
    ensures job_is_read { IsJob (asked_of words.now) → result ≢ 4 }
    ensures write_cause { result ≡ 5 →
        Failed (O.state out.old) (O.state out.new) ⊎ Failed (E.state err.old) (E.state err.new) }
    // Where `out` failed the status is 5, and where `err` failed it is 4, 5 or 7.
    ensures out_kept { result ≢ 5 → SameFaults (O.state out.old) (O.state out.new) }
    ensures err_kept { result < 4 → SameFaults (E.state err.old) (E.state err.new) }
    // Over a file that is told, the outcome is one.
    ensures one { HasOneOutcome (request_of words.now) (shelf_for words.now (F.state shelf.old)).file }
    // Where main came to its end, the log was told of its jobs. It stays where no workers are asked for.
    ensures logged { (settings : Settings) → settings_asked words.now ≡ Some settings → EndsRun result →
        LogsRun settings (request_of words.now) (shelf_for words.now (F.state shelf.old)).file log.old log.new }
    ensures unlogged { settings_asked words.now ≡ None → log.new ≡ log.old }
{
    if !words.ask_workers() {
        return serve_still(alloc, words, shelf, out, err);
    }
    match words.command(alloc) {
        Ok(Command::Run { program, settings }) => run(
            rt, alloc, program, settings, shelf, out, err, coins, gate, log,
        ),
        Ok(
            Command::Job {
                rows,
                seed,
                settings,
            },
        ) => run_job(rt, alloc, rows, seed, settings, out, err, coins, gate, log),
        Err(CommandError::NoMemory) => out_of_memory(err),
        Ok(_) => unreachable!(),
        Err(CommandError::Refused) => unreachable!(),
    }
}
