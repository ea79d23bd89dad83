// Main as a machine that is cut at its finishes and calls: the caller runs these, so it waits for nobody.

ghost use Rattle.std.specs.Prelude.{◌≡◌, ◌≢◌, IfOk};
ghost use Rattle.spd_io.specs.Sink.{Failed, SameFaults};
ghost use Rattle.spd_words.specs.Total.{ended};
ghost use Rattle.spd_meaning.specs.Eval.{cut};
ghost use Rattle.spd_level.specs.Columns.{context_of};
ghost use Rattle.spd_spine.specs.Walk.{KeepsToMain, main_eval, spine_context, left_with, spine_left, size_with, spine_size, MayGoOn, HasOpenJob, SpineStands, SpineTurned};
ghost use Rattle.spd_spine.specs.declared.turn.SpineTurn.TheVariants as turn;

use crate::turn::{RunError, SpineTurn};
use crate::walk::go_on;
use spd_code::CodeTree;
use spd_data::Data;
use spd_io::Sink;
use spd_level::Level;
use spd_words::Given;
use std::alloc::{AllocError, Global};

/// How many calls may be open at once.
const MOST_CALLS: u32 = 256;

/// Whether main may go on.
#[derive(Clone, Copy, Debug)]
pub enum Standing {
    Runs,
    /// A job is open that stands at this line. Its gift is bound to a new name, or isn't kept.
    Waits {
        line: u32,
        binds: bool,
    },
    /// That job has ended and gave this.
    Given {
        line: u32,
        binds: bool,
        given: Given,
    },
    /// Main has ended, or stopped.
    Ended,
}

/// Main's statements under way.
#[derive(Drop)]
pub struct Spine<'a> {
    pub(crate) code: &'a CodeTree,
    pub(crate) columns: &'a Data,
    pub(crate) level: Level<'a>,
    pub(crate) standing: Standing,
}

impl<'a> Spine<'a> {
    /// Main of a code, over columns, before its first statement. It fails where memory runs out.
    pub fn new(
        alloc: Global,
        code: &'a CodeTree,
        columns: &'a Data,
    ) -> Result<Spine<'a>, AllocError>
        ensures context { IfOk result (λ spine. spine_context spine ≡ context_of code.now columns.now) }
        ensures standing { IfOk result (λ spine. MayGoOn spine.standing) }
        ensures all { IfOk result (λ spine. spine_left spine ≡ cut 0 (main_eval (context_of code.now columns.now))) }
    {
        let level = Level::of_block(&code.main, MOST_CALLS, Vec::new(alloc))?;
        Ok(Spine {
            code,
            columns,
            level,
            standing: Standing::Runs,
        })
    }

    /// Goes on through main to its next finish or call, which is the caller's to run, or to its end, and
    /// puts each print to `out` as it is reached. `Stopped` comes where the sink failed, with a first part
    /// of main's bytes put; `NoMemory` where memory ran out, with a first part of them put and the
    /// sink's count as it was. Behind all but a job main has ended.
    pub fn next<O: Sink>(&mut self, out: &mut O) -> SpineTurn<'a>
        requires main { KeepsToMain (spine_context self.old) }
        requires standing { MayGoOn self.old.standing }
        ensures context { spine_context self.new ≡ spine_context self.old }
        ensures turned { SpineTurned self.old self.new (O.state out.old) (O.state out.new) result }
        ensures standing { SpineStands result self.new.standing }
        ensures cause { result ≡ turn.Stopped → Failed (O.state out.old) (O.state out.new) }
        ensures kept { result ≢ turn.Stopped → SameFaults (O.state out.old) (O.state out.new) }
    {
        match go_on(self, out) {
            Ok(turn) => turn,
            Err(RunError::WriteFailed) => {
                self.standing = Standing::Ended;
                SpineTurn::Stopped
            }
            Err(RunError::NoMemory) => {
                self.standing = Standing::Ended;
                SpineTurn::NoMemory
            }
        }
    }

    /// What the job that is open gave. The next turn goes on behind it. It takes no memory.
    pub fn give(&mut self, given: Given)
        requires { HasOpenJob self.old.standing }
        ensures context { spine_context self.new ≡ spine_context self.old }
        ensures standing { MayGoOn self.new.standing }
        ensures left { spine_left self.new ≡ left_with self.old (ended given) }
        ensures size { spine_size self.new ≡ size_with self.old (ended given) }
    {
        self.standing = match self.standing {
            Standing::Waits { line, binds } => Standing::Given { line, binds, given },
            standing => standing,
        };
    }
}
