// A dag of vertices that is run on one thread, the newest vertex first.

ghost use Rattle.std.specs.Prelude.{◌+◌, ◌<◌, ◌≤◌, length, None, IfOk};
ghost use Rattle.spd_words.specs.declared.event.Event.TheVariants as event;
ghost use Rattle.spd_region.specs.Dag.{MayRun, promised_total, drawn_within, dag_view, DagAtRest, DagDraws};
ghost use Rattle.spd_region.specs.DagSteps.{DagTurn, DagVertexEnd, DagClose, PlaysVertex, TakesEvent, TakesPart};
ghost use Rattle.spd_region.specs.DagSteps.{IsForked, IsOpened, MayTurn, MayPlay, MayTakePart, MayEnd, MayClose};

use crate::finish::Finish;
use crate::outer::Outer;
use crate::region::Region;
use spd_words::{Body, Event, FinishKind, Part};
use std::alloc::{AllocError, Global};

/// A dag that is run on one thread.
#[derive(Drop)]
pub(crate) struct Dag<B> {
    /// The vertices that are ready, the newest last. The newest are of the innermost finish, and
    /// those before them are of the finishes outside, from the inside to the outside.
    ready: Vec<B>,
    innermost: Finish,
    /// The finishes outside, the innermost of them last.
    outside: Vec<Outer<B>>,
    /// How many moves were drawn.
    drawn: u64,
    /// How many moves may be drawn.
    most: u64,
}

impl<B: Body> Dag<B> {
    /// A dag of one finish with one vertex. The finish is its first move.
    pub(crate) fn new(
        alloc: Global,
        kind: FinishKind,
        body: B,
        most: u64,
    ) -> Result<Dag<B>, AllocError>
        requires body { MayRun kind (B.view body) }
        requires most { 0 < most }
        ensures rest { IfOk result (λ dag. DagAtRest (dag_view B.view dag) (promised_total (B.view body))) }
        ensures draws { IfOk result (λ dag. DagDraws (dag_view B.view dag) 0 (drawn_within most (B.view body))) }
    {
        let mut ready = Vec::new(alloc);
        ready.push(body)?;
        Ok(Dag {
            ready,
            innermost: Finish::new(kind),
            outside: Vec::new(alloc),
            drawn: 1,
            most,
        })
    }

    /// Runs the newest vertex up to its next event. Where the outermost finish has ended with it,
    /// it gives what the region has.
    pub(crate) fn turn(&mut self, alloc: Global) -> Result<Option<Region>, AllocError>
        requires { MayTurn (dag_view B.view self.old) }
        ensures { IfOk result (λ region. DagTurn (dag_view B.view self.old) (dag_view B.view self.new) region) }
    {
        match self.ready.pop() {
            Some(vertex) => self.play(alloc, vertex),
            None => unreachable!(),
        }
    }

    /// The same for a vertex that has just been taken from those that are ready.
    fn play(&mut self, alloc: Global, vertex: B) -> Result<Option<Region>, AllocError>
        requires { MayPlay (dag_view B.view self.old) (B.view vertex) }
        ensures { IfOk result (λ region. PlaysVertex B.view self.old vertex self.new region) }
    {
        let mut vertex = vertex;
        match vertex.advance(alloc) {
            Event::Offer(value) => {
                self.offer(vertex, value)?;
                Ok(None)
            }
            Event::Fault(code) => {
                self.fault(vertex, code)?;
                Ok(None)
            }
            Event::Async(child) => {
                self.branch(alloc, vertex, Part::Async(child))?;
                Ok(None)
            }
            Event::Finish(kind, child) => {
                self.branch(alloc, vertex, Part::Finish(kind, child))?;
                Ok(None)
            }
            Event::Over => self.end(),
            Event::NoMemory => Err(AllocError),
        }
    }

    fn offer(&mut self, rest: B, value: i64) -> Result<(), AllocError>
        ensures { IfOk result (λ _. TakesEvent B.view self.old rest (event.Offer value) self.new None) }
    {
        self.innermost.tally.offer(value);
        self.ready.push(rest)?;
        Ok(())
    }

    fn fault(&mut self, rest: B, code: u64) -> Result<(), AllocError>
        ensures { IfOk result (λ _. TakesEvent B.view self.old rest (event.Fault code) self.new None) }
    {
        self.innermost.tally.fault(code);
        self.ready.push(rest)?;
        Ok(())
    }

    /// The body of the part is a vertex of its own where a move is left, and else runs inside.
    fn branch(&mut self, alloc: Global, rest: B, part: Part<B>) -> Result<(), AllocError>
        requires takes { MayTakePart B.view self.old rest part }
        requires fits { B.fits rest part }
        ensures { IfOk result (λ _. TakesPart B.view self.old rest part self.new) }
    {
        if self.drawn >= self.most {
            let mut rest = rest;
            rest.inside(alloc, part)?;
            self.ready.push(rest)?;
            return Ok(());
        }
        self.drawn += 1;
        match part {
            Part::Async(child) => self.fork(rest, child),
            Part::Finish(kind, child) => self.open(rest, kind, child),
        }
    }

    /// The child is one more vertex of the finish, and ready.
    fn fork(&mut self, rest: B, child: B) -> Result<(), AllocError>
        requires { self.old.innermost.in_counter ≤ length self.old.ready.items + 1 }
        ensures { IfOk result (λ _. IsForked B.view self.old rest child self.new) }
    {
        self.ready.push(rest)?;
        self.ready.push(child)?;
        self.innermost.arrive();
        Ok(())
    }

    /// The child is the first vertex of a finish inside, for which the rest waits.
    fn open(&mut self, rest: B, kind: FinishKind, child: B) -> Result<(), AllocError>
        ensures { IfOk result (λ _. IsOpened B.view self.old rest kind child self.new) }
    {
        self.outside.push(Outer {
            finish: self.innermost,
            waiting: rest,
        })?;
        self.innermost = Finish::new(kind);
        self.ready.push(child)?;
        Ok(())
    }

    /// A vertex of the innermost finish has ended, and with the last of them the finish.
    fn end(&mut self) -> Result<Option<Region>, AllocError>
        requires { MayEnd (dag_view B.view self.old) }
        ensures { IfOk result (λ region. DagVertexEnd (dag_view B.view self.old) (dag_view B.view self.new) region) }
    {
        if self.innermost.depart() {
            self.close()
        } else {
            Ok(None)
        }
    }

    /// The innermost finish has ended. The vertex that waits for it is ready again, and goes on with
    /// what the finish gives; where none waits, that is what the region gives.
    fn close(&mut self) -> Result<Option<Region>, AllocError>
        requires { MayClose (dag_view B.view self.old) }
        ensures { IfOk result (λ region. DagClose (dag_view B.view self.old) (dag_view B.view self.new) region) }
    {
        let given = self.innermost.tally.given();
        match self.outside.pop() {
            None => Ok(Some(Region {
                given,
                moves: self.drawn,
            })),
            Some(outer) => {
                let Outer { finish, waiting } = outer;
                let mut waiting = waiting;
                waiting.resume(given.gift, given.fault);
                self.innermost = finish;
                self.ready.push(waiting)?;
                Ok(None)
            }
        }
    }
}
