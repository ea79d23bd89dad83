// The steps of a share that starts a vertex, claims, arrives, departs and wakes.

ghost use Rattle.std.specs.Prelude.{◌≡◌, ◌<◌};
ghost use Rattle.spd_words.specs.Words.{vertex_of, pair_of};
ghost use Rattle.spd_state.specs.Dag.{next_handle};
ghost use Rattle.spd_state.specs.Steps.{start_run};
ghost use Rattle.spd_rule_tests.specs.Ties.{wild_mark_of, wait_mark_of, wait_kind_of, end_alone};

use crate::player::Player;
use crate::stub::{Stub, StubStage};
use spd_rule::{Field, add_root, claim, see_vertex, start_vertex, sub_root, wake_vertex};
use spd_state::Running;
use spd_words::{FinishKind, NodeWord, PairWord, VertexWord};

impl Player {
    ghost use Rattle.spd_rule.specs.Shares.{IsOf};

    /// Looks at the word of the vertex v.
    pub fn see(&mut self, field: &Field<Stub>, v: u32) -> Option<u64>
        requires { IsOf field.now self.old.share }
        ensures { IsOf field.now self.new.share }
    {
        if v / 2 >= field.plan().moves() {
            return None;
        }
        Some(see_vertex(field, &mut self.share, v))
    }

    /// Starts the vertex v, whose word was seen to be this, and takes its body out of the slot. Answers the
    /// word that it found; the body is the player's from then on (`body`).
    pub fn start(&mut self, field: &Field<Stub>, v: u32, seen: u64) -> Option<u64>
        requires { IsOf field.now self.old.share }
        ensures { IsOf field.now self.new.share }
    {
        if v / 2 >= field.plan().moves() || VertexWord::state(seen) != 2 || !self.notes.rests() {
            return None;
        }
        match start_vertex(field, &mut self.share, v, seen) {
            Ok(found) => {
                let body = field.trade(&mut self.share, None);
                self.notes.running = Some(started(v, seen));
                self.notes.wild = wild_mark(&body);
                self.notes.awaits = wait_mark(&body);
                self.notes.waits = wait_kind(&body);
                self.notes.knows = true;
                self.body = body;
                Some(found)
            }
            Err(found) => Some(found),
        }
    }

    /// Claims a handle of the running vertex's pair.
    pub fn claim(&mut self, field: &Field<Stub>) -> Option<u64>
        requires { IsOf field.now self.old.share }
        ensures { IsOf field.now self.new.share }
    {
        let mut r = self.notes.working()?;
        let found = claim(field, &mut self.share);
        r.right = 0;
        self.notes.running = Some(r);
        self.notes.claimed = Some(handle_of(found));
        Some(found)
    }

    /// Arrives at the root of the running vertex's finish.
    pub fn arrive(&mut self, field: &Field<Stub>) -> Option<u64>
        requires { IsOf field.now self.old.share }
        ensures { IsOf field.now self.new.share }
    {
        let r = self.notes.working()?;
        if self.notes.held.is_some() || r.finish >= field.plan().moves() {
            return None;
        }
        let found = add_root(field, &mut self.share, r.finish);
        self.notes.held = Some(r.finish);
        Some(found)
    }

    /// Departs from the node of the claimed unit.
    pub fn depart(&mut self, field: &Field<Stub>) -> Option<u64>
        requires { IsOf field.now self.old.share }
        ensures { IsOf field.now self.new.share }
    {
        let d = self.notes.signalling()?;
        if d >= field.plan().moves() {
            return None;
        }
        let found = sub_root(field, &mut self.share, d);
        self.notes.claimed = None;
        if NodeWord::twice(found) == 2 {
            self.notes.told = Some(d);
        } else {
            self.notes.running = unless_end(self.notes.running);
        }
        Some(found)
    }

    /// Wakes the waiting vertex of the finish that it is told.
    pub fn wake(&mut self, field: &Field<Stub>) -> Option<u64>
        requires { IsOf field.now self.old.share }
        ensures { IsOf field.now self.new.share }
    {
        let f = self.notes.waking()?;
        if f >= field.plan().moves() {
            return None;
        }
        let found = wake_vertex(field, &mut self.share, f);
        self.notes.told = None;
        self.notes.running = unless_end(self.notes.running);
        Some(found)
    }
}

/// Vertex v as its word says. Vertex 1 has no right to claim.
fn started(v: u32, seen: u64) -> Running
    ensures { result ≡ start_run v (vertex_of seen) }
{
    Running {
        vertex: v,
        side: VertexWord::side(seen),
        pair: VertexWord::pair(seen),
        finish: VertexWord::finish(seen),
        inc: VertexWord::inc(seen),
        right: if v == 1 { 0 } else { 1 },
    }
}

/// 1 where there is a body: all stubs are wild.
fn wild_mark(body: &Option<Stub>) -> u64
    ensures { result ≡ wild_mark_of body.now }
{
    match body {
        Some(_) => 1,
        None => 0,
    }
}

/// 1 where the body waits.
fn wait_mark(body: &Option<Stub>) -> u64
    ensures { result ≡ wait_mark_of body.now }
{
    match body {
        Some(stub) => match stub.stage {
            StubStage::Waits(_) => 1,
            _ => 0,
        },
        None => 0,
    }
}

/// The kind of finish for which the body waits; plain where it doesn't.
fn wait_kind(body: &Option<Stub>) -> FinishKind
    ensures { result ≡ wait_kind_of body.now }
{
    match body {
        Some(stub) => match stub.stage {
            StubStage::Waits(kind) => kind,
            _ => FinishKind::Plain,
        },
        None => FinishKind::Plain,
    }
}

/// The handle that a claim took which found this pair.
fn handle_of(found: u64) -> u32
    requires { (pair_of found).claims < 2 }
    ensures { result ≡ next_handle (pair_of found) }
{
    if PairWord::claims(found) == 0 {
        PairWord::first(found)
    } else {
        PairWord::second(found)
    }
}

/// The vertex that still runs, once one is over: vertex 1 isn't over so.
fn unless_end(running: Option<Running>) -> Option<Running>
    ensures { result ≡ end_alone running }
{
    match running {
        Some(r) if r.vertex == 1 => Some(r),
        _ => None,
    }
}
