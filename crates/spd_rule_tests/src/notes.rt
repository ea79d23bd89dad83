// What a player knows of its share at run time.

ghost use Rattle.std.specs.Prelude.{◌≡◌, ◌<◌, ◌^◌, IfSome};
ghost use Rattle.std.specs.Bool.{OnTrue};
ghost use Rattle.spd_rule_tests.specs.Notes.{new_notes, IsAtLeisure, KnowsInc, Wakes, FliesAs, Signals, IsIdle, HasHandles, Makes, Draws, OpensAt, SpawnsAt, Pays, Works, PaysAtOnce, RunsEnd};
ghost use Rattle.spd_rule_tests.specs.Notes.{IsToCollect, looked_notes, lowered_notes};

use spd_state::{Draw, Flight, Running};
use spd_words::FinishKind;

/// What a share's view says, as far as it decides which steps the share may take. A mark is a number that
/// is 0 where it doesn't stand.
#[derive(Clone, Copy)]
pub struct Notes {
    pub running: Option<Running>,
    pub flight: Option<Flight>,
    /// The units at hand, at most one of each kind.
    pub held: Option<u32>,
    pub claimed: Option<u32>,
    pub rooted: Option<u32>,
    /// The finish that it is told, at most one.
    pub told: Option<u32>,
    pub fresh: u64,
    pub full: u64,
    pub wild: u64,
    /// Whether a wild body was given to the make.
    pub made: u64,
    /// Whether the running vertex has yet to collect, and what kind of finish.
    pub awaits: u64,
    pub waits: FinishKind,
    /// Whether it has collected a code 0 that it has yet to pass on.
    pub hurt: u64,
    pub seats: u64,
    /// Whether it knows the root above the node that its vertex increments at.
    pub knows: bool,
}

impl Notes {
    /// Those of a share that holds nothing, and has begun the make where this is 0.
    pub fn new(fresh: u64) -> Notes
        ensures { result ≡ new_notes fresh }
    {
        Notes {
            running: None,
            flight: None,
            held: None,
            claimed: None,
            rooted: None,
            told: None,
            fresh,
            full: 0,
            wild: 0,
            made: 0,
            awaits: 0,
            waits: FinishKind::Plain,
            hurt: 0,
            seats: 1,
            knows: false,
        }
    }

    /// The vertex that it runs with its right.
    pub fn paying(&self) -> Option<Running>
        ensures { IfSome result (λ r. Pays r self.now) }
    {
        match self.running {
            Some(running) if running.right == 1 && self.wild == 1 => Some(running),
            _ => None,
        }
    }

    /// The same, where it has neither to collect nor to put the code 0 first.
    pub fn working(&self) -> Option<Running>
        ensures { IfSome result (λ r. Works r self.now) }
    {
        let running = self.paying()?;
        if self.awaits == 0 && self.hurt == 0 {
            return Some(running);
        }
        None
    }

    /// The vertex that it runs with its right, where it has no move in flight.
    pub fn giving(&self) -> Option<Running>
        ensures { IfSome result (λ r. PaysAtOnce r self.now) }
    {
        let running = self.paying()?;
        if self.flight.is_none() {
            return Some(running);
        }
        None
    }

    /// The waiting vertex of the finish d of this kind, where it is yet to collect that.
    pub fn collecting(&self, d: u32, kind: FinishKind) -> Option<Running>
        requires { d < 2 ^ 30 }
        ensures { IfSome result (λ r. IsToCollect r d kind self.now) }
    {
        match self.running {
            Some(running)
                if d != 0
                    && self.awaits == 1
                    && self.waits == kind
                    && running.vertex == 2 * d + 1 => { Some(running) }
            _ => None,
        }
    }

    /// Once the fault word of the finish d was seen, and was this.
    pub fn looked(self, d: u32, word: u64) -> Notes
        requires { d < 2 ^ 30 }
        ensures { result ≡ looked_notes d word self }
    {
        let mut notes = self;
        match self.running {
            Some(running) if running.vertex == 2 * d + 1 && self.awaits != 0 => {
                notes.awaits = 0;
                if word == 0 {
                    notes.hurt = 1;
                }
            }
            _ => {}
        }
        notes
    }

    /// Once the code was put.
    pub fn lowered(self, code: u64) -> Notes
        ensures { result ≡ lowered_notes code self }
    {
        let mut notes = self;
        if code == 0 {
            notes.hurt = 0;
        }
        notes
    }

    /// Whether it may draw the move of a make.
    pub fn may_make(&self) -> bool
        ensures { OnTrue result (Makes self.now) }
    {
        self.fresh == 1
            && self.full == 0
            && self.awaits == 0
            && self.hurt == 0
            && self.running.is_none()
            && self.flight.is_none()
    }

    /// The vertex that it runs, where it may draw the move of a chain or a spawn.
    pub fn drawing(&self) -> Option<Running>
        ensures { IfSome result (λ r. Draws r self.now) }
    {
        let running = self.working()?;
        if self.full == 0 && self.flight.is_none() {
            return Some(running);
        }
        None
    }

    /// The make or chain in flight at this stage, with its move.
    pub fn opening(&self, stage: u32) -> Option<(Draw, u32)>
        ensures { IfSome result (λ t. OpensAt t.0 t.1 stage self.now) }
    {
        match self.flight {
            Some(
                Flight {
                    draw: Draw::Spawn,
                    ..
                },
            ) => None,
            Some(f) if f.stage == stage && f.finish == f.number => Some((f.draw, f.number)),
            _ => None,
        }
    }

    /// The move of a spawn in flight at this stage, with its finish.
    pub fn spawning(&self, stage: u32) -> Option<(u32, u32)>
        ensures { IfSome result (λ t. SpawnsAt t.0 t.1 stage self.now) }
    {
        match self.flight {
            Some(
                Flight {
                    draw: Draw::Spawn,
                    number,
                    finish,
                    stage: at,
                },
            ) if at == stage => Some((number, finish)),
            _ => None,
        }
    }

    /// The claimed unit and the other one, where the root above the latter is known to be that of the finish.
    pub fn handles(&self, finish: u32) -> Option<(u32, u32)>
        ensures { IfSome result (λ t. HasHandles t.0 t.1 finish self.now) }
    {
        match (self.claimed, self.held, self.running) {
            (Some(first), Some(second), Some(running))
                if self.knows
                    && self.wild == 1
                    && running.inc == second
                    && running.finish == finish => { Some((first, second)) }
            _ => None,
        }
    }

    /// The move of a make in flight at this stage.
    pub fn making(&self, stage: u32) -> Option<u32>
        ensures { IfSome result (λ d. FliesAs Draw.Make d stage self.now) }
    {
        match self.flight {
            Some(
                Flight {
                    draw: Draw::Make,
                    number,
                    finish,
                    stage: at,
                },
            ) if at == stage && finish == number => Some(number),
            _ => None,
        }
    }

    /// The move of a chain in flight at this stage.
    pub fn chaining(&self, stage: u32) -> Option<u32>
        ensures { IfSome result (λ d. FliesAs Draw.Chain d stage self.now) }
    {
        match self.flight {
            Some(
                Flight {
                    draw: Draw::Chain,
                    number,
                    finish,
                    stage: at,
                },
            ) if at == stage && finish == number => Some(number),
            _ => None,
        }
    }

    /// The claimed unit of a vertex that has used its right, where it may be given back.
    pub fn signalling(&self) -> Option<u32>
        ensures { IfSome result (λ d. Signals d self.now) }
    {
        match (self.claimed, self.running) {
            (Some(unit), Some(running))
                if self.held.is_none()
                    && self.told.is_none()
                    && self.flight.is_none()
                    && self.wild == 1
                    && running.right == 0 => { Some(unit) }
            _ => None,
        }
    }

    /// Whether it holds nothing.
    pub fn is_idle(&self) -> bool
        ensures { OnTrue result (IsIdle self.now) }
    {
        self.running.is_none()
            && self.flight.is_none()
            && self.held.is_none()
            && self.claimed.is_none()
            && self.rooted.is_none()
            && self.told.is_none()
    }

    /// Whether it runs nothing and has no move in flight.
    pub fn rests(&self) -> bool
        ensures { OnTrue result (IsAtLeisure self.now) }
    {
        self.running.is_none() && self.flight.is_none()
    }

    /// The node at which its vertex increments, where the root above it is known to be that of the finish.
    pub fn known_inc(&self, finish: u32) -> Option<u32>
        ensures { IfSome result (λ inc. KnowsInc inc finish self.now) }
    {
        match self.running {
            Some(running) if self.knows && self.wild == 1 && running.finish == finish => {
                Some(running.inc)
            }
            _ => None,
        }
    }

    /// The finish that it is told, where it has nothing else left to do.
    pub fn waking(&self) -> Option<u32>
        ensures { IfSome result (λ f. Wakes f self.now) }
    {
        match (self.told, self.running) {
            (Some(finish), Some(running))
                if self.claimed.is_none() && self.flight.is_none() && running.right == 0 => {
                Some(finish)
            }
            _ => None,
        }
    }

    /// Vertex 1, where it runs that and has no move in flight.
    pub fn ending(&self) -> Option<Running>
        ensures { IfSome result (λ r. RunsEnd r self.now) }
    {
        match self.running {
            Some(running) if running.vertex == 1 && self.flight.is_none() => Some(running),
            _ => None,
        }
    }
}
