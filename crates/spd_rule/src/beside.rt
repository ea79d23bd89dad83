// The numbers that a share keeps beside its seat, to be read between steps.

ghost use Rattle.std.specs.Prelude.{◌≡◌, ◌≢◌, ◌+◌, ◌*◌, ◌∷◌, [], ◌<◌, ◌≤◌, Some, None, true, false, length, cond};
ghost use Rattle.spd_state.specs.Sums.{count};
ghost use Rattle.spd_words.specs.Words.{vertex_of};
ghost use Rattle.spd_state.specs.Steps.{lose_right, start_run};
ghost use Rattle.spd_rule.specs.Steps.{drawn_flight};
ghost use Rattle.spd_state.specs.declared.view.Flight.{Flight};
ghost use Rattle.spd_rule.specs.Moves.{after_first, less_first};
ghost use Rattle.spd_rule.specs.Rest.{due, due_at};
ghost use Rattle.spd_rule.specs.Idle.{IsNewBeside, StoresFirst, StoresLast, flight_at, flies_spawn, PairsRoot, PairsUnits, DrawsBeside, HoldsOneMore, DepartsFrom, WakesBeside, StartsBeside, JoinsBeside, TakesUnit, IsSettled};

use arrayvec::ArrayVec;
use spd_state::{Draw, Flight, Running};
use spd_words::VertexWord;

/// The most units that a share holds.
pub(crate) const MOST_UNITS: usize = 66;

/// What a share's view says of the running vertex, of the move in flight and of the units that it
/// holds, and how many units it has claimed, finishes it is told, spare seats it has, and vertices it
/// has started.
#[derive(Drop)]
pub(crate) struct Beside {
    pub running: Option<Running>,
    pub flight: Option<Flight>,
    pub units: ArrayVec<u32, MOST_UNITS>,
    pub claimed: u32,
    pub told: u32,
    pub spare: u32,
    /// It has seen the moves full.
    pub full: bool,
    pub starts: u64,
}

impl Beside {
    /// The numbers of a share that holds nothing.
    pub fn new(spare: u32) -> Beside
        ensures { IsNewBeside result spare }
    {
        Beside {
            running: None,
            flight: None,
            units: ArrayVec::new(),
            claimed: 0,
            told: 0,
            spare,
            full: false,
            starts: 0,
        }
    }

    /// The right of the running vertex has become a unit.
    pub fn claim(&mut self)
        ensures { self.new ≡ record self.old { running = lose_right self.old.running; claimed = 1 } }
    {
        if let Some(running) = &mut self.running {
            running.right = 0;
        }
        self.claimed = 1;
    }

    /// A move is drawn, where one was left.
    pub fn draw(&mut self, of: Draw, number: u64, moves: u32)
        ensures drawn { number < moves → DrawsBeside of number self.old self.new }
        ensures full { moves ≤ number → self.new ≡ record self.old { full = true } }
    {
        if number < u64::from(moves) {
            let number = number as u32;
            self.flight = Some(flight_of(of, number, self.running));
        } else {
            self.full = true;
        }
    }

    /// The move in flight has come to this stage.
    pub fn reach(&mut self, stage: u32)
        ensures { self.new ≡ record self.old { flight = flight_at stage self.old.flight } }
    {
        if let Some(flight) = &mut self.flight {
            flight.stage = stage;
        }
    }

    /// The pair of the move in flight is set. A spawn has given its claimed unit and another one.
    pub fn pair(&mut self, second: u32)
        requires held { flies_spawn self.old.flight ≡ true → 0 < count second self.old.units.items }
        ensures root { flies_spawn self.old.flight ≡ false → PairsRoot self.old self.new }
        ensures spawn { flies_spawn self.old.flight ≡ true → PairsUnits second self.old self.new }
    {
        if let Some(
            Flight {
                draw: Draw::Spawn,
                ..
            },
        ) = self.flight
        {
            take_unit(&mut self.units, second);
            self.claimed = 0;
        }
        self.reach(2);
    }

    /// The vertex of the move in flight that was next is stored: the first of two, or the last, after
    /// which the share runs nothing.
    pub fn store(&mut self)
        ensures first { (f : Flight) → self.old.flight ≡ Some f → f.stage ≡ 2 → StoresFirst f self.old self.new }
        ensures last { (f : Flight) → self.old.flight ≡ Some f → f.stage ≡ 3 → StoresLast self.old self.new }
    {
        let Some(flight) = self.flight else { return };
        if flight.stage == 2 {
            self.running = rest_runs(flight.draw, self.running);
            self.reach(3);
        } else {
            self.running = None;
            self.flight = None;
        }
    }

    /// Vertex 1 is over, and the share runs nothing.
    pub fn end(&mut self)
        ensures { self.new ≡ record self.old { running = None } }
    {
        self.running = None;
    }

    /// The slot that was taken last, of those that are due.
    pub fn slot(&self) -> u32
        requires fits { (f : Flight) → self.now.flight ≡ Some f → 2 * f.number < 4294967295 }
        requires some { due self.now.flight self.now.running ≢ [] }
        ensures { due self.now.flight self.now.running ≡ result ∷ less_first (due self.now.flight self.now.running) }
    {
        match (self.flight, self.running) {
            (Some(flight), _) => next_slot(flight.draw, flight.number, flight.stage),
            (None, Some(running)) => running.vertex,
            (None, None) => unreachable!(),
        }
    }

    /// The vertex v runs, whose word was seen ready: one start more.
    pub fn start(&mut self, v: u32, seen: u64)
        requires few { self.old.starts < 18446744073709551615 }
        ensures { StartsBeside v seen self.old self.new }
    {
        self.running = Some(running_of(v, seen));
        self.starts += 1;
    }

    /// A unit at d is held.
    pub fn hold(&mut self, d: u32)
        requires { length self.old.units.items < 66 }
        ensures { HoldsOneMore d self.old self.new }
    {
        self.units.push(d);
    }

    /// A unit at d has left, the claimed one only where no other was there. Where it was the last of
    /// the root d, the share is told d. A share whose vertex is over runs nothing.
    pub fn depart(&mut self, d: u32, last: bool)
        requires unit { 0 < count d self.old.units.items + self.old.claimed }
        requires few { self.old.told < 1048576 }
        ensures { DepartsFrom d last self.old self.new }
    {
        let taken = take_unit(&mut self.units, d);
        self.claimed = without_unit(self.claimed, taken);
        self.told = with_told(self.told, last);
        self.running = settled(self.running, self.flight, self.claimed, self.told);
    }

    /// The spare seats and the starts of another share come to these, and that it has seen the moves full.
    pub fn join(&mut self, other: Beside)
        requires spare { self.old.spare + other.spare < 65 }
        ensures { JoinsBeside self.old other self.new }
    {
        self.spare += other.spare;
        self.full = self.full || other.full;
        self.starts = self.starts.saturating_add(other.starts);
    }

    /// A finish is told no more. A share whose vertex is over runs nothing.
    pub fn wake(&mut self)
        requires { 0 < self.old.told }
        ensures { WakesBeside self.old self.new }
    {
        self.told -= 1;
        self.running = settled(self.running, self.flight, self.claimed, self.told);
    }
}

/// The slot of the vertex that is stored next.
fn next_slot(draw: Draw, number: u32, stage: u32) -> u32
    requires { 2 * number < 4294967295 }
    ensures { due_at draw number stage ≡ result ∷ less_first (due_at draw number stage) }
{
    let second = stage >= 3;
    let left = match draw {
        Draw::Spawn => !second,
        _ => second,
    };
    if left { 2 * number } else { 2 * number + 1 }
}

/// The running vertex once the first vertex of a move is stored.
fn rest_runs(draw: Draw, running: Option<Running>) -> Option<Running>
    ensures { result ≡ after_first draw running }
{
    match (draw, running) {
        (Draw::Chain, Some(r)) => Some(Running { right: 0, ..r }),
        _ => running,
    }
}

/// A move in flight that was just drawn.
fn flight_of(draw: Draw, number: u32, running: Option<Running>) -> Flight
    ensures { result ≡ drawn_flight draw number running }
{
    let finish = match draw {
        Draw::Spawn => match running {
            Some(r) => r.finish,
            None => 0,
        },
        _ => number,
    };
    Flight {
        draw,
        number,
        finish,
        stage: 0,
    }
}

/// The vertex v as its word says. Vertex 1 has no right to claim.
fn running_of(v: u32, seen: u64) -> Running
    ensures { result ≡ start_run v (vertex_of seen) }
{
    Running {
        vertex: v,
        side: VertexWord::side(seen),
        pair: VertexWord::pair(seen),
        finish: VertexWord::finish(seen),
        inc: VertexWord::inc(seen),
        right: if v == 1 { 0 } else { 1 },
    }
}

/// Takes a unit at d out of the list, where there is one.
fn take_unit(units: &mut ArrayVec<u32, MOST_UNITS>, d: u32) -> bool
    ensures taken { result ≡ true → TakesUnit d units.old.items units.new.items }
    ensures none { result ≡ false → (count d units.old.items ≡ 0) × (units.new ≡ units.old) }
{
    for at in 0..units.len() {
        if units[at] == d {
            units.remove(at);
            return true;
        }
    }
    false
}

/// One claimed unit less, where no other was taken.
fn without_unit(claimed: u32, taken: bool) -> u32
    requires { taken ≡ false → 0 < claimed }
    ensures taken { taken ≡ true → result ≡ claimed }
    ensures none { taken ≡ false → result + 1 ≡ claimed }
{
    if taken { claimed } else { claimed - 1 }
}

/// One told finish more, where a unit was the last of its root.
fn with_told(told: u32, last: bool) -> u32
    requires { told < 1048576 }
    ensures { result ≡ told + cond last 1 0 }
{
    if last { told + 1 } else { told }
}

/// The running vertex, or none where it is over.
fn settled(
    running: Option<Running>,
    flight: Option<Flight>,
    claimed: u32,
    told: u32,
) -> Option<Running>
    ensures { IsSettled running flight claimed told result }
{
    if let Some(r) = running
        && flight.is_none()
        && claimed == 0
        && told == 0
        && r.vertex != 1
        && r.right == 0
    {
        return None;
    }
    running
}
