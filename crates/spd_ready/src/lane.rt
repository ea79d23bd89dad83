// Where a worker looks for ready vertices.

ghost use Rattle.std.specs.Prelude.{◌≡◌, ◌⊎◌, ℕ, IfNone, IfSome};
ghost use Rattle.spd_count.specs.Counts.{Raised};
ghost use Rattle.spd_ready.specs.Looks.{WasEmpty, WereEmpty, OneGave};
ghost use Rattle.spd_ready.specs.declared.lane.Take.TheVariants.{Empty, Got};

use std::sync::Wait;

/// What a worker that asks for a vertex gets.
#[derive(Clone, Copy, Debug, PartialEq, Eq)]
pub enum Take {
    /// A vertex.
    Got(u32),
    /// Each lane was empty when it was looked at.
    Empty,
}

/// One place where ready vertices lie.
pub trait Lane: Send {
    ghost looks: { Self → ℕ };

    /// Looks once, and takes a vertex where one lies there. `None` comes only where the lane's count of
    /// empty looks was raised; that count never falls.
    fn try_take<R: Wait>(&mut self, rt: &R) -> Option<u32>
        ensures none { IfNone result (Raised (looks self.old) (looks self.new)) }
        ensures some { IfSome result (λ _. looks self.new ≡ looks self.old) };
}

/// Takes from a worker's own lane, else from the first of the others that has something, in their order.
/// `Empty` comes only where the own lane and each of the others were looked at and had nothing.
pub fn take_from<O: Lane, L: Lane, R: Wait>(rt: &R, own: &mut O, others: &mut [L]) -> Take
    ensures own_empty { result ≡ Empty → WasEmpty O.looks own.old own.new }
    ensures others_empty { result ≡ Empty → WereEmpty L.looks others.old others.new }
    ensures in_order { (vertex : ℕ) → result ≡ Got vertex
        → ((O.looks own.new ≡ O.looks own.old) × (others.new ≡ others.old))
        ⊎ (WasEmpty O.looks own.old own.new × OneGave L.looks others.old others.new) }
{
    match own.try_take(rt) {
        Some(vertex) => Take::Got(vertex),
        None => take_first(rt, others),
    }
}

// Takes from the first of these lanes that has something.
fn take_first<L: Lane, R: Wait>(rt: &R, lanes: &mut [L]) -> Take
    ensures empty { result ≡ Empty → WereEmpty L.looks lanes.old lanes.new }
    ensures in_order { (vertex : ℕ) → result ≡ Got vertex → OneGave L.looks lanes.old lanes.new }
{
    for place in 0..lanes.len() {
        if let Some(vertex) = lanes[place].try_take(rt) {
            return Take::Got(vertex);
        }
    }
    Take::Empty
}
