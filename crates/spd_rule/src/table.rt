// The steps of the table under its rule. What a step tells may speak of `about`, which is for the proof
// alone.

ghost use Rattle.std.specs.Prelude.{◌≡◌, ◌+◌, ◌-◌, ◌<◌, ◌%◌, ◌^◌, ◌==◌, ℕ, max, min};
ghost use prog.Atomic.{either};
ghost use Rattle.spd_rule.specs.Held.{StepUnderRule};
ghost use Rattle.spd_rule.specs.Seats.{IsOfTable, SeatStays, SeatMay, SeatMayStore, SeatExchanged, SeatBooks};

use crate::field::Field;
use crate::rule::{Adds, Exchanges, Loads, Lowers, Raises, Stores, Subs, Tells};
use atomic_table::Seat;
use spd_state::View;
use spd_words::Body;

/// Loads a word.
pub(crate) fn load<B: Body, X, T: Tells<B>>(
    field: &Field<B>,
    seat: &mut Seat<Option<B>, View>,
    word: usize,
    about: &X,
) -> u64
    requires plan { T.plan ≡ field.now.plan }
    requires of { IsOfTable field.now seat.old word }
    requires allows { SeatMay B.view field.now seat.old word (λ n. n) T.tells }
    ensures same { SeatStays seat.old seat.new }
    ensures tells { T.tells seat.old.me result seat.new.me }
    ensures rule { StepUnderRule field.now.plan word result result seat.old.me seat.new.me }
    ensures books { SeatBooks B.view field.now seat.old seat.new }
{
    let _ = about;
    field.table.shared.load::<Loads<T>>(seat, word)
}

/// Adds k to a word, and gives what it was.
pub(crate) fn add<B: Body, X, T: Tells<B>>(
    field: &Field<B>,
    seat: &mut Seat<Option<B>, View>,
    word: usize,
    k: u64,
    about: &X,
) -> u64
    requires plan { T.plan ≡ field.now.plan }
    requires of { IsOfTable field.now seat.old word }
    requires allows { SeatMay B.view field.now seat.old word (λ n. (n + k) % 2 ^ 64) T.tells }
    ensures same { SeatStays seat.old seat.new }
    ensures tells { T.tells seat.old.me result seat.new.me }
    ensures rule { StepUnderRule field.now.plan word result ((result + k) % 2 ^ 64) seat.old.me seat.new.me }
    ensures books { SeatBooks B.view field.now seat.old seat.new }
{
    let _ = about;
    field.table.shared.fetch_add::<Adds<T>>(seat, word, k)
}

/// Takes k from a word, and gives what it was.
pub(crate) fn sub<B: Body, X, T: Tells<B>>(
    field: &Field<B>,
    seat: &mut Seat<Option<B>, View>,
    word: usize,
    k: u64,
    about: &X,
) -> u64
    requires plan { T.plan ≡ field.now.plan }
    requires of { IsOfTable field.now seat.old word }
    requires allows { SeatMay B.view field.now seat.old word (λ n. (n + (2 ^ 64 - k)) % 2 ^ 64) T.tells }
    ensures same { SeatStays seat.old seat.new }
    ensures tells { T.tells seat.old.me result seat.new.me }
    ensures rule { StepUnderRule field.now.plan word result ((result + (2 ^ 64 - k)) % 2 ^ 64) seat.old.me seat.new.me }
    ensures books { SeatBooks B.view field.now seat.old seat.new }
{
    let _ = about;
    field.table.shared.fetch_sub::<Subs<T>>(seat, word, k)
}

/// Puts `new` in the place of `old`, and gives what the word was.
pub(crate) fn exchange<B: Body, X, T: Tells<B>>(
    field: &Field<B>,
    seat: &mut Seat<Option<B>, View>,
    word: usize,
    old: u64,
    new: u64,
    about: &X,
) -> u64
    requires plan { T.plan ≡ field.now.plan }
    requires of { IsOfTable field.now seat.old word }
    requires allows { SeatMay B.view field.now seat.old word (λ n. either (n == old) new n) T.tells }
    ensures same { SeatStays seat.old seat.new }
    ensures tells { T.tells seat.old.me result seat.new.me }
    ensures rule { SeatExchanged field.now word old new result seat.old seat.new }
    ensures books { SeatBooks B.view field.now seat.old seat.new }
{
    let _ = about;
    field
        .table
        .shared
        .compare_exchange::<Exchanges<T>>(seat, word, old, new)
}

/// Stores x in a word.
pub(crate) fn store<B: Body, X, T: Tells<B>>(
    field: &Field<B>,
    seat: &mut Seat<Option<B>, View>,
    word: usize,
    x: u64,
    about: &X,
)
    requires plan { T.plan ≡ field.now.plan }
    requires of { IsOfTable field.now seat.old word }
    requires allows { SeatMayStore B.view field.now seat.old word x T.tells }
    ensures same { SeatStays seat.old seat.new }
    ensures tells { T.tells seat.old.me x seat.new.me }
    ensures rule { (w : ℕ) × StepUnderRule field.now.plan word w x seat.old.me seat.new.me }
    ensures books { SeatBooks B.view field.now seat.old seat.new }
{
    let _ = about;
    field.table.shared.store::<Stores<T>>(seat, word, x)
}

/// Puts k in a word where it is greater, and gives what the word was.
pub(crate) fn raise<B: Body, X, T: Tells<B>>(
    field: &Field<B>,
    seat: &mut Seat<Option<B>, View>,
    word: usize,
    k: u64,
    about: &X,
) -> u64
    requires plan { T.plan ≡ field.now.plan }
    requires of { IsOfTable field.now seat.old word }
    requires allows { SeatMay B.view field.now seat.old word (λ n. max n k) T.tells }
    ensures same { SeatStays seat.old seat.new }
    ensures tells { T.tells seat.old.me result seat.new.me }
    ensures rule { StepUnderRule field.now.plan word result (max result k) seat.old.me seat.new.me }
    ensures books { SeatBooks B.view field.now seat.old seat.new }
{
    let _ = about;
    field.table.shared.fetch_max::<Raises<T>>(seat, word, k)
}

/// Puts k in a word where it is less, and gives what the word was.
pub(crate) fn lower<B: Body, X, T: Tells<B>>(
    field: &Field<B>,
    seat: &mut Seat<Option<B>, View>,
    word: usize,
    k: u64,
    about: &X,
) -> u64
    requires plan { T.plan ≡ field.now.plan }
    requires of { IsOfTable field.now seat.old word }
    requires allows { SeatMay B.view field.now seat.old word (λ n. min n k) T.tells }
    ensures same { SeatStays seat.old seat.new }
    ensures tells { T.tells seat.old.me result seat.new.me }
    ensures rule { StepUnderRule field.now.plan word result (min result k) seat.old.me seat.new.me }
    ensures books { SeatBooks B.view field.now seat.old seat.new }
{
    let _ = about;
    field.table.shared.fetch_min::<Lowers<T>>(seat, word, k)
}
