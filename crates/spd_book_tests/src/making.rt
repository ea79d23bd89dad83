// New fields whose make is done.

ghost use Rattle.spd_rule.specs.Shares.{IsOf};
ghost use Rattle.spd_book_tests.specs.Crews.{IsTeam};

use crate::crew::Team;
use spd_rule::Field;
use spd_rule_tests::{Player, Stub, Turn};
use spd_words::{Plan, Scheme};
use std::alloc::Global;
use std::process::Abort;

/// The turns of a make.
const MAKE: [Turn; 5] = [
    Turn::DrawMake,
    Turn::SetRoot,
    Turn::SetHandle,
    Turn::StoreEnd,
    Turn::StoreFirst(0),
];

/// A field of so many moves with its player, whose make is done, with the first script.
pub fn made(rt: &impl Abort, alloc: Global, moves: u32) -> (Field<Stub>, Player)
    ensures { IsOf result.0 result.1.share }
{
    let plan = Plan::new(Scheme::Flat, moves, 0).expect(rt, "moves");
    let (field, share) = Field::new(alloc, plan).expect(rt, "memory");
    let mut player = Player::first(share);
    for turn in MAKE {
        assert_eq!(rt; player.take(&field, turn), Some(0), "{turn:?}");
    }
    (field, player)
}

/// A team over a new field of so many moves, whose make is done.
pub fn team_of(rt: &impl Abort, alloc: Global, moves: u32) -> Team
    ensures { IsTeam result }
{
    let (field, mut watcher) = made(rt, alloc, moves);
    let first = watcher.split(&field).expect(rt, "a spare seat");
    let second = watcher.split(&field).expect(rt, "a spare seat");
    let third = watcher.split(&field).expect(rt, "a spare seat");
    Team {
        field,
        first,
        second,
        third,
        watcher,
    }
}
