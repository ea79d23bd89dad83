// Three players over one table, and one more that made it and only looks at its words.

ghost use Rattle.spd_rule.specs.Shares.{IsOf};
ghost use Rattle.spd_book_tests.specs.Crews.{IsTeam};

use crate::given::{Given, read};
use spd_book::Collected;
use spd_rule::Field;
use spd_rule_tests::{Player, Stub, Turn};
use spd_words::FinishKind;

/// A field with three players and a watcher.
#[derive(Drop)]
pub struct Team {
    pub field: Field<Stub>,
    pub first: Player,
    pub second: Player,
    pub third: Player,
    pub watcher: Player,
}

impl Team {
    /// The turn of the player of this number.
    pub fn take(&mut self, at: usize, turn: Turn) -> Option<u64>
        requires { IsTeam self.old }
        ensures { IsTeam self.new }
    {
        match at {
            0 => self.first.take(&self.field, turn),
            1 => self.second.take(&self.field, turn),
            2 => self.third.take(&self.field, turn),
            _ => None,
        }
    }

    /// The start of the vertex by the player of this number, which sees it first.
    pub fn start(&mut self, at: usize, vertex: u32) -> Option<u64>
        requires { IsTeam self.old }
        ensures { IsTeam self.new }
    {
        let seen = self.take(at, Turn::See(vertex))?;
        let found = self.take(at, Turn::Start(vertex, seen))?;
        if found == seen { Some(found) } else { None }
    }

    /// What the player of this number collects of the finish, for which its vertex waited.
    pub fn collect(&mut self, at: usize, finish: u32, kind: FinishKind) -> Option<Given>
        requires { IsTeam self.old }
        ensures { IsTeam self.new }
    {
        let Collected { gift, fault } = match at {
            0 => self.first.collect(&self.field, finish, kind)?,
            1 => self.second.collect(&self.field, finish, kind)?,
            2 => self.third.collect(&self.field, finish, kind)?,
            _ => return None,
        };
        Some(Given { gift, code: fault })
    }

    /// What the words of the finish say, by the watcher.
    pub fn look(&mut self, finish: u32, kind: FinishKind) -> Option<Given>
        requires { IsTeam self.old }
        ensures { IsTeam self.new }
    {
        let word = self.watcher.take(&self.field, Turn::SeeSum(finish))?;
        let code = self.watcher.take(&self.field, Turn::SeeFault(finish))?;
        Some(read(kind, word, code))
    }
}
