// How many moves and grown nodes a table has, and where its words stand.

ghost use Rattle.std.specs.Prelude.{◌≡◌, ◌*◌, ◌<◌, ◌≤◌, ◌↔◌, IfOk};
ghost use Rattle.spd_words.specs.Plan.{PlanView, IsPlan, MayHaveMoves, AsksTooMuch, planned, plan_words, nodes};
ghost use Rattle.spd_words.specs.Plan.{node_place, child_place, parent_place, pair_place};
ghost use Rattle.spd_words.specs.Plan.{vertex_place, gift_place, fault_place};

use crate::scheme::Scheme;
use std::marker::Model;
use thiserror::Error;

/// Why there is no such plan.
#[derive(Clone, Copy, Debug, PartialEq, Eq, Error)]
pub enum PlanFault {
    #[error("a plan has from 1 to 262,144 moves")]
    Moves,
    #[error("at most 262,144 nodes may be grown")]
    Grown,
}

/// The greatest number of moves, and of nodes that may be asked for.
const MOST: u32 = 262_144;

/// A plan of a table: the scheme of its trees, its moves, from 1 to 262,144, and its nodes beyond the
/// roots. Each move has a root, a pair and two vertices, and a finish that it may open.
#[derive(Clone, Copy)]
pub struct Plan {
    scheme: Scheme,
    moves: u32,
    grown: u32,
}

impl Model for Plan {
    ghost use Rattle.spd_words.specs.Plan.{PlanView, IsPlan};

    ghost Value = { PlanView };

    ghost view = { λ plan. record { scheme = plan.scheme; moves = plan.moves; grown = plan.grown } };

    ghost inverse = { λ plan. record { scheme = plan.scheme; moves = plan.moves; grown = plan.grown } };

    ghost invariant = { λ plan. IsPlan (record { scheme = plan.scheme; moves = plan.moves; grown = plan.grown }) };
}

impl Plan {
    /// A plan of this scheme with so many moves. `grown` is the number of nodes that may be grown, and
    /// counts under `Grow` alone: `Flat` has none, and `Level` two for each move.
    ///
    /// `Moves` comes exactly where `moves` isn't from 1 to 262,144; `Grown` exactly where it is, the
    /// scheme is `Grow`, and `grown` is above 262,144.
    pub fn new(scheme: Scheme, moves: u32, grown: u32) -> Result<Plan, PlanFault>
        ensures ok { IfOk result (λ plan. plan ≡ planned scheme moves grown) }
        ensures moves { (result ≡ Err PlanFault.Moves) ↔ (MayHaveMoves moves → ⊥) }
        ensures grown { (result ≡ Err PlanFault.Grown) ↔ AsksTooMuch scheme moves grown }
    {
        if moves == 0 || moves > MOST {
            return Err(PlanFault::Moves);
        }
        let grown = match scheme {
            Scheme::Flat => 0,
            Scheme::Level => 2 * moves,
            Scheme::Grow => {
                if grown > MOST {
                    return Err(PlanFault::Grown);
                }
                grown
            }
        };
        Ok(Plan {
            scheme,
            moves,
            grown,
        })
    }

    /// The scheme of its trees.
    pub fn scheme(&self) -> Scheme
        ensures { result ≡ self.now.scheme }
    {
        self.scheme
    }

    /// How many moves it has, from 1 to 262,144.
    pub fn moves(&self) -> u32
        ensures { result ≡ self.now.moves }
    {
        self.moves
    }

    /// How many nodes it has beyond the roots, at most 524,288.
    pub fn grown(&self) -> u32
        ensures { result ≡ self.now.grown }
    {
        self.grown
    }

    /// How many words a table of it has.
    pub fn words(&self) -> u32
        ensures words { result ≡ plan_words self.now }
        ensures lawful { IsPlan self.now }
    {
        3 + 7 * self.moves + 3 * self.grown
    }

    /// Where the word of a node stands.
    pub fn node_place(&self, node: u32) -> u32
        requires { node < nodes self.now }
        ensures place { result ≡ node_place self.now node }
        ensures within { result < plan_words self.now }
    {
        prove!(node < self.moves + self.grown);
        3 + node
    }

    /// Where the word of a node's children stands.
    pub fn child_place(&self, node: u32) -> u32
        requires { node < nodes self.now }
        ensures place { result ≡ child_place self.now node }
        ensures within { result < plan_words self.now }
    {
        3 + self.moves + self.grown + node
    }

    /// Where the word of a grown node's parent stands.
    pub fn parent_place(&self, node: u32) -> u32
        requires grown { self.now.moves ≤ node }
        requires within { node < nodes self.now }
        ensures place { result ≡ parent_place self.now node }
        ensures within { result < plan_words self.now }
    {
        3 + 2 * (self.moves + self.grown) + (node - self.moves)
    }

    /// Where the word of a move's pair stands.
    pub fn pair_place(&self, pair: u32) -> u32
        requires { pair < self.now.moves }
        ensures place { result ≡ pair_place self.now pair }
        ensures within { result < plan_words self.now }
    {
        3 + 2 * self.moves + 3 * self.grown + pair
    }

    /// Where the word of a vertex stands.
    pub fn vertex_place(&self, vertex: u32) -> u32
        requires { vertex < 2 * self.now.moves }
        ensures place { result ≡ vertex_place self.now vertex }
        ensures within { result < plan_words self.now }
    {
        3 + 3 * self.moves + 3 * self.grown + vertex
    }

    /// Where the word of a finish's gift stands.
    pub fn gift_place(&self, finish: u32) -> u32
        requires { finish < self.now.moves }
        ensures place { result ≡ gift_place self.now finish }
        ensures within { result < plan_words self.now }
    {
        3 + 5 * self.moves + 3 * self.grown + finish
    }

    /// Where the word of a finish's least code stands.
    pub fn fault_place(&self, finish: u32) -> u32
        requires { finish < self.now.moves }
        ensures place { result ≡ fault_place self.now finish }
        ensures within { result < plan_words self.now }
    {
        3 + 6 * self.moves + 3 * self.grown + finish
    }
}
