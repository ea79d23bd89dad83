// What one share knows of the table. No value of a view is made; an array stands for a list of any
// length, and a mark is a number that is 0 where it doesn't stand.

use crate::promise::{Expected, Owed, Whole};
use crate::trees::{Half, Known, Link, Sprout};
use spd_words::FinishKind;

/// What draws a move: the make of a region, a chain or a spawn.
#[derive(Clone, Copy)]
pub enum Draw {
    Make,
    Chain,
    Spawn,
}

/// The vertex that a share runs; `right` is 1 while its right to claim is still with the share.
#[derive(Clone, Copy)]
pub struct Running {
    pub vertex: u32,
    pub side: u32,
    pub pair: u32,
    pub finish: u32,
    pub inc: u32,
    pub right: u32,
}

/// A drawn move that isn't stored yet. Its stage is 0 when it is drawn, 1 once its root is set, 2 once
/// its pair is set, and 3 once its first vertex is stored.
#[derive(Clone, Copy)]
pub struct Flight {
    pub draw: Draw,
    pub number: u32,
    /// The finish of the vertices that stand with the move's pair.
    pub finish: u32,
    pub stage: u32,
}

/// A vertex that a step has shown ready.
#[derive(Clone, Copy)]
pub struct Shown {
    pub vertex: u32,
    pub side: u32,
    pub pair: u32,
    pub finish: u32,
    pub inc: u32,
}

/// What one share knows.
pub struct View {
    /// 1 until the share of the new field has begun its make.
    pub fresh: u64,
    pub running: Option<Running>,
    pub flight: Option<Flight>,

    /// The units, but for those of the next three lists.
    pub held: [u64; 0],
    /// The unit that was claimed with the running vertex; where `lifted` isn't 0 it stands at the
    /// parent of that node.
    pub claimed: [u64; 0],
    pub lifted: u64,
    /// Units at the parents of these nodes.
    pub above: [u64; 0],
    /// The unit at the root that the move in flight has set.
    pub rooted: [u64; 0],
    /// The finishes whose roots this share has brought to 0, and whose waiting vertices it is to wake.
    pub told: [u64; 0],
    /// The slots that the share holds, the last taken first.
    pub slots: [u64; 0],
    pub halves: [Half; 0],
    pub known: [Known; 0],
    pub links: [Link; 0],
    pub sprout: Option<Sprout>,
    pub shown: [Shown; 0],

    /// How often the share drew a move where none was left.
    pub full_draws: u64,
    pub grow_draws: u64,
    /// How often the share drew grown nodes where none were left.
    pub full_grows: u64,
    pub seats: u64,
    pub spare: u64,
    /// The spawns that it drew.
    pub spawns: u64,
    /// The vertices that it made ready.
    pub ready: u64,
    /// The vertices that it started, and those of the shares that were joined into it.
    pub starts: u64,

    /// 1 while the share runs a wild body: then no condition of the books is asked.
    pub wild: u64,
    /// What the running vertex still owes, and the kind of its finish.
    pub owes: Owed,
    pub kind: FinishKind,
    /// While the running vertex 2f + 1 of an open finish f > 0 hasn't collected: what f is to give.
    pub awaited: Option<Expected>,
    /// The gift word of the finish of a running vertex 2f + 1, once it was shown.
    pub seen: Option<u64>,
    /// What the vertices 2d and 2d + 1 of the move in flight owe, and the kind of their finish.
    pub body: Owed,
    pub rest: Owed,
    pub gives: FinishKind,
    /// 1 from collecting the code 0 on, until the share has put 0 to its own finish.
    pub hurt: u64,
    /// 1 from putting the code 0 on, until the share runs nothing.
    pub sunk: u64,
    /// 1 once the share has set the word of the end.
    pub done: u64,
    /// What was given to the make, in the shares that its share and those split from it hand on.
    pub whole: Option<Whole>,
    pub steps: u64,
}
