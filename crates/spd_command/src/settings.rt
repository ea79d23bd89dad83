// How a program is run on workers.

use spd_words::Scheme;

/// How a program is run on workers.
#[derive(Clone, Copy, Debug, PartialEq, Eq)]
pub struct Settings {
    /// The workers, from 1 to 64.
    pub workers: u32,
    /// The moves of a table, from 1 to 262,144.
    pub moves: u32,
    /// The nodes that may be grown, at most 262,144.
    pub nodes: u32,
    /// How the trees of nodes may grow.
    pub tree: Scheme,
    /// How often a coin shows heads, in 65,536ths.
    pub grow: u32,
    /// What the coins begin with.
    pub seed: u32,
    /// Whether its regions and moves are told behind its output.
    pub counts: bool,
}

/// What holds where no option is given.
pub const STANDARD: Settings = Settings {
    workers: 4,
    moves: 16_384,
    nodes: 16_384,
    tree: Scheme::Grow,
    grow: 32_768,
    seed: 1,
    counts: false,
};
