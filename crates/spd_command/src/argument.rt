// The arguments of commands, one row each: operands, and options.

ghost use Rattle.std.specs.Prelude.{◌≡◌};
ghost use Rattle.spd_command.specs.Table.{argument_name, kind_of_value, is_option_word};

/// An argument of a command: an operand, or an option.
#[derive(Clone, Copy, Debug, PartialEq, Eq)]
pub enum Argument {
    /// The operand that names a program's file.
    Program,
    /// The operand that says how many rows a made file has.
    Rows,
    /// The operand that the prices of a made file begin with.
    FileSeed,
    /// How many workers run it.
    Workers,
    /// How many moves a table has.
    Moves,
    /// How many nodes may be grown.
    Nodes,
    /// How the trees of nodes may grow.
    Tree,
    /// How often a coin shows heads, in 65,536ths.
    Grow,
    /// What the coins begin with.
    Seed,
    /// Whether the counts of a run are told.
    Counts,
}

/// Which words an argument takes as its value.
#[derive(Clone, Copy, Debug, PartialEq, Eq)]
pub enum ValueKind {
    /// A word with at least one byte, of which the first isn't `-`.
    Name,
    /// One to ten decimal digits whose value is from `least` to `most`.
    Number { least: u32, most: u32 },
    /// `flat`, `level` or `grow`.
    Scheme,
    /// None: the option stands alone. What is read of it is `true`.
    Flag,
}

impl Argument {
    /// Its name: of an operand, as usage lines write it; of an option, its word without the two hyphens.
    pub fn name(self) -> &'static str
        ensures { result.now ≡ argument_name self }
    {
        match self {
            Argument::Program => "PROGRAM",
            Argument::Rows => "ROWS",
            Argument::FileSeed => "SEED",
            Argument::Workers => "workers",
            Argument::Moves => "moves",
            Argument::Nodes => "nodes",
            Argument::Tree => "tree",
            Argument::Grow => "grow",
            Argument::Seed => "seed",
            Argument::Counts => "counts",
        }
    }

    /// Which words it takes as its value.
    pub fn kind(self) -> ValueKind
        ensures { result ≡ kind_of_value self }
    {
        match self {
            Argument::Program => ValueKind::Name,
            Argument::Rows => ValueKind::Number {
                least: 0,
                most: 1_000_000,
            },
            Argument::FileSeed => ValueKind::Number {
                least: 0,
                most: u32::MAX,
            },
            Argument::Workers => ValueKind::Number { least: 1, most: 64 },
            Argument::Moves => ValueKind::Number {
                least: 1,
                most: 262_144,
            },
            Argument::Nodes => ValueKind::Number {
                least: 0,
                most: 262_144,
            },
            Argument::Tree => ValueKind::Scheme,
            Argument::Grow => ValueKind::Number {
                least: 0,
                most: 65_536,
            },
            Argument::Seed => ValueKind::Number {
                least: 0,
                most: u32::MAX,
            },
            Argument::Counts => ValueKind::Flag,
        }
    }

    /// Whether a word is that of this option: two hyphens and its name.
    pub(crate) fn is_named_by(self, word: &[u8]) -> bool
        ensures { result ≡ is_option_word self word.now }
    {
        match word {
            [b'-', b'-', name @ ..] => name == self.name().as_bytes(),
            _ => false,
        }
    }
}
