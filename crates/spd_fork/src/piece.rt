// The body of a vertex: a range of numbers to work on.

use spd_words::{Body, Event, FinishKind, Part};
use std::alloc::{AllocError, Global};

/// Where a piece stands.
#[derive(Clone, Copy, Debug, PartialEq, Eq)]
pub enum PieceStage {
    Going,
    /// Behind a chain, for a plain finish.
    Waits,
    /// It was resumed with want of memory.
    Spent,
}

/// The numbers from `low` up to `high`: none where `high` isn't greater. As a body it is wild: no books are
/// kept of what it gives, and the scheduler hands results on by itself.
#[derive(Clone, Copy, Debug, PartialEq, Eq)]
pub struct Piece {
    pub low: u32,
    pub high: u32,
    pub stage: PieceStage,
}

impl Piece {
    ghost use Rattle.std.specs.Prelude.{◌≡◌, true};
    ghost use Rattle.spd_words.specs.Meaning.{Going};
    ghost use Rattle.spd_words.specs.BodyCalls.{IsReady};
    ghost use Rattle.spd_words.specs.declared.finish_kind.FinishKind.TheVariants.{Plain};
    ghost use Rattle.spd_rule.specs.Kept.{IsFit};
    ghost use Rattle.spd_fork.specs.Pieces.{piece_view};

    /// The numbers from `low` up to `high`, to be worked on.
    pub fn new(low: u32, high: u32) -> Piece {
        Piece {
            low,
            high,
            stage: PieceStage::Going,
        }
    }

    /// Whether it has a number, and may be started: it neither waits nor is spent.
    pub fn is_ready(&self) -> bool
        ensures { result ≡ true → IsReady Plain (piece_view self.now) }
    {
        self.low < self.high && matches!(self.stage, PieceStage::Going)
    }

    /// How many numbers it has.
    pub fn size(&self) -> u32 {
        self.high.saturating_sub(self.low)
    }

    /// Its two halves, of which the second is greater by one at most.
    pub fn halves(&self) -> (Piece, Piece) {
        let Piece { low, high, .. } = *self;
        let middle = low.saturating_add(self.size() / 2);
        (Piece::new(low, middle), Piece::new(middle, high))
    }

    /// The same numbers, once a finish has ended.
    pub(crate) fn waiting(self) -> Piece
        ensures { IsReady Plain (piece_view self) → IsFit (piece_view result) }
    {
        Piece {
            stage: PieceStage::Waits,
            ..self
        }
    }
}

impl Body for Piece {
    ghost use Rattle.std.specs.Prelude.{◌≡◌, IfOk, OnErr};
    ghost use Rattle.spd_words.specs.Meaning.{empty, Going, Ended};
    ghost use Rattle.spd_words.specs.declared.finish_kind.FinishKind.TheVariants.{Plain};
    ghost use Rattle.spd_fork.specs.Pieces.{piece_view, PieceTakesIn};

    ghost view = { piece_view };

    ghost fits = { λ _ _. Unit {0} };

    ghost resumed = { λ _ _ _. empty Plain };

    fn kind(&self) -> FinishKind {
        FinishKind::Plain
    }

    fn waits(&self) -> Option<FinishKind> {
        match self.stage {
            PieceStage::Waits => Some(FinishKind::Plain),
            _ => None,
        }
    }

    fn advance(&mut self, _alloc: Global) -> Event<Piece> {
        let stage = self.stage;
        self.low = self.high;
        self.stage = PieceStage::Going;
        match stage {
            PieceStage::Spent => Event::NoMemory,
            _ => Event::Over,
        }
    }

    fn inside(&mut self, _alloc: Global, part: Part<Piece>) -> Result<(), AllocError>
        requires { (piece_view self.old).stage ≡ Going }
        ensures part { IfOk result (λ _. PieceTakesIn self.old self.new part) }
        ensures memory { OnErr result ((piece_view self.new).stage ≡ Ended) }
    {
        drop(part);
        self.stage = PieceStage::Going;
        Ok(())
    }

    fn resume(&mut self, _gift: i64, fault: u64) {
        self.stage = if fault == 0 {
            PieceStage::Spent
        } else {
            PieceStage::Going
        };
    }
}
