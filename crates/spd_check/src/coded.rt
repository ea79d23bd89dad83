// The code of statements so far, whose lines have 32 bits.

ghost use Rattle.std.specs.Prelude.{◌≡◌, ◌++◌, [], ◌∷◌, true, OnOk};
ghost use Rattle.spd_code.specs.Lined.{lined_stmt};
ghost use Rattle.spd_check.specs.Lines.{AreLined};

use spd_code::{CodeStmt, CodeStmts};
use spd_list::Seq;
use std::alloc::{AllocError, Global};

/// The code of statements so far.
#[derive(Drop)]
pub(crate) struct CodedStmts {
    stmts: CodeStmts,
    ghost lined: { AreLined stmts },
}

impl CodedStmts {
    /// No statements.
    #[tactic(auto, using(crate::proofs::Lined::no_stmts_lined))]
    pub(crate) fn new(alloc: Global) -> CodedStmts
        ensures { result.stmts ≡ [] }
    {
        CodedStmts {
            stmts: Seq::new(alloc),
        }
    }

    /// One statement more.
    #[tactic(auto, using(crate::proofs::Lined::more_stmts_lined))]
    pub(crate) fn push(&mut self, stmt: CodeStmt) -> Result<(), AllocError>
        requires lined { lined_stmt stmt ≡ true }
        ensures { OnOk result (self.new.stmts ≡ self.old.stmts ++ stmt ∷ []) }
    {
        self.stmts.push(stmt)?;
        Ok(())
    }

    /// All of them.
    pub(crate) fn into_stmts(self) -> CodeStmts
        ensures same { result ≡ self.stmts }
        ensures lined { AreLined result }
    {
        let CodedStmts { stmts } = self;
        stmts
    }
}
