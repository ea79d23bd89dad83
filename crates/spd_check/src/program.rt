// A checked program with its code.

ghost use Rattle.std.specs.Prelude.{◌≡◌, [], IfOk};
ghost use Rattle.spd_code.specs.Resolved.{program_code};
ghost use Rattle.spd_check.specs.Checks.{faults_of};
ghost use Rattle.spd_check.specs.Faults.{Answers};
ghost use Rattle.spd_check.specs.Checked.{MeansItself, AreSilent};
ghost use Rattle.spd_check.specs.Lines.{HasLines};

use crate::faults::CheckFault;
use crate::items::check_program;
use crate::tree::code_program;
use spd_code::CodeTree;
use spd_syntax::Program;
use std::alloc::Global;
use std::marker::Model;

/// A program without faults, which is what contracts see, and its code.
#[derive(Drop)]
pub struct Code {
    program: Program,
    tree: CodeTree,
}

impl Model for Code {
    ghost use Rattle.spd_syntax.specs.declared.tree.Program.{Program};
    ghost use Rattle.spd_syntax.specs.contracts.tree.Program as e;
    ghost use Rattle.spd_check.specs.Checked.{IsChecked};
    ghost use Rattle.std.specs.Coded.{codes};

    ghost Value = { Program };

    ghost coded = { Prim.hlevel (codes, e.the_row.coded) };

    ghost view = { λ code. code.program };

    ghost invariant = { λ code. IsChecked code.program code.tree };
}

impl Code {
    /// The program, as it was checked.
    pub fn program(&self) -> &Program
        ensures program { result.now ≡ self.now }
        ensures passes { faults_of self.now ≡ [] }
    {
        &self.program
    }

    /// The program's code: its tree with each name as a number.
    #[tactic(auto, using(crate::proofs::Placing::silent))]
    pub fn tree(&self) -> &CodeTree
        ensures code { result.now ≡ program_code self.now.items }
        ensures meaning { MeansItself self.now.items result.now }
        ensures silent { AreSilent result.now }
        ensures lined { HasLines result.now }
    {
        &self.tree
    }
}

/// Checks a program, and gives it with its code, or the first of its faults: what is declared twice,
/// a missing main, and then those in the items, in the order of the text. At one statement the place
/// comes first, then a called name and its arity, then expressions from left to right, then a block,
/// then the name that is declared or assigned; but the name of a `for` and parameters come before
/// their block. `NoReturn` comes behind all statements of its function.
///
/// Where memory runs out, or a number doesn't fit 32 bits, it is `NoMemory`, with the line 0.
pub fn check(alloc: Global, program: Program) -> Result<Code, CheckFault>
    ensures { Answers result (faults_of program) program }
{
    check_program(alloc, &program)?;
    let tree = code_program(alloc, &program)?;
    Ok(Code { program, tree })
}
