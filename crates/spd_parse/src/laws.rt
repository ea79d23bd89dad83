// What the grammar promises of all texts.

ghost use Rattle.std.specs.Prelude.{◌≡◌, List};
ghost use Rattle.spd_syntax.specs.Tokens.{Seen};
ghost use Rattle.spd_syntax.specs.Grammar.{program};
ghost use Rattle.spd_syntax.specs.Faults.{IsSpelled};
ghost use Rattle.spd_syntax.specs.declared.tree.Program.{Program};

/// Tokens spell at most one program.
pub fn spelled_once()
    ensures { (ts : List Seen) (a b : Program) → IsSpelled program a ts → IsSpelled program b ts → a ≡ b }
{}
