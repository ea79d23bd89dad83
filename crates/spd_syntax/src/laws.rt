// What the grammar promises beside what is read by it.

ghost use Rattle.std.specs.Prelude.{◌↔◌, List};
ghost use Rattle.spd_syntax.specs.Tokens.{Seen};
ghost use Rattle.spd_syntax.specs.Grammar.{expression, let_statement};
ghost use Rattle.spd_syntax.specs.PageForms.{page_expression, page_let};
ghost use Rattle.spd_syntax.specs.Faults.{IsSpelled};
ghost use Rattle.spd_syntax.specs.declared.tree.Expr.{Expr};
ghost use Rattle.spd_syntax.specs.declared.tree.Stmt.{Stmt};

/// An expression is spelled by the rules in the form of a page, and by those that it is read by.
pub fn expressions_are_the_page()
    ensures { (x : Expr) (ts : List Seen) → IsSpelled expression x ts ↔ IsSpelled page_expression x ts }
{}

/// The same of a `let`.
pub fn lets_are_the_page()
    ensures { (x : Stmt) (ts : List Seen) → IsSpelled let_statement x ts ↔ IsSpelled page_let x ts }
{}
