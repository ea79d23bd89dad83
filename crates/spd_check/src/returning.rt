// Blocks that return.

ghost use Rattle.std.specs.Prelude.{◌≡◌};
ghost use Rattle.spd_check.specs.Checks as spec;

use spd_syntax::{Block, StmtKind};

/// The last statement of a block returns.
#[cycle(returning)]
#[tactic(auto, using(crate::proofs::LastStatements::last_at, crate::proofs::LastStatements::none_last, crate::proofs::LastStatements::stmt_is))]
pub(crate) fn block_returns(block: &Block) -> bool
    ensures { result ≡ spec.block_returns block.now }
{
    match block.as_slice().last() {
        None => false,
        Some(last) => kind_returns(&last.what),
    }
}

/// It is a `return`, or an `if` whose two blocks both return.
#[cycle(returning)]
fn kind_returns(what: &StmtKind) -> bool
    ensures { result ≡ spec.kind_returns what.now }
{
    match what {
        StmtKind::Return { .. } => true,
        StmtKind::If { yes, no, .. } => block_returns(yes) && block_returns(no),
        _ => false,
    }
}
