// The operators between two operands, as one table.

ghost use Rattle.std.specs.Prelude.{◌≡◌, ◌≤◌};
ghost use Rattle.spd_syntax.specs.Grammar.{top};
ghost use Rattle.spd_syntax.specs.Operators.{row_in};
ghost use Rattle.spd_syntax.specs.Limits.{is_operator_mark};
ghost use Rattle.spd_syntax.specs.declared.operators.TheConstants.{OPERATORS};

use crate::token::Mark;
use crate::tree::BinOp;

/// The mark of each operator between two operands, and its level, of which a lower one binds more tightly.
pub const OPERATORS: [(Mark, BinOp, u32); 13] = [
    (Mark::OrOr, BinOp::Or, 5),
    (Mark::AndAnd, BinOp::And, 4),
    (Mark::Equal, BinOp::Eq, 3),
    (Mark::NotEqual, BinOp::Ne, 3),
    (Mark::Less, BinOp::Lt, 3),
    (Mark::LessEqual, BinOp::Le, 3),
    (Mark::Greater, BinOp::Gt, 3),
    (Mark::GreaterEqual, BinOp::Ge, 3),
    (Mark::Plus, BinOp::Add, 2),
    (Mark::Minus, BinOp::Sub, 2),
    (Mark::Star, BinOp::Mul, 1),
    (Mark::Slash, BinOp::Div, 1),
    (Mark::Percent, BinOp::Rem, 1),
];

/// The mark of an operator, and its level, which is at most 5.
#[tactic(auto, unfolding(crate::specs::Operators::same_operator))]
pub fn row_of(op: BinOp) -> (Mark, u32)
    ensures row { result ≡ row_in op OPERATORS }
    ensures level { result.1 ≤ top }
{
    let mut table = OPERATORS.as_slice();
    while let [row, rest @ ..] = table {
        if row.1 == op {
            return (row.0, row.2);
        }
        table = rest;
    }
    (Mark::Plus, 0)
}

/// Whether a mark is an operator: between two operands, or before one (`-` and `!`).
#[tactic(auto, unfolding(crate::specs::Symbols::same_mark))]
pub fn is_operator(mark: Mark) -> bool
    ensures { result ≡ is_operator_mark mark }
{
    let mut table = OPERATORS.as_slice();
    while let [row, rest @ ..] = table {
        if row.0 == mark {
            return true;
        }
        table = rest;
    }
    mark == Mark::Not
}
