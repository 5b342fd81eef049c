//! The operands of a relation.

ghost use Rattle.std.specs.Prelude.{◌≡◌};
ghost use Rattle.vhdl_names_operators.specs.Relations as spec;

use crate::places::only;
use crate::sets::has;
use vhdl_names_overloads::Types;
use vhdl_tree::Operator;
use vhdl_units::BaseType;

/// Whether the operands of a relation, which can have the types `left` and `right`, have one type on which it is
/// defined and which one of them can have alone (9.2.3). An operator that is no relation relates nothing.
#[tactic(auto, unfolding(crate::specs::Relations::relates))]
pub fn relates(operator: Operator, left: &Types, right: &Types) -> bool
    ensures { result ≡ spec.relates operator left.now right.now }
{
    is_met(operator, only(left), right) || is_met(operator, only(right), left)
}

/// Whether the operator is a relation between two values of the type `base` (9.2.3). `=` and `/=` are defined
/// on all types, the order relations on scalar types.
#[tactic(auto, unfolding(crate::specs::Relations::compares))]
pub fn compares(operator: Operator, base: BaseType) -> bool
    ensures { result ≡ spec.compares operator base }
{
    match operator {
        Operator::Equal | Operator::NotEqual => true,
        Operator::Less | Operator::LessEqual | Operator::Greater | Operator::GreaterEqual => {
            !base.is_array()
        }
        _ => false,
    }
}

/// Whether the other operand can have the only type of one.
#[tactic(auto, unfolding(crate::specs::Relations::is_met))]
fn is_met(operator: Operator, only: Option<BaseType>, others: &Types) -> bool
    ensures { result ≡ spec.is_met operator only others.now }
{
    match only {
        Some(base) => compares(operator, base) && has(others, base),
        None => false,
    }
}
