//! The types that an operator gives.

ghost use Rattle.std.specs.Prelude.{◌≡◌, IfOk, filter};
ghost use Rattle.vhdl_names_operators.specs.Operators as spec;

use crate::sets::{PREDEFINED, has};
use sqlite_items::Items;
use std::alloc::{AllocError, Global};
use vhdl_names_overloads::Types;
use vhdl_tree::{Operator, Unary};
use vhdl_units::BaseType;

/// The types that an operator can give where its operands can have the types `left` and `right` (9.2), in the
/// order of their enumeration. There are none where the operands don't fit.
#[tactic(auto, unfolding(crate::specs::Operators::results))]
pub fn results(
    alloc: Global,
    operator: Operator,
    left: &Types,
    right: &Types,
) -> Result<Types, AllocError>
    ensures { IfOk result (λ types. types ≡ spec.results operator left.now right.now) }
{
    results_among(alloc, &PREDEFINED, operator, left, right)
}

/// The types of `candidates` that an operator can give.
fn results_among(
    alloc: Global,
    candidates: &[BaseType],
    operator: Operator,
    left: &Types,
    right: &Types,
) -> Result<Types, AllocError>
    ensures { IfOk result (λ types. types ≡ filter (spec.can_be operator left.now right.now) candidates.now) }
{
    let types = candidates
        .iter()
        .copied()
        .filter(|base| can_be(operator, left, right, *base))
        .collect(alloc)?;
    Ok(Types::from_items(Items::from_vec(types)))
}

/// The types that an operator before one operand can give (9.2), in the order of their enumeration.
#[tactic(auto, unfolding(crate::specs::Operators::results_from))]
pub fn results_from(alloc: Global, operator: Unary, types: &Types) -> Result<Types, AllocError>
    ensures { IfOk result (λ given. given ≡ spec.results_from operator types.now) }
{
    results_from_among(alloc, &PREDEFINED, operator, types)
}

/// The types of `candidates` that an operator before one operand can give.
fn results_from_among(
    alloc: Global,
    candidates: &[BaseType],
    operator: Unary,
    types: &Types,
) -> Result<Types, AllocError>
    ensures { IfOk result (λ given. given ≡ filter (spec.can_be_from operator types.now) candidates.now) }
{
    let given = candidates
        .iter()
        .copied()
        .filter(|base| can_be_from(operator, types, *base))
        .collect(alloc)?;
    Ok(Types::from_items(Items::from_vec(given)))
}

/// Whether an operator can give the type `base` where its operands can have the types `left` and `right` (9.2).
/// A relation gives BOOLEAN whatever its operands are.
#[tactic(auto, unfolding(crate::specs::Operators::can_be))]
pub fn can_be(operator: Operator, left: &Types, right: &Types, base: BaseType) -> bool
    ensures { result ≡ spec.can_be operator left.now right.now base }
{
    match operator {
        Operator::And
        | Operator::Or
        | Operator::Xor
        | Operator::Xnor
        | Operator::Nand
        | Operator::Nor => logical(left, right, base),
        Operator::Equal
        | Operator::NotEqual
        | Operator::Less
        | Operator::LessEqual
        | Operator::Greater
        | Operator::GreaterEqual => relation(base),
        Operator::Add | Operator::Subtract => sum(left, right, base),
        Operator::Concatenate => concatenation(left, right, base),
        Operator::Multiply => product(left, right, base),
        Operator::Divide => quotient(left, right, base),
        Operator::Mod | Operator::Rem | Operator::Power => integers(left, right, base),
    }
}

/// Whether an operator before one operand can give the type `base`, which is its operand's (9.2).
#[tactic(auto, unfolding(crate::specs::Operators::can_be_from))]
pub fn can_be_from(operator: Unary, types: &Types, base: BaseType) -> bool
    ensures { result ≡ spec.can_be_from operator types.now base }
{
    is_defined_on(operator, base) && has(types, base)
}

#[tactic(auto, unfolding(crate::specs::Operators::is_defined_on))]
fn is_defined_on(operator: Unary, base: BaseType) -> bool
    ensures { result ≡ spec.is_defined_on operator base }
{
    match operator {
        Unary::Plus | Unary::Minus => is_numeric(base),
        Unary::Abs => is_integer(base),
        Unary::Not => is_logical(base),
    }
}

#[tactic(auto, unfolding(crate::specs::Operators::is_integer))]
fn is_integer(base: BaseType) -> bool
    ensures { result ≡ spec.is_integer base }
{
    match base {
        BaseType::Integer => true,
        _ => false,
    }
}

#[tactic(auto, unfolding(crate::specs::Operators::is_numeric))]
fn is_numeric(base: BaseType) -> bool
    ensures { result ≡ spec.is_numeric base }
{
    match base {
        BaseType::Integer | BaseType::Time => true,
        _ => false,
    }
}

#[tactic(auto, unfolding(crate::specs::Operators::is_logical))]
fn is_logical(base: BaseType) -> bool
    ensures { result ≡ spec.is_logical base }
{
    match base {
        BaseType::Boolean
        | BaseType::Bit
        | BaseType::StdUlogic
        | BaseType::BitVector
        | BaseType::StdUlogicVector => true,
        _ => false,
    }
}

/// Whether both operands can have the type `base`.
#[tactic(auto, unfolding(crate::specs::Operators::both))]
fn both(left: &Types, right: &Types, base: BaseType) -> bool
    ensures { result ≡ spec.both left.now right.now base }
{
    has(left, base) && has(right, base)
}

#[tactic(auto, unfolding(crate::specs::Operators::logical))]
fn logical(left: &Types, right: &Types, base: BaseType) -> bool
    ensures { result ≡ spec.logical left.now right.now base }
{
    is_logical(base) && both(left, right, base)
}

#[tactic(auto, unfolding(crate::specs::Operators::relation))]
fn relation(base: BaseType) -> bool
    ensures { result ≡ spec.relation base }
{
    match base {
        BaseType::Boolean => true,
        _ => false,
    }
}

#[tactic(auto, unfolding(crate::specs::Operators::sum))]
fn sum(left: &Types, right: &Types, base: BaseType) -> bool
    ensures { result ≡ spec.sum left.now right.now base }
{
    is_numeric(base) && both(left, right, base)
}

#[tactic(auto, unfolding(crate::specs::Operators::product))]
fn product(left: &Types, right: &Types, base: BaseType) -> bool
    ensures { result ≡ spec.product left.now right.now base }
{
    match base {
        BaseType::Integer => both(left, right, BaseType::Integer),
        BaseType::Time => {
            let times_on_right = has(left, BaseType::Integer) && has(right, BaseType::Time);
            times_on_right || (has(left, BaseType::Time) && has(right, BaseType::Integer))
        }
        _ => false,
    }
}

#[tactic(auto, unfolding(crate::specs::Operators::quotient))]
fn quotient(left: &Types, right: &Types, base: BaseType) -> bool
    ensures { result ≡ spec.quotient left.now right.now base }
{
    match base {
        BaseType::Integer => {
            both(left, right, BaseType::Integer) || both(left, right, BaseType::Time)
        }
        BaseType::Time => has(left, BaseType::Time) && has(right, BaseType::Integer),
        _ => false,
    }
}

#[tactic(auto, unfolding(crate::specs::Operators::integers))]
fn integers(left: &Types, right: &Types, base: BaseType) -> bool
    ensures { result ≡ spec.integers left.now right.now base }
{
    match base {
        BaseType::Integer => both(left, right, BaseType::Integer),
        _ => false,
    }
}

#[tactic(auto, unfolding(crate::specs::Operators::concatenation, crate::specs::Operators::joined))]
fn concatenation(left: &Types, right: &Types, base: BaseType) -> bool
    ensures { result ≡ spec.concatenation left.now right.now base }
{
    match base.element() {
        Some(element) => joins(left, base, element) && joins(right, base, element),
        None => false,
    }
}

/// Whether an operand of `&` can be an array of the type `base` or an element of one.
#[tactic(auto, unfolding(crate::specs::Operators::joins))]
fn joins(types: &Types, base: BaseType, element: BaseType) -> bool
    ensures { result ≡ spec.joins types.now base element }
{
    has(types, base) || has(types, element)
}
