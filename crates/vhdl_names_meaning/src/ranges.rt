//! Choices and discrete ranges.

ghost use Rattle.std.specs.Prelude.{◌≡◌, IfOk};
ghost use Rattle.vhdl_names_meaning.specs.Ranges as spec;

use crate::candidates::{ChoiceCandidate, Denoted, RangeCandidate};
use crate::settling::{settle, settle_both};
use std::alloc::{AllocError, Global};
use vhdl_names_operators::common_discrete;
use vhdl_units::{BaseType, ChoiceValue, RangeValue};

/// What a choice means where this type is asked (9.3.3, 10.9).
#[tactic(auto, unfolding(crate::specs::Ranges::choice_at))]
pub fn choice_at(
    alloc: Global,
    base: BaseType,
    choice: ChoiceCandidate,
) -> Result<ChoiceValue, AllocError>
    ensures { IfOk result (λ v. v ≡ spec.choice_at base choice) }
{
    match choice {
        ChoiceCandidate::Value(value) => Ok(ChoiceValue::Value(settle(alloc, value, base)?)),
        ChoiceCandidate::Range(left, direction, right) => {
            let (left, right) = settle_both(alloc, left, right, base)?;
            Ok(ChoiceValue::Range(left, direction, right))
        }
        ChoiceCandidate::Others => Ok(ChoiceValue::Others),
    }
}

#[tactic(auto, unfolding(crate::specs::Ranges::choice_is_static))]
pub(crate) fn choice_is_static(choice: &ChoiceCandidate) -> bool
    ensures { result ≡ spec.choice_is_static choice.now }
{
    match choice {
        ChoiceCandidate::Value(value) => value.is_static,
        ChoiceCandidate::Range(left, _, right) => left.is_static && right.is_static,
        ChoiceCandidate::Others => true,
    }
}

#[tactic(auto, unfolding(crate::specs::Ranges::range_of))]
fn range_of(denoted: Denoted) -> RangeValue
    ensures { result ≡ spec.range_of denoted }
{
    match denoted {
        Denoted::Range(reference) => RangeValue::Of(reference),
        _ => {
            drop(denoted);
            RangeValue::Unknown
        }
    }
}

/// What a discrete range means where this type is asked (5.3.2.1).
#[tactic(auto, unfolding(crate::specs::Ranges::range_at))]
pub fn range_at(
    alloc: Global,
    base: BaseType,
    range: RangeCandidate,
) -> Result<RangeValue, AllocError>
    ensures { IfOk result (λ v. v ≡ spec.range_at base range) }
{
    match range {
        RangeCandidate::Bounds(left, direction, right) => {
            let (left, right) = settle_both(alloc, left, right, base)?;
            Ok(RangeValue::Bounds(left, direction, right))
        }
        RangeCandidate::Name(denoted) => Ok(range_of(denoted)),
    }
}

/// The one discrete type that the bounds of a range have in common.
#[tactic(auto, unfolding(crate::specs::Ranges::common_type))]
pub fn common_type(range: &RangeCandidate) -> Option<BaseType>
    ensures { result ≡ spec.common_type range.now }
{
    match range {
        RangeCandidate::Bounds(left, _, right) => common_discrete(&left.types, &right.types),
        RangeCandidate::Name(_) => Some(BaseType::Integer),
    }
}
