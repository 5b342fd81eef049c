//! What a place asks of the types that an expression there can have.

ghost use Rattle.std.specs.Prelude.{◌≡◌, List};
ghost use Rattle.vhdl_names_overloads.specs.Sharing as sharing;
ghost use Rattle.vhdl_units.specs.declared.base_type.BaseType.{BaseType};
ghost use Rattle.vhdl_names_operators.specs.Places as spec;

use crate::sets::has;
use vhdl_names_overloads::{Shared, Types};
use vhdl_units::BaseType;

/// Whether a place of the type `asked` takes an expression that can have the types `types`: exactly one of them
/// fits (12.5).
#[tactic(auto, unfolding(crate::specs::Places::fits_alone))]
pub fn fits_alone(asked: BaseType, types: &Types) -> bool
    ensures { result ≡ spec.fits_alone asked types.now }
{
    has(types, asked)
}

/// The type of a set that has exactly one.
#[tactic(auto, unfolding(crate::specs::Places::only))]
pub fn only(types: &Types) -> Option<BaseType>
    ensures { result ≡ spec.only types.now }
{
    match types.get(1) {
        Some(_) => None,
        None => types.get(0),
    }
}

/// The discrete type that two sets have in common, where it is exactly one (5.3.2.1, 10.10). What the smaller
/// set has is looked up in the other.
pub fn common_discrete(left: &Types, right: &Types) -> Option<BaseType>
    ensures { result ≡ spec.common_discrete left.now right.now }
{
    if right.len() < left.len() {
        common_among(right, left)
    } else {
        common_among(left, right)
    }
}

/// The discrete type that two sets share, where it is exactly one (5.3.2.1, 10.10).
pub fn one_shared(shared: Shared) -> Option<BaseType>
    ensures { (types others : List BaseType) → shared ≡ sharing.shared types others → result ≡ spec.common_discrete types others }
{
    match shared {
        Shared::Nothing => None,
        Shared::One(base) => Some(base),
        Shared::Several => None,
    }
}

/// The one discrete type of a set that stands in `others`.
fn common_among(types: &Types, others: &Types) -> Option<BaseType>
    ensures { result ≡ spec.common_discrete types.now others.now }
{
    one_shared(types.shared(others))
}
