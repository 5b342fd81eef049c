//! Sets of types.

ghost use Rattle.std.specs.Prelude.{◌≡◌};
ghost use Rattle.vhdl_names_operators.specs.Sets as spec;

use vhdl_names_overloads::Types;
use vhdl_units::BaseType;

/// The types that are always visible, in the order of their enumeration.
pub(crate) const PREDEFINED: [BaseType; 10] = [
    BaseType::Boolean,
    BaseType::Bit,
    BaseType::Character,
    BaseType::StdUlogic,
    BaseType::Integer,
    BaseType::Time,
    BaseType::BitVector,
    BaseType::StdUlogicVector,
    BaseType::String,
    BaseType::IntegerVector,
];

/// The array types.
pub(crate) const ARRAYS: [BaseType; 4] = [
    BaseType::BitVector,
    BaseType::StdUlogicVector,
    BaseType::String,
    BaseType::IntegerVector,
];

/// Whether `base` is one of the types.
#[tactic(auto, unfolding(crate::specs::Sets::has))]
pub fn has(types: &Types, base: BaseType) -> bool
    ensures { result ≡ spec.has types.now base }
{
    types.has(base)
}
