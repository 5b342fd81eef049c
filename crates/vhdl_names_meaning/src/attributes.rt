//! Attributes of objects (16.2): of which type they are, and which hang on no value.

ghost use Rattle.std.specs.Prelude.{◌≡◌};
ghost use Rattle.vhdl_names_meaning.specs.Attributes as spec;

use vhdl_units::{BaseType, ObjectAttribute};

/// The type of an attribute of an object of this type.
#[tactic(auto, unfolding(crate::specs::Attributes::attribute_type))]
pub(crate) fn attribute_type(attribute: ObjectAttribute, base: BaseType) -> BaseType
    ensures { result ≡ spec.attribute_type attribute base }
{
    match attribute {
        ObjectAttribute::Event => BaseType::Boolean,
        ObjectAttribute::Active => BaseType::Boolean,
        ObjectAttribute::LastValue => base,
        _ => BaseType::Integer,
    }
}

/// Whether an attribute is a number of an array's bounds, which hangs on no value.
#[tactic(auto, unfolding(crate::specs::Attributes::is_bound))]
pub(crate) fn is_bound(attribute: ObjectAttribute) -> bool
    ensures { result ≡ spec.is_bound attribute }
{
    match attribute {
        ObjectAttribute::Event => false,
        ObjectAttribute::Active => false,
        ObjectAttribute::LastValue => false,
        _ => true,
    }
}
