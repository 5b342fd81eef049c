//! Names of attributes (8.6, 16.2).

ghost use Rattle.std.specs.Prelude.{◌≡◌, IfOk};
ghost use Rattle.vhdl_names_typing.specs.Names as spec;

use crate::attributes::{attribute_of, has_bounds, is_array_type, is_signal};
use crate::changes::{becomes_value, gives, has_no_such, with_denoted};
use crate::names::option_types;
use crate::told::{Attribute, Denotes, NameTold, ObjectName, TypeAttribute};
use std::alloc::{AllocError, Global};
use vhdl_names_overloads::Types;
use vhdl_tokens::Token;
use vhdl_units::{BaseType, ObjectAttribute};

/// What `left`, `right`, `high`, `low` and `length` tell. They are numbers of the array's bounds, and hang on no
/// value of it.
#[tactic(auto, unfolding(crate::specs::Names::bound_of))]
fn bound_of(alloc: Global, mut name: NameTold) -> Result<NameTold, AllocError>
    ensures { IfOk result (λ told. told ≡ spec.bound_of name) }
{
    let types = Types::one(alloc, BaseType::Integer)?;
    name.becomes(Denotes::Value, types);
    name.is_static = true;
    name.reads = false;
    Ok(name)
}

#[tactic(auto, unfolding(crate::specs::Names::range_of))]
fn range_of(mut name: NameTold) -> NameTold
    ensures { result ≡ spec.range_of name }
{
    name.denotes = Denotes::Range;
    name.is_static = true;
    name.reads = false;
    name
}

/// What `event` and `active` tell of an object: whether a signal changed.
#[tactic(auto, unfolding(crate::specs::Names::change_of))]
fn change_of(
    alloc: Global,
    object: ObjectName,
    place: u32,
    name: NameTold,
) -> Result<NameTold, AllocError>
    ensures { IfOk result (λ told. told ≡ spec.change_of object place name) }
{
    if is_signal(object) {
        gives(alloc, BaseType::Boolean, name)
    } else {
        has_no_such(alloc, place, name)
    }
}

/// What `last_value` tells of an object: the value of a scalar signal before its last event.
#[tactic(auto, unfolding(crate::specs::Names::last_value_of))]
fn last_value_of(
    alloc: Global,
    object: ObjectName,
    place: u32,
    name: NameTold,
) -> Result<NameTold, AllocError>
    ensures { IfOk result (λ told. told ≡ spec.last_value_of object place name) }
{
    if is_signal(object) && !is_array_type(object.base) {
        let types = option_types(alloc, object.base)?;
        Ok(becomes_value(types, name))
    } else {
        has_no_such(alloc, place, name)
    }
}

/// What an attribute of an object tells but for its range.
#[tactic(auto, unfolding(crate::specs::Names::object_attribute))]
fn object_attribute(
    alloc: Global,
    attribute: ObjectAttribute,
    object: ObjectName,
    place: u32,
    name: NameTold,
) -> Result<NameTold, AllocError>
    ensures { IfOk result (λ told. told ≡ spec.object_attribute attribute object place name) }
{
    match attribute {
        ObjectAttribute::Event | ObjectAttribute::Active => change_of(alloc, object, place, name),
        ObjectAttribute::LastValue => last_value_of(alloc, object, place, name),
        _ if has_bounds(object) => bound_of(alloc, name),
        _ => has_no_such(alloc, place, name),
    }
}

/// What an attribute tells behind the name of an object.
#[tactic(auto, unfolding(crate::specs::Names::object_attributed))]
fn object_attributed(
    alloc: Global,
    attribute: Attribute,
    object: ObjectName,
    place: u32,
    name: NameTold,
) -> Result<NameTold, AllocError>
    ensures { IfOk result (λ told. told ≡ spec.object_attributed attribute object place name) }
{
    match attribute {
        Attribute::Object(attribute) => object_attribute(alloc, attribute, object, place, name),
        Attribute::Range if has_bounds(object) => Ok(range_of(name)),
        _ => has_no_such(alloc, place, name),
    }
}

/// What an attribute of a type tells that takes an argument.
#[tactic(auto, unfolding(crate::specs::Names::with_argument))]
fn with_argument(
    alloc: Global,
    attribute: TypeAttribute,
    base: BaseType,
    place: u32,
    name: NameTold,
) -> Result<NameTold, AllocError>
    ensures { IfOk result (λ told. told ≡ spec.with_argument attribute base place name) }
{
    if base.is_enumeration() {
        Ok(with_denoted(Denotes::TypeAttribute(attribute, base), name))
    } else {
        has_no_such(alloc, place, name)
    }
}

/// What an attribute tells behind the name of a type.
#[tactic(auto, unfolding(crate::specs::Names::type_attributed))]
fn type_attributed(
    alloc: Global,
    attribute: Attribute,
    base: BaseType,
    place: u32,
    name: NameTold,
) -> Result<NameTold, AllocError>
    ensures { IfOk result (λ told. told ≡ spec.type_attributed attribute base place name) }
{
    match attribute {
        Attribute::Type(attribute) => with_argument(alloc, attribute, base, place, name),
        _ => has_no_such(alloc, place, name),
    }
}

#[tactic(auto, unfolding(crate::specs::Names::attributed_as))]
fn attributed_as(
    alloc: Global,
    denotes: Denotes,
    attribute: Option<Attribute>,
    place: u32,
    name: NameTold,
) -> Result<NameTold, AllocError>
    ensures { IfOk result (λ told. told ≡ spec.attributed_as denotes attribute place name) }
{
    match (denotes, attribute) {
        (Denotes::Unknown, _) => Ok(name),
        (Denotes::Object(object), Some(attribute)) => {
            object_attributed(alloc, attribute, object, place, name)
        }
        (Denotes::Subtype(mark), Some(attribute)) => {
            type_attributed(alloc, attribute, mark.base, place, name)
        }
        _ => has_no_such(alloc, place, name),
    }
}

/// What a name tells that an apostrophe and `word` follow (8.6).
#[tactic(auto, unfolding(crate::specs::Names::attributed))]
pub(crate) fn attributed(
    alloc: Global,
    text: &[u8],
    name: NameTold,
    word: Token,
) -> Result<NameTold, AllocError>
    ensures { IfOk result (λ told. told ≡ spec.attributed text.now name word) }
{
    let attribute = attribute_of(text, word);
    let denotes = name.denotes;
    attributed_as(alloc, denotes, attribute, word.start, name)
}
