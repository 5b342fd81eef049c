//! Attributes (16.2): which there are, and which prefixes have them.

ghost use Rattle.std.specs.Prelude.{◌≡◌, bytes_eq, map};
ghost use Rattle.std.specs.Char.{to_ascii_lowercase};
ghost use Rattle.vhdl_names_typing.specs.Attributes as spec;

use crate::told::{Attribute, ObjectName, TypeAttribute};
use vhdl_tokens::{Token, span};
use vhdl_units::{BaseType, Class, ObjectAttribute};

/// The attribute that the word after an apostrophe names, in either case.
#[tactic(auto, unfolding(crate::specs::Attributes::attribute_of))]
pub fn attribute_of(text: &[u8], token: Token) -> Option<Attribute>
    ensures { result ≡ spec.attribute_of text.now token }
{
    attribute_named(span(text, &token))
}

#[tactic(auto, unfolding(crate::specs::Attributes::attribute_named))]
fn attribute_named(word: &[u8]) -> Option<Attribute>
    ensures { result ≡ spec.attribute_named (map to_ascii_lowercase word.now) }
{
    if is(word, "event") {
        Some(Attribute::Object(ObjectAttribute::Event))
    } else if is(word, "active") {
        Some(Attribute::Object(ObjectAttribute::Active))
    } else if is(word, "last_value") {
        Some(Attribute::Object(ObjectAttribute::LastValue))
    } else if is(word, "left") {
        Some(Attribute::Object(ObjectAttribute::Left))
    } else if is(word, "right") {
        Some(Attribute::Object(ObjectAttribute::Right))
    } else if is(word, "high") {
        Some(Attribute::Object(ObjectAttribute::High))
    } else if is(word, "low") {
        Some(Attribute::Object(ObjectAttribute::Low))
    } else if is(word, "length") {
        Some(Attribute::Object(ObjectAttribute::Length))
    } else if is(word, "range") {
        Some(Attribute::Range)
    } else if is(word, "pos") {
        Some(Attribute::Type(TypeAttribute::Pos))
    } else if is(word, "val") {
        Some(Attribute::Type(TypeAttribute::Val))
    } else {
        None
    }
}

/// Whether a word is spelled so, in either case. The spelling is in lower case.
fn is(word: &[u8], spelling: &str) -> bool
    ensures { result ≡ bytes_eq (map to_ascii_lowercase word.now) (map to_ascii_lowercase spelling.now) }
{
    word.eq_ignore_ascii_case(spelling.as_bytes())
}

/// Whether objects of a class are signals. Ports are.
#[tactic(auto, unfolding(crate::specs::Attributes::is_signal_class))]
pub fn is_signal_class(class: Class) -> bool
    ensures { result ≡ spec.is_signal_class class }
{
    match class {
        Class::Signal | Class::Port(_) => true,
        _ => false,
    }
}

/// Whether the values of objects of a class change while the design runs.
#[tactic(auto, unfolding(crate::specs::Attributes::is_read))]
pub(crate) fn is_read(class: Class) -> bool
    ensures { result ≡ spec.is_read class }
{
    match class {
        Class::Variable => true,
        _ => is_signal_class(class),
    }
}

/// Whether objects of a class are globally static as values (9.4.3).
#[tactic(auto, unfolding(crate::specs::Attributes::is_static_class))]
pub fn is_static_class(class: Class) -> bool
    ensures { result ≡ spec.is_static_class class }
{
    match class {
        Class::Constant | Class::Generic => true,
        _ => false,
    }
}

/// Whether an object is a signal.
#[tactic(auto, unfolding(crate::specs::Attributes::is_signal))]
pub(crate) fn is_signal(object: ObjectName) -> bool
    ensures { result ≡ spec.is_signal object }
{
    is_signal_class(object.object.class)
}

/// Whether what is named is an array.
#[tactic(auto, unfolding(crate::specs::Attributes::is_array_type))]
pub(crate) fn is_array_type(base: Option<BaseType>) -> bool
    ensures { result ≡ spec.is_array_type base }
{
    match base {
        Some(base) => base.is_array(),
        None => false,
    }
}

/// Whether what is named is an array whose bounds are known before the run: an array, or a slice of one with
/// static bounds.
#[tactic(auto, unfolding(crate::specs::Attributes::has_bounds))]
pub(crate) fn has_bounds(object: ObjectName) -> bool
    ensures { result ≡ spec.has_bounds object }
{
    is_array_type(object.base) && object.is_static
}
