//! What names denote: an identifier, and part by part what follows it.

ghost use Rattle.std.specs.Prelude.{◌≡◌, IfOk};
ghost use Rattle.vhdl_names_meaning.specs.Names as spec;

use crate::attributes::{attribute_type, is_bound};
use crate::candidates::{Candidate, Denoted, Open, PartCandidate};
use crate::settling::{settle, settle_both};
use sqlite_items::{Boxed, Items};
use std::alloc::{AllocError, Global};
use vhdl_names_overloads::{Meanings, Types};
use vhdl_names_typing::{Attribute, TypeAttribute, attribute_of, is_static_class};
use vhdl_tree::Direction;
use vhdl_units::{BaseType, Entry, Function, Object, PartValue, Reference, Value};

// ---- the identifier

#[tactic(auto, unfolding(crate::specs::Names::denoted_by))]
fn denoted_by(alloc: Global, entry: Entry, entries: Meanings) -> Denoted
    ensures { result ≡ spec.denoted_by entry entries }
{
    match entry {
        Entry::Subtype(mark) => Denoted::Subtype(mark.base),
        Entry::Object(object) => Denoted::Object(object, Items::new(alloc), object.base, true),
        Entry::Literal(_, _) => Denoted::Literals(entries),
        Entry::Function(Function::Now) => Denoted::Value(Value::Now, BaseType::Time, false),
        Entry::Function(function) => Denoted::Function(function),
        Entry::Unit(_) => Denoted::Unknown,
        Entry::Label(_) => Denoted::Unknown,
    }
}

/// What an identifier denotes by its entries: one, or several literals.
#[tactic(auto, unfolding(crate::specs::Names::begun))]
pub(crate) fn begun(alloc: Global, entries: Meanings) -> Denoted
    ensures { result ≡ spec.begun entries }
{
    match entries.first() {
        None => Denoted::Unknown,
        Some(entry) => denoted_by(alloc, entry, entries),
    }
}

// ---- what follows

#[tactic(auto, unfolding(crate::specs::Names::reference))]
fn reference(object: Object, parts: Items<PartValue>, base: BaseType) -> Reference
    ensures { result ≡ spec.reference object parts base }
{
    Reference {
        object,
        parts,
        base,
    }
}

#[tactic(auto, unfolding(crate::specs::Names::element_denoted))]
fn element_denoted(
    alloc: Global,
    object: Object,
    parts: Items<PartValue>,
    base: Option<BaseType>,
    are_static: bool,
    index: Candidate,
) -> Result<Denoted, AllocError>
    ensures { IfOk result (λ v. v ≡ spec.element_denoted object parts base are_static index) }
{
    match base {
        Some(base) => {
            let is_static = index.is_static;
            let index = settle(alloc, index, BaseType::Integer)?;
            let mut parts = parts;
            parts.push(PartValue::Index(index, is_static))?;
            Ok(Denoted::Object(object, parts, base, are_static && is_static))
        }
        None => {
            drop(index);
            Ok(Denoted::Unknown)
        }
    }
}

/// What a function gives of its argument.
#[tactic(auto, unfolding(crate::specs::Names::called))]
fn called(alloc: Global, function: Function, argument: Value) -> Result<Denoted, AllocError>
    ensures { IfOk result (λ v. v ≡ spec.called function argument) }
{
    match function {
        Function::RisingEdge => {
            let argument = Boxed::new(alloc, argument)?;
            Ok(Denoted::Value(
                Value::Call(Function::RisingEdge, argument),
                BaseType::Boolean,
                false,
            ))
        }
        Function::FallingEdge => {
            let argument = Boxed::new(alloc, argument)?;
            Ok(Denoted::Value(
                Value::Call(Function::FallingEdge, argument),
                BaseType::Boolean,
                false,
            ))
        }
        Function::ToX01 => {
            let argument = Boxed::new(alloc, argument)?;
            Ok(Denoted::Value(
                Value::Call(Function::ToX01, argument),
                BaseType::StdUlogic,
                false,
            ))
        }
        Function::Now => {
            drop(argument);
            Ok(Denoted::Unknown)
        }
    }
}

#[tactic(auto, unfolding(crate::specs::Names::of_type))]
fn of_type(
    alloc: Global,
    attribute: TypeAttribute,
    base: BaseType,
    argument: Candidate,
) -> Result<Denoted, AllocError>
    ensures { IfOk result (λ v. v ≡ spec.of_type attribute base argument) }
{
    match attribute {
        TypeAttribute::Pos => {
            let value = Boxed::new(alloc, settle(alloc, argument, base)?)?;
            Ok(Denoted::Value(Value::Position(base, value), BaseType::Integer, false))
        }
        TypeAttribute::Val => {
            let position = Boxed::new(alloc, settle(alloc, argument, BaseType::Integer)?)?;
            Ok(Denoted::Value(Value::At(base, position), base, false))
        }
    }
}

#[tactic(auto, unfolding(crate::specs::Names::indexed))]
fn indexed(alloc: Global, denoted: Denoted, index: Candidate) -> Result<Denoted, AllocError>
    ensures { IfOk result (λ v. v ≡ spec.indexed denoted index) }
{
    match denoted {
        Denoted::Object(object, parts, base, is_static) => {
            element_denoted(alloc, object, parts, base.element(), is_static, index)
        }
        Denoted::Function(function) => {
            let argument = settle(alloc, index, BaseType::StdUlogic)?;
            called(alloc, function, argument)
        }
        Denoted::TypeAttribute(attribute, base) => of_type(alloc, attribute, base, index),
        _ => {
            drop(denoted);
            drop(index);
            Ok(Denoted::Unknown)
        }
    }
}

#[tactic(auto, unfolding(crate::specs::Names::both_static))]
fn both_static(left: &Candidate, right: &Candidate) -> bool
    ensures { result ≡ spec.both_static left.now right.now }
{
    left.is_static && right.is_static
}

#[tactic(auto, unfolding(crate::specs::Names::slice_part))]
fn slice_part(
    alloc: Global,
    left: Candidate,
    direction: Direction,
    right: Candidate,
) -> Result<PartValue, AllocError>
    ensures { IfOk result (λ v. v ≡ spec.slice_part left direction right) }
{
    let are_static = both_static(&left, &right);
    let (left, right) = settle_both(alloc, left, right, BaseType::Integer)?;
    Ok(PartValue::Slice(left, direction, right, are_static))
}

#[tactic(auto, unfolding(crate::specs::Names::slice_denoted))]
fn slice_denoted(
    is_array: bool,
    object: Object,
    parts: Items<PartValue>,
    base: BaseType,
    is_static: bool,
    part: PartValue,
) -> Result<Denoted, AllocError>
    ensures { IfOk result (λ v. v ≡ spec.slice_denoted is_array object parts base is_static part) }
{
    if is_array {
        let mut parts = parts;
        parts.push(part)?;
        Ok(Denoted::Object(object, parts, base, is_static))
    } else {
        drop(part);
        Ok(Denoted::Unknown)
    }
}

#[tactic(auto, unfolding(crate::specs::Names::sliced))]
fn sliced(denoted: Denoted, are_static: bool, part: PartValue) -> Result<Denoted, AllocError>
    ensures { IfOk result (λ v. v ≡ spec.sliced denoted are_static part) }
{
    match denoted {
        Denoted::Object(object, parts, base, is_static) => {
            slice_denoted(
                base.is_array(),
                object,
                parts,
                base,
                is_static && are_static,
                part,
            )
        }
        _ => {
            drop(denoted);
            drop(part);
            Ok(Denoted::Unknown)
        }
    }
}

#[tactic(auto, unfolding(crate::specs::Names::object_attributed))]
fn object_attributed(
    attribute: Attribute,
    object: Object,
    parts: Items<PartValue>,
    base: BaseType,
) -> Denoted
    ensures { result ≡ spec.object_attributed attribute object parts base }
{
    match attribute {
        Attribute::Object(attribute) => {
            let reference = reference(object, parts, base);
            Denoted::Value(
                Value::Attribute(reference, attribute),
                attribute_type(attribute, base),
                is_bound(attribute),
            )
        }
        Attribute::Range => Denoted::Range(reference(object, parts, base)),
        Attribute::Type(_) => Denoted::Unknown,
    }
}

#[tactic(auto, unfolding(crate::specs::Names::type_attributed))]
fn type_attributed(attribute: Attribute, base: BaseType) -> Denoted
    ensures { result ≡ spec.type_attributed attribute base }
{
    match attribute {
        Attribute::Type(attribute) => Denoted::TypeAttribute(attribute, base),
        _ => Denoted::Unknown,
    }
}

#[tactic(auto, unfolding(crate::specs::Names::attributed))]
fn attributed(denoted: Denoted, attribute: Option<Attribute>) -> Denoted
    ensures { result ≡ spec.attributed denoted attribute }
{
    match attribute {
        Some(attribute) => match denoted {
            Denoted::Object(object, parts, base, _) => {
                object_attributed(attribute, object, parts, base)
            }
            Denoted::Subtype(base) => type_attributed(attribute, base),
            _ => {
                drop(denoted);
                Denoted::Unknown
            }
        },
        None => {
            drop(denoted);
            Denoted::Unknown
        }
    }
}

/// What a name denotes with one more part.
#[tactic(auto, unfolding(crate::specs::Names::extended))]
pub(crate) fn extended(
    alloc: Global,
    text: &[u8],
    denoted: Denoted,
    part: PartCandidate,
) -> Result<Denoted, AllocError>
    ensures { IfOk result (λ v. v ≡ spec.extended text.now denoted part) }
{
    match part {
        PartCandidate::Index(index) => indexed(alloc, denoted, index),
        PartCandidate::Slice(left, direction, right) => {
            let are_static = both_static(&left, &right);
            match slice_part(alloc, left, direction, right) {
                Ok(part) => sliced(denoted, are_static, part),
                Err(error) => {
                    drop(denoted);
                    Err(error)
                }
            }
        }
        PartCandidate::Attribute(word) => Ok(attributed(denoted, attribute_of(text, word))),
    }
}

// ---- a name as an expression

#[tactic(auto, unfolding(crate::specs::Names::candidate_with))]
pub(crate) fn candidate_with(types: Types, is_static: bool, form: Open) -> Candidate
    ensures { result ≡ spec.candidate_with types is_static form }
{
    Candidate {
        types,
        is_static,
        form,
    }
}

#[tactic(auto, unfolding(crate::specs::Names::only_value))]
pub(crate) fn only_value(
    alloc: Global,
    value: Value,
    base: BaseType,
    is_static: bool,
) -> Result<Candidate, AllocError>
    ensures { IfOk result (λ v. v ≡ spec.only_value value base is_static) }
{
    match Types::one(alloc, base) {
        Ok(types) => Ok(candidate_with(types, is_static, Open::Value(value))),
        Err(error) => {
            drop(value);
            Err(error)
        }
    }
}

/// What a name means in an expression, as far as its identifier and parts say.
#[tactic(auto, unfolding(crate::specs::Names::candidate_of))]
pub fn candidate_of(alloc: Global, denoted: Denoted) -> Result<Candidate, AllocError>
    ensures { IfOk result (λ v. v ≡ spec.candidate_of denoted) }
{
    match denoted {
        Denoted::Literals(entries) => {
            let types = Types::of_literals(entries.share(alloc)?);
            Ok(candidate_with(types, true, Open::Literals(entries)))
        }
        Denoted::Object(object, parts, base, are_static) => {
            let is_static = is_static_class(object.class) && are_static;
            let value = Value::Object(reference(object, parts, base));
            only_value(alloc, value, base, is_static)
        }
        Denoted::Value(value, base, is_static) => only_value(alloc, value, base, is_static),
        _ => {
            drop(denoted);
            Ok(candidate_with(Types::new(), false, Open::Value(Value::Unknown)))
        }
    }
}

/// What a name means as a target, or where a signal is named.
#[tactic(auto, unfolding(crate::specs::Names::target_of))]
pub fn target_of(denoted: Denoted) -> Value
    ensures { result ≡ spec.target_of denoted }
{
    match denoted {
        Denoted::Object(object, parts, base, _) => Value::Object(reference(object, parts, base)),
        _ => {
            drop(denoted);
            Value::Unknown
        }
    }
}
