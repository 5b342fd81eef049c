//! What names denote (8, 12): an identifier, and part by part what follows it.

ghost use Rattle.std.specs.Prelude.{◌≡◌, IfOk};
ghost use Rattle.vhdl_names_typing.specs.Names as spec;

use crate::attributed::attributed;
use crate::attributes::{is_read, is_static_class};
use crate::changes::wrong_kind;
use crate::faults::{at, break_if};
use crate::indexed::{indexed, sliced};
use crate::told::{Denotes, Form, NameTold, ObjectName, PartTold, Told};
use sqlite_items::Items;
use std::alloc::{AllocError, Global};
use vhdl_names_overloads::{Meanings, Types};
use vhdl_units::{BaseType, Entry, Function, Object, Rule};

#[tactic(auto, unfolding(crate::specs::Names::object_name))]
fn object_name(object: Object) -> ObjectName
    ensures { result ≡ spec.object_name object }
{
    ObjectName {
        object,
        base: Some(object.base),
        is_static: true,
        has_static_bounds: true,
    }
}

#[tactic(auto, unfolding(crate::specs::Names::denoted))]
fn denoted(entry: Entry) -> Denotes
    ensures { result ≡ spec.denoted entry }
{
    match entry {
        Entry::Subtype(mark) => Denotes::Subtype(mark),
        Entry::Object(object) => Denotes::Object(object_name(object)),
        Entry::Literal(_, _) => Denotes::Value,
        Entry::Function(Function::Now) => Denotes::Now,
        Entry::Function(function) => Denotes::Function(function),
        Entry::Unit(_) => Denotes::Unit,
        Entry::Label(_) => Denotes::Label,
    }
}

#[tactic(auto, unfolding(crate::specs::Names::is_static_entry))]
fn is_static_entry(entry: Entry) -> bool
    ensures { result ≡ spec.is_static_entry entry }
{
    match entry {
        Entry::Object(object) => is_static_class(object.class),
        Entry::Literal(_, _) => true,
        _ => false,
    }
}

#[tactic(auto, unfolding(crate::specs::Names::is_read_entry))]
fn is_read_entry(entry: Entry) -> bool
    ensures { result ≡ spec.is_read_entry entry }
{
    match entry {
        Entry::Object(object) => is_read(object.class),
        _ => false,
    }
}

/// What an identifier tells that isn't declared.
#[tactic(auto, unfolding(crate::specs::Names::undeclared))]
fn undeclared(alloc: Global, place: u32) -> Result<NameTold, AllocError>
    ensures { IfOk result (λ name. name ≡ spec.undeclared place) }
{
    let names = at(alloc, place, Rule::Undeclared)?;
    Ok(NameTold {
        place,
        names,
        typing: Items::new(alloc),
        denotes: Denotes::Unknown,
        types: Types::new(),
        is_static: false,
        reads: false,
        is_misfit: false,
    })
}

/// What an identifier tells that denotes `entry`, and has `types` as those of a literal.
#[tactic(auto, unfolding(crate::specs::Names::declared))]
fn declared(alloc: Global, place: u32, entry: Entry, types: Types) -> NameTold
    ensures { result ≡ spec.declared place entry types }
{
    NameTold {
        place,
        names: Items::new(alloc),
        typing: Items::new(alloc),
        denotes: denoted(entry),
        types,
        is_static: is_static_entry(entry),
        reads: is_read_entry(entry),
        is_misfit: false,
    }
}

/// What the identifier at `place`, in bytes from 0, tells by the entries that it denotes: none where it isn't
/// declared, one, or several literals (12.3).
#[tactic(auto, unfolding(crate::specs::Names::begun))]
pub fn begun(alloc: Global, place: u32, entries: Meanings) -> Result<NameTold, AllocError>
    ensures { IfOk result (λ name. name ≡ spec.begun place entries) }
{
    match entries.first() {
        None => undeclared(alloc, place),
        Some(entry) => Ok(declared(alloc, place, entry, Types::of_literals(entries))),
    }
}

/// What a name tells with one more part: an index or argument, a slice, or an attribute (8.4, 8.5, 8.6).
#[tactic(auto, unfolding(crate::specs::Names::extended))]
pub fn extended(
    alloc: Global,
    text: &[u8],
    name: NameTold,
    part: PartTold,
) -> Result<NameTold, AllocError>
    ensures { IfOk result (λ told. told ≡ spec.extended text.now name part) }
{
    match part {
        PartTold::Index(told) => indexed(alloc, name, &told),
        PartTold::Slice(left, right) => sliced(alloc, name, &left, &right),
        PartTold::Attribute(word) => attributed(alloc, text, name, word),
    }
}

/// What a whole name tells: an index or slice on what is no array is a fault of it, where the names in it are
/// known.
#[tactic(auto, unfolding(crate::specs::Names::finished))]
pub fn finished(alloc: Global, mut name: NameTold) -> Result<NameTold, AllocError>
    ensures { IfOk result (λ told. told ≡ spec.finished name) }
{
    let fault = break_if(
        alloc,
        name.is_misfit,
        name.names.as_slice(),
        name.place,
        Rule::Type,
    )?;
    name.typing.append(fault)?;
    Ok(name)
}

/// What a name tells as a value that denotes none, as that of a type or a label.
#[tactic(auto, unfolding(crate::specs::Names::no_value, crate::specs::Names::told_as))]
fn no_value(alloc: Global, mut name: NameTold) -> Result<Told, AllocError>
    ensures { IfOk result (λ told. told ≡ spec.no_value name) }
{
    let fault = at(alloc, name.place, Rule::WrongKind)?;
    name.names.append(fault)?;
    Ok(name.told_as(Form::Unknown, Types::new()))
}

/// The type there is, or none.
#[tactic(auto, unfolding(crate::specs::Names::option_types))]
pub(crate) fn option_types(alloc: Global, base: Option<BaseType>) -> Result<Types, AllocError>
    ensures { IfOk result (λ types. types ≡ spec.option_types base) }
{
    match base {
        Some(base) => Types::one(alloc, base),
        None => Ok(Types::new()),
    }
}

/// What a name tells as an expression (9.1). One that denotes no value is a fault.
#[tactic(auto, unfolding(crate::specs::Names::value_of, crate::specs::Names::value_as))]
pub fn value_of(alloc: Global, name: NameTold) -> Result<Told, AllocError>
    ensures { IfOk result (λ told. told ≡ spec.value_of name) }
{
    match name.denotes {
        Denotes::Unknown => Ok(name.told_as(Form::Unknown, Types::new())),
        Denotes::Object(object) => {
            let types = option_types(alloc, object.base)?;
            Ok(name.told_as(Form::Object(object), types))
        }
        Denotes::Value => Ok(name.told_with_types(Form::Value)),
        Denotes::Now => {
            let types = Types::one(alloc, BaseType::Time)?;
            Ok(name.told_as(Form::Value, types))
        }
        _ => no_value(alloc, name),
    }
}
