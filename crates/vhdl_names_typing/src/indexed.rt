//! Indices, slices and the arguments of functions and attributes (8.4, 8.5, 9.3.4, 16.2).

ghost use Rattle.std.specs.Prelude.{◌≡◌, ◌++◌, IfOk};
ghost use Rattle.vhdl_units.specs.declared.base_type.BaseType.TheVariants as base;
ghost use Rattle.vhdl_names_typing.specs.Faults as faults_spec;
ghost use Rattle.vhdl_names_typing.specs.Names as spec;

use crate::attributes::{is_array_type, is_signal};
use crate::changes::{gives, misfits, takes, with_denoted, with_names, with_typing, wrong_kind};
use crate::faults::{append, asks, at};
use crate::told::{Denotes, Form, NameTold, ObjectName, Told, TypeAttribute};
use sqlite_items::Items;
use std::alloc::{AllocError, Global};
use vhdl_units::{BaseType, Fault, Function, Rule};

/// An element or slice of an object. It is a static name only where the object and its indices are.
#[tactic(auto, unfolding(crate::specs::Names::part_of))]
fn part_of(object: ObjectName, base: Option<BaseType>, is_static: bool) -> ObjectName
    ensures { result ≡ spec.part_of object base is_static }
{
    ObjectName {
        object: object.object,
        base,
        is_static: object.is_static && is_static,
        has_static_bounds: is_static,
    }
}

#[tactic(auto, unfolding(crate::specs::Names::element_of))]
fn element_of(base: Option<BaseType>) -> Option<BaseType>
    ensures { result ≡ spec.element_of base }
{
    match base {
        Some(base) => base.element(),
        None => None,
    }
}

/// What the name of an element of an object tells, or that of an object that is no array.
#[tactic(auto, unfolding(crate::specs::Names::element_named))]
fn element_named(
    alloc: Global,
    object: ObjectName,
    element: Option<BaseType>,
    told: &Told,
    name: NameTold,
) -> Result<NameTold, AllocError>
    ensures { IfOk result (λ named. named ≡ spec.element_named object element told.now name) }
{
    let part = Denotes::Object(part_of(object, element, told.is_static));
    match element {
        Some(_) => with_typing(
            asks(alloc, BaseType::Integer, told)?,
            with_denoted(part, name),
        ),
        None => Ok(misfits(part, name)),
    }
}

/// Whether an expression is known to be no name of a signal.
#[tactic(auto, unfolding(crate::specs::Names::is_no_signal))]
fn is_no_signal(form: Form) -> bool
    ensures { result ≡ spec.is_no_signal form }
{
    match form {
        Form::Object(object) => !is_signal(object),
        Form::Unknown => false,
        _ => true,
    }
}

/// The fault of an argument of RISING_EDGE or FALLING_EDGE that is no name of a signal.
#[tactic(auto, unfolding(crate::specs::Names::signal_wanted))]
fn signal_wanted(alloc: Global, told: &Told) -> Result<Items<Fault>, AllocError>
    ensures { IfOk result (λ faults. faults ≡ spec.signal_wanted told.now) }
{
    if is_no_signal(told.form) {
        at(alloc, told.place, Rule::WrongKind)
    } else {
        Ok(Items::new(alloc))
    }
}

#[tactic(auto, unfolding(crate::specs::Names::edge_of))]
fn edge_of(alloc: Global, told: &Told, name: NameTold) -> Result<NameTold, AllocError>
    ensures { IfOk result (λ called. called ≡ spec.edge_of told.now name) }
{
    let name = with_names(signal_wanted(alloc, told)?, name)?;
    let name = with_typing(asks(alloc, BaseType::StdUlogic, told)?, name)?;
    gives(alloc, BaseType::Boolean, name)
}

/// What the call of a function tells (9.3.4).
#[tactic(auto, unfolding(crate::specs::Names::called))]
fn called(
    alloc: Global,
    function: Function,
    told: &Told,
    name: NameTold,
) -> Result<NameTold, AllocError>
    ensures { IfOk result (λ called. called ≡ spec.called function told.now name) }
{
    match function {
        Function::RisingEdge | Function::FallingEdge => edge_of(alloc, told, name),
        Function::ToX01 => {
            let name = with_typing(asks(alloc, BaseType::StdUlogic, told)?, name)?;
            gives(alloc, BaseType::StdUlogic, name)
        }
        Function::Now => wrong_kind(alloc, name),
    }
}

/// What an attribute of an enumeration type tells with its argument (16.2).
#[tactic(auto, unfolding(crate::specs::Names::of_type))]
fn of_type(
    alloc: Global,
    attribute: TypeAttribute,
    base: BaseType,
    told: &Told,
    name: NameTold,
) -> Result<NameTold, AllocError>
    ensures { IfOk result (λ given. given ≡ spec.of_type attribute base told.now name) }
{
    match attribute {
        TypeAttribute::Pos => {
            let name = with_typing(asks(alloc, base, told)?, name)?;
            gives(alloc, BaseType::Integer, name)
        }
        TypeAttribute::Val => {
            let name = with_typing(asks(alloc, BaseType::Integer, told)?, name)?;
            gives(alloc, base, name)
        }
    }
}

#[tactic(auto, unfolding(crate::specs::Names::indexed_as))]
fn indexed_as(
    alloc: Global,
    denotes: Denotes,
    told: &Told,
    name: NameTold,
) -> Result<NameTold, AllocError>
    ensures { IfOk result (λ named. named ≡ spec.indexed_as denotes told.now name) }
{
    match denotes {
        Denotes::Unknown => Ok(name),
        Denotes::Object(object) => {
            element_named(alloc, object, element_of(object.base), told, name)
        }
        Denotes::Value => Ok(misfits(Denotes::Value, name)),
        Denotes::Function(function) => called(alloc, function, told, name),
        Denotes::TypeAttribute(attribute, base) => of_type(alloc, attribute, base, told, name),
        _ => wrong_kind(alloc, name),
    }
}

/// What a name tells that an expression in brackets follows: an index (8.4), or the argument of a function or
/// of an attribute.
#[tactic(auto, unfolding(crate::specs::Names::indexed))]
pub(crate) fn indexed(alloc: Global, name: NameTold, told: &Told) -> Result<NameTold, AllocError>
    ensures { IfOk result (λ named. named ≡ spec.indexed name told.now) }
{
    let denotes = name.denotes;
    let taken = takes(alloc, name, told)?;
    indexed_as(alloc, denotes, told, taken)
}

/// What is asked of the bounds of a slice.
fn asks_bounds(alloc: Global, left: &Told, right: &Told) -> Result<Items<Fault>, AllocError>
    ensures { IfOk result (λ faults. faults ≡
        faults_spec.asks base.Integer left.now ++ faults_spec.asks base.Integer right.now) }
{
    let faults = asks(alloc, BaseType::Integer, left)?;
    append(faults, asks(alloc, BaseType::Integer, right)?)
}

/// What the name of a slice of an object tells, or that of an object that is no array.
#[tactic(auto, unfolding(crate::specs::Names::slice_named))]
fn slice_named(
    alloc: Global,
    object: ObjectName,
    is_array: bool,
    left: &Told,
    right: &Told,
    name: NameTold,
) -> Result<NameTold, AllocError>
    ensures { IfOk result (λ named. named ≡
        spec.slice_named object is_array left.now right.now name) }
{
    let is_static = left.is_static && right.is_static;
    if is_array {
        let slice = Denotes::Object(part_of(object, object.base, is_static));
        with_typing(asks_bounds(alloc, left, right)?, with_denoted(slice, name))
    } else {
        let slice = Denotes::Object(part_of(object, None, is_static));
        Ok(misfits(slice, name))
    }
}

#[tactic(auto, unfolding(crate::specs::Names::sliced_as))]
fn sliced_as(
    alloc: Global,
    denotes: Denotes,
    left: &Told,
    right: &Told,
    name: NameTold,
) -> Result<NameTold, AllocError>
    ensures { IfOk result (λ named. named ≡ spec.sliced_as denotes left.now right.now name) }
{
    match denotes {
        Denotes::Unknown => Ok(name),
        Denotes::Object(object) => {
            let is_array = is_array_type(object.base);
            slice_named(alloc, object, is_array, left, right, name)
        }
        Denotes::Value | Denotes::Now => Ok(misfits(Denotes::Value, name)),
        _ => wrong_kind(alloc, name),
    }
}

/// What a name tells that the bounds of a slice follow (8.5).
#[tactic(auto, unfolding(crate::specs::Names::sliced))]
pub(crate) fn sliced(
    alloc: Global,
    name: NameTold,
    left: &Told,
    right: &Told,
) -> Result<NameTold, AllocError>
    ensures { IfOk result (λ named. named ≡ spec.sliced name left.now right.now) }
{
    let denotes = name.denotes;
    let taken = takes(alloc, name, left)?;
    let taken = takes(alloc, taken, right)?;
    sliced_as(alloc, denotes, left, right, taken)
}
