//! Instances of entities.

ghost use Rattle.std.specs.Prelude.{◌≡◌, IfOk, map, slice_index_or};
ghost use Rattle.vhdl_names_checker.specs.Faults as spec;
ghost use Rattle.vhdl_names_checker.specs.Telling as telling;

use crate::entities::{entity_number, is_declared};
use crate::interface::Interface;
use crate::surroundings::{Surroundings, architecture_key};
use crate::telling::expression;
use sqlite_items::Items;
use std::alloc::{AllocError, Global};
use vhdl_names_rules::{ActualTold, AssociationTold, FormalTold, is_word, map_faults};
use vhdl_names_scope::{Region, word};
use vhdl_names_typing::{append, at};
use vhdl_tokens::Token;
use vhdl_tree::{Actual, Association, Instantiation};
use vhdl_units::{Class, Entry, Fault, Object, Rule};

// ---- what the associations tell

#[tactic(auto, unfolding(crate::specs::Telling::is_formal, vhdl_names_rules::specs::Associations::is_generic))]
fn is_formal(of_generics: bool, object: Object) -> bool
    ensures { result ≡ telling.is_formal of_generics object }
{
    match (of_generics, object.class) {
        (true, Class::Generic) => true,
        (true, _) => false,
        (false, Class::Generic) => false,
        (false, _) => true,
    }
}

/// The generic of a generic map, or the port of a port map, that its name denotes by what its entity declares
/// that name to be. There is none where it is of another kind (6.5.7).
#[tactic(auto, unfolding(crate::specs::Telling::formal_in))]
pub fn formal_in(of_generics: bool, entries: &[Entry]) -> Option<Object>
    ensures { result ≡ telling.formal_in of_generics entries.now }
{
    match entries {
        [Entry::Object(object), ..] => {
            if is_formal(of_generics, *object) {
                Some(*object)
            } else {
                None
            }
        }
        _ => None,
    }
}

#[tactic(auto, unfolding(crate::specs::Telling::formal_here))]
fn formal_here(
    alloc: Global,
    text: &[u8],
    around: &Surroundings,
    of_generics: bool,
    formals: &Region,
    formal: &Option<Token>,
) -> Result<FormalTold, AllocError>
    ensures { IfOk result (λ told. told ≡ telling.formal_here text.now around.now of_generics formals.now formal.now) }
{
    match formal {
        None => Ok(FormalTold::Positional),
        Some(token) => {
            let name = word(alloc, text, token)?;
            let object = formal_in(of_generics, formals.find(name.as_str()).entries());
            Ok(FormalTold::Named(token.start, object))
        }
    }
}

#[tactic(auto, unfolding(crate::specs::Telling::actual_here))]
fn actual_here(
    alloc: Global,
    text: &[u8],
    around: &Surroundings,
    actual: &Actual,
) -> Result<ActualTold, AllocError>
    ensures { IfOk result (λ told. told ≡ telling.actual_here text.now around.now actual.now) }
{
    match actual {
        Actual::Expr(expr) => Ok(ActualTold::Value(expression(alloc, text, around, expr)?)),
        Actual::Open(token) => Ok(ActualTold::Open(token.start)),
    }
}

#[tactic(auto, unfolding(crate::specs::Telling::association_here))]
fn association_here(
    alloc: Global,
    text: &[u8],
    around: &Surroundings,
    of_generics: bool,
    formals: &Region,
    association: &Association,
) -> Result<AssociationTold, AllocError>
    ensures { IfOk result (λ told. told ≡ telling.association_here text.now around.now of_generics formals.now association.now) }
{
    let formal = formal_here(
        alloc,
        text,
        around,
        of_generics,
        formals,
        &association.formal,
    )?;
    let actual = actual_here(alloc, text, around, &association.actual)?;
    Ok(AssociationTold { formal, actual })
}

#[tactic(auto, unfolding(crate::specs::Telling::associations_here))]
fn associations_here(
    alloc: Global,
    text: &[u8],
    around: &Surroundings,
    of_generics: bool,
    formals: &Region,
    associations: &[Association],
) -> Result<Items<AssociationTold>, AllocError>
    ensures { IfOk result (λ told. told ≡ telling.associations_here text.now around.now of_generics formals.now associations.now) }
{
    let mut told = Items::new(alloc);
    for association in associations {
        told.push(association_here(alloc, text, around, of_generics, formals, association)?)?;
    }
    Ok(told)
}

// ---- the rules

#[tactic(auto, unfolding(crate::specs::Faults::is_work))]
fn is_work(text: &[u8], library: &Option<Token>) -> bool
    ensures { result ≡ spec.is_work text.now library.now }
{
    match library {
        None => true,
        Some(token) => is_word(text, token, b"work"),
    }
}

/// The number of the entity that an instance names, from 0, if it stands before (11.7).
#[tactic(auto, unfolding(crate::specs::Faults::entity_for))]
pub fn entity_for(
    alloc: Global,
    text: &[u8],
    instance: &Instantiation,
    around: &Surroundings,
) -> Result<Option<usize>, AllocError>
    ensures { IfOk result (λ number. number ≡ spec.entity_for text.now instance.now around.now) }
{
    let name = word(alloc, text, &instance.entity)?;
    if is_work(text, &instance.library) {
        Ok(entity_number(name.as_str(), around))
    } else {
        Ok(None)
    }
}

/// The generics and ports of the entity of a number, or else these.
pub fn interface_or<'a>(
    interfaces: &'a [Interface],
    number: usize,
    otherwise: &'a Interface,
) -> &'a Interface
    ensures { result.now ≡ slice_index_or interfaces.now number otherwise.now }
{
    match interfaces.get(number) {
        Some(interface) => interface,
        None => otherwise,
    }
}

#[tactic(auto, unfolding(crate::specs::Faults::architecture_missing))]
fn architecture_missing(
    alloc: Global,
    text: &[u8],
    file: &Region,
    entity: &str,
    architecture: &Option<Token>,
) -> Result<Items<Fault>, AllocError>
    ensures { IfOk result (λ faults. faults ≡ spec.architecture_missing text.now file.now entity.now architecture.now) }
{
    match architecture {
        None => Ok(Items::new(alloc)),
        Some(token) => {
            let name = word(alloc, text, token)?;
            let key = architecture_key(alloc, entity, name.as_str())?;
            if is_declared(key.as_str(), file) {
                Ok(Items::new(alloc))
            } else {
                at(alloc, token.start, Rule::UnitMissing)
            }
        }
    }
}

#[tactic(auto, unfolding(crate::specs::Faults::maps_faults))]
fn maps_faults(
    alloc: Global,
    text: &[u8],
    around: &Surroundings,
    interface: &Interface,
    instance: &Instantiation,
) -> Result<Items<Fault>, AllocError>
    ensures { IfOk result (λ faults. faults ≡ spec.maps_faults text.now around.now interface.now instance.now) }
{
    let formals = &interface.formals;
    let generics = instance.generics.as_slice();
    let generics = associations_here(alloc, text, around, true, formals, generics)?;
    let faults = map_faults(alloc, interface.generics.as_slice(), generics)?;
    let ports = instance.ports.as_slice();
    let ports = associations_here(alloc, text, around, false, formals, ports)?;
    append(
        faults,
        map_faults(alloc, interface.ports.as_slice(), ports)?,
    )
}

// The faults of an instance of the entity of a number.
#[tactic(auto, unfolding(crate::specs::Faults::instance_of, crate::specs::Faults::interface_at))]
fn instance_of_entity(
    alloc: Global,
    text: &[u8],
    file: &Region,
    around: &Surroundings,
    instance: &Instantiation,
    number: usize,
) -> Result<Items<Fault>, AllocError>
    ensures { IfOk result (λ faults. faults ≡ spec.instance_of text.now file.now around.now instance.now (Some number)) }
{
    let name = word(alloc, text, &instance.entity)?;
    let missing = architecture_missing(alloc, text, file, name.as_str(), &instance.architecture)?;
    let none = Interface::new(alloc);
    let interface = interface_or(around.interfaces(), number, &none);
    append(
        missing,
        maps_faults(alloc, text, around, interface, instance)?,
    )
}

#[tactic(auto, unfolding(crate::specs::Faults::instance_of))]
fn instance_of(
    alloc: Global,
    text: &[u8],
    file: &Region,
    around: &Surroundings,
    instance: &Instantiation,
    number: Option<usize>,
) -> Result<Items<Fault>, AllocError>
    ensures { IfOk result (λ faults. faults ≡ spec.instance_of text.now file.now around.now instance.now number) }
{
    match number {
        None => at(alloc, instance.entity.start, Rule::UnitMissing),
        Some(number) => instance_of_entity(alloc, text, file, around, instance, number),
    }
}

/// The faults of an instance: there is no such unit, or its maps don't fit the entity's generics and ports
/// (6.5.6, 6.5.7, 11.7).
#[tactic(auto, unfolding(crate::specs::Faults::instance_faults))]
pub fn instance_faults(
    alloc: Global,
    text: &[u8],
    file: &Region,
    around: &Surroundings,
    instance: &Instantiation,
) -> Result<Items<Fault>, AllocError>
    ensures { IfOk result (λ faults. faults ≡ spec.instance_faults text.now file.now around.now instance.now) }
{
    let number = entity_for(alloc, text, instance, around)?;
    instance_of(alloc, text, file, around, instance, number)
}
