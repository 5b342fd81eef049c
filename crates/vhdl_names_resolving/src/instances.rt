//! What instances mean.

ghost use Rattle.std.specs.Prelude.{◌≡◌, IfOk, None, Some, slice_get};
ghost use Rattle.vhdl_names_resolving.specs.Instances as spec;
ghost use Rattle.vhdl_names_scope.specs.Names.{word_in};

use crate::values::value_at;
use sqlite_items::Items;
use std::alloc::{AllocError, Global};
use vhdl_names_checker::{Interface, Surroundings, entity_for, formal_in, interface_or};
use vhdl_names_scope::{Region, word};
use vhdl_tokens::Token;
use vhdl_tree::{Actual, Association, Instantiation};
use vhdl_units::{BaseType, Object, ResolvedActual, ResolvedAssociation, ResolvedInstance};

// ---- formals

fn object_at(objects: &[Object], position: usize) -> Option<Object>
    ensures { result ≡ slice_get objects.now position }
{
    objects.get(position).copied()
}

// The formal of an association: the one that it names, or the one at its position.
#[tactic(auto, unfolding(crate::specs::Instances::formal_of))]
fn formal_of(
    alloc: Global,
    text: &[u8],
    of_generics: bool,
    formals: &Region,
    objects: &[Object],
    position: usize,
    formal: &Option<Token>,
) -> Result<Option<Object>, AllocError>
    ensures { IfOk result (λ v. v ≡ spec.formal_of text.now of_generics formals.now objects.now position formal.now) }
{
    match formal {
        None => Ok(object_at(objects, position)),
        Some(token) => {
            let name = word(alloc, text, token)?;
            Ok(formal_in(of_generics, formals.find(name.as_str()).entries()))
        }
    }
}

#[tactic(auto, unfolding(crate::specs::Instances::formal_type))]
fn formal_type(formal: Option<Object>) -> BaseType
    ensures { result ≡ spec.formal_type formal }
{
    match formal {
        Some(object) => object.base,
        None => BaseType::Integer,
    }
}

// ---- associations

#[tactic(auto, unfolding(crate::specs::Instances::actual_resolved))]
fn actual_resolved(
    alloc: Global,
    text: &[u8],
    around: &Surroundings,
    base: BaseType,
    actual: &Actual,
) -> Result<ResolvedActual, AllocError>
    ensures { IfOk result (λ v. v ≡ spec.actual_resolved text.now around.now base actual.now) }
{
    match actual {
        Actual::Expr(expr) => {
            let value = value_at(alloc, text, around, base, expr)?;
            Ok(ResolvedActual::Value(value))
        }
        Actual::Open(_) => Ok(ResolvedActual::Open),
    }
}

#[tactic(auto, unfolding(crate::specs::Instances::association_to))]
fn association_to(
    alloc: Global,
    text: &[u8],
    around: &Surroundings,
    formal: Option<Object>,
    actual: &Actual,
) -> Result<ResolvedAssociation, AllocError>
    ensures { IfOk result (λ v. v ≡ spec.association_to text.now around.now formal actual.now) }
{
    let actual = actual_resolved(alloc, text, around, formal_type(formal), actual)?;
    Ok(ResolvedAssociation { formal, actual })
}

#[tactic(auto, unfolding(crate::specs::Instances::association_resolved))]
fn association_resolved(
    alloc: Global,
    text: &[u8],
    around: &Surroundings,
    of_generics: bool,
    formals: &Region,
    objects: &[Object],
    position: usize,
    association: &Association,
) -> Result<ResolvedAssociation, AllocError>
    ensures { IfOk result (λ v. v ≡ spec.association_resolved text.now around.now of_generics formals.now objects.now position association.now) }
{
    let formal = formal_of(
        alloc,
        text,
        of_generics,
        formals,
        objects,
        position,
        &association.formal,
    )?;
    association_to(alloc, text, around, formal, &association.actual)
}

#[tactic(auto, unfolding(crate::specs::Instances::associations_from))]
fn associations_resolved(
    alloc: Global,
    text: &[u8],
    around: &Surroundings,
    of_generics: bool,
    formals: &Region,
    objects: &[Object],
    associations: &[Association],
) -> Result<Items<ResolvedAssociation>, AllocError>
    ensures { IfOk result (λ v. v ≡ spec.associations_from text.now around.now of_generics formals.now objects.now 0 associations.now) }
{
    let mut resolved = Items::new(alloc);
    for (position, association) in associations.iter().enumerate() {
        resolved.push(association_resolved(
            alloc,
            text,
            around,
            of_generics,
            formals,
            objects,
            position,
            association,
        )?)?;
    }
    Ok(resolved)
}

// ---- instances

fn bytes_of_word(alloc: Global, text: &[u8], token: &Token) -> Result<Items<u8>, AllocError>
    ensures { IfOk result (λ v. v ≡ word_in text.now token.now) }
{
    let name = word(alloc, text, token)?;
    Items::from_slice(alloc, name.as_bytes())
}

#[tactic(auto, unfolding(crate::specs::Instances::architecture_word))]
fn architecture_word(
    alloc: Global,
    text: &[u8],
    architecture: &Option<Token>,
) -> Result<Option<Items<u8>>, AllocError>
    ensures { IfOk result (λ v. v ≡ spec.architecture_word text.now architecture.now) }
{
    match architecture {
        None => Ok(None),
        Some(token) => Ok(Some(bytes_of_word(alloc, text, token)?)),
    }
}

#[tactic(auto, unfolding(crate::specs::Instances::instance_to))]
fn instance_to(
    alloc: Global,
    text: &[u8],
    around: &Surroundings,
    number: Option<usize>,
    interface: &Interface,
    instance: &Instantiation,
) -> Result<ResolvedInstance, AllocError>
    ensures { IfOk result (λ v. v ≡ spec.instance_to text.now around.now number interface.now instance.now) }
{
    let architecture = architecture_word(alloc, text, &instance.architecture)?;
    let formals = &interface.formals;
    let generics = associations_resolved(
        alloc,
        text,
        around,
        true,
        formals,
        interface.generics.as_slice(),
        instance.generics.as_slice(),
    )?;
    let ports = associations_resolved(
        alloc,
        text,
        around,
        false,
        formals,
        interface.ports.as_slice(),
        instance.ports.as_slice(),
    )?;
    Ok(ResolvedInstance {
        entity: number,
        architecture,
        generics,
        ports,
    })
}

// An instance of the entity of a number.
#[tactic(auto, unfolding(crate::specs::Instances::instance_by, crate::specs::Instances::interface_of, vhdl_names_checker::specs::Faults::interface_at))]
fn instance_of_entity(
    alloc: Global,
    text: &[u8],
    around: &Surroundings,
    number: usize,
    instance: &Instantiation,
) -> Result<ResolvedInstance, AllocError>
    ensures { IfOk result (λ v. v ≡ spec.instance_by text.now around.now (Some number) instance.now) }
{
    let none = Interface::new(alloc);
    let interface = interface_or(around.interfaces(), number, &none);
    instance_to(alloc, text, around, Some(number), interface, instance)
}

// An instance of an entity that isn't known.
#[tactic(auto, unfolding(crate::specs::Instances::instance_by, crate::specs::Instances::interface_of))]
fn instance_of_none(
    alloc: Global,
    text: &[u8],
    around: &Surroundings,
    instance: &Instantiation,
) -> Result<ResolvedInstance, AllocError>
    ensures { IfOk result (λ v. v ≡ spec.instance_by text.now around.now None instance.now) }
{
    let none = Interface::new(alloc);
    instance_to(alloc, text, around, None, &none, instance)
}

fn instance_by(
    alloc: Global,
    text: &[u8],
    around: &Surroundings,
    number: Option<usize>,
    instance: &Instantiation,
) -> Result<ResolvedInstance, AllocError>
    ensures { IfOk result (λ v. v ≡ spec.instance_by text.now around.now number instance.now) }
{
    match number {
        Some(number) => instance_of_entity(alloc, text, around, number, instance),
        None => instance_of_none(alloc, text, around, instance),
    }
}

/// Which entity an instance is of, and what its generics and ports stand for (6.5.7, 11.7).
#[tactic(auto, unfolding(crate::specs::Instances::instance_resolved))]
pub fn instance_resolved(
    alloc: Global,
    text: &[u8],
    around: &Surroundings,
    instance: &Instantiation,
) -> Result<ResolvedInstance, AllocError>
    ensures { IfOk result (λ v. v ≡ spec.instance_resolved text.now around.now instance.now) }
{
    let number = entity_for(alloc, text, instance, around)?;
    instance_by(alloc, text, around, number, instance)
}
