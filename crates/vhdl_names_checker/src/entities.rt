//! Entities and architectures: whether one stands before, and what changes where one begins and ends.

ghost use Rattle.std.specs.Prelude.{◌≡◌, IfOk, OnOk};
ghost use Rattle.vhdl_names_scope.specs.Names.{word_in};
ghost use Rattle.vhdl_names_checker.specs.After as after;
ghost use Rattle.vhdl_names_checker.specs.Faults as spec;

use crate::surroundings::{Surroundings, architecture_key};
use sqlite_items::Items;
use std::alloc::{AllocError, Global};
use vhdl_names_scope::{Region, word};
use vhdl_names_typing::{append, at};
use vhdl_tokens::Token;
use vhdl_units::{Entry, Fault, Rule};

#[tactic(auto, unfolding(crate::specs::After::unit_number))]
fn unit_number(entries: &[Entry]) -> Option<usize>
    ensures { result ≡ after.unit_number entries.now }
{
    match entries {
        [Entry::Label(number), ..] => Some(*number),
        _ => None,
    }
}

/// The number of the entity of this name, if it stands before.
#[tactic(auto, unfolding(crate::specs::After::entity_number))]
pub fn entity_number(name: &str, around: &Surroundings) -> Option<usize>
    ensures { result ≡ after.entity_number name.now around.now }
{
    unit_number(around.library().find(name).entries())
}

/// Whether a region declares a name.
#[tactic(auto, unfolding(crate::specs::Faults::is_declared))]
pub fn is_declared(name: &str, region: &Region) -> bool
    ensures { result ≡ spec.is_declared name.now region.now }
{
    !region.find(name).is_empty()
}

// The fault of a unit whose name is that of one before it (13.1).
#[tactic(auto, unfolding(crate::specs::Faults::unit_twice))]
fn unit_twice(
    alloc: Global,
    name: &str,
    place: u32,
    around: &Surroundings,
) -> Result<Items<Fault>, AllocError>
    ensures { IfOk result (λ faults. faults ≡ spec.unit_twice name.now place around.now) }
{
    if is_declared(name, around.library()) {
        at(alloc, place, Rule::UnitTwice)
    } else {
        Ok(Items::new(alloc))
    }
}

/// The faults of an entity (13.1).
pub fn entity_faults(
    alloc: Global,
    text: &[u8],
    name: &Token,
    around: &Surroundings,
) -> Result<Items<Fault>, AllocError>
    ensures { IfOk result (λ faults. faults ≡ spec.unit_twice (word_in text.now name.now) name.now.start around.now) }
{
    let spelled = word(alloc, text, name)?;
    unit_twice(alloc, spelled.as_str(), name.start, around)
}

#[tactic(auto, unfolding(crate::specs::Faults::entity_missing))]
fn entity_missing(
    alloc: Global,
    name: &str,
    place: u32,
    around: &Surroundings,
) -> Result<Items<Fault>, AllocError>
    ensures { IfOk result (λ faults. faults ≡ spec.entity_missing name.now place around.now) }
{
    if entity_number(name, around).is_some() {
        Ok(Items::new(alloc))
    } else {
        at(alloc, place, Rule::EntityMissing)
    }
}

// The fault of an architecture that stands before, of the entity of this name.
fn architecture_twice(
    alloc: Global,
    text: &[u8],
    name: &Token,
    entity_name: &str,
    around: &Surroundings,
) -> Result<Items<Fault>, AllocError>
    ensures { IfOk result (λ faults. faults ≡
        spec.unit_twice (after.architecture_key entity_name.now (word_in text.now name.now)) name.now.start around.now) }
{
    let spelled = word(alloc, text, name)?;
    let key = architecture_key(alloc, entity_name, spelled.as_str())?;
    unit_twice(alloc, key.as_str(), name.start, around)
}

/// The faults of an architecture: its entity doesn't stand before it, or it stands there already (3.3, 13.1).
#[tactic(auto, unfolding(crate::specs::Faults::architecture_faults))]
pub fn architecture_faults(
    alloc: Global,
    text: &[u8],
    name: &Token,
    entity: &Token,
    around: &Surroundings,
) -> Result<Items<Fault>, AllocError>
    ensures { IfOk result (λ faults. faults ≡ spec.architecture_faults text.now name.now entity.now around.now) }
{
    let entity_name = word(alloc, text, entity)?;
    let missing = entity_missing(alloc, entity_name.as_str(), entity.start, around)?;
    append(
        missing,
        architecture_twice(alloc, text, name, entity_name.as_str(), around)?,
    )
}

/// An entity ends (3.2).
pub fn end_entity(
    around: &mut Surroundings,
    alloc: Global,
    text: &[u8],
    name: &Token,
) -> Result<(), AllocError>
    ensures { OnOk result (around.new ≡ after.entity_ended (word_in text.now name.now) around.old) }
{
    let spelled = word(alloc, text, name)?;
    around.end_entity(alloc, spelled)?;
    Ok(())
}

/// An architecture begins (3.3).
#[tactic(auto, unfolding(crate::specs::After::architecture_begun))]
pub fn begin_architecture(
    around: &mut Surroundings,
    alloc: Global,
    text: &[u8],
    name: &Token,
    entity: &Token,
    is_bare: bool,
) -> Result<(), AllocError>
    ensures { OnOk result (around.new ≡ after.architecture_begun (word_in text.now entity.now) (word_in text.now name.now) is_bare around.old) }
{
    let entity_name = word(alloc, text, entity)?;
    let spelled = word(alloc, text, name)?;
    let number = entity_number(entity_name.as_str(), around);
    around.begin_architecture(alloc, number, entity_name.as_str(), spelled, is_bare)?;
    Ok(())
}
