//! What a part of a name changes in what the name tells.

ghost use Rattle.std.specs.Prelude.{◌≡◌, [], ◌∷◌, IfOk};
ghost use Rattle.vhdl_names_typing.specs.Faults.{typing_of};
ghost use Rattle.vhdl_names_typing.specs.Names as spec;

use crate::faults::{append, at, without_bounds};
use crate::told::{Denotes, NameTold, Told};
use sqlite_items::Items;
use std::alloc::{AllocError, Global};
use vhdl_names_overloads::Types;
use vhdl_units::{BaseType, Fault, Rule};

/// What a name tells that is of the wrong kind for what follows it, or for its place.
#[tactic(auto, unfolding(crate::specs::Names::wrong_kind))]
pub(crate) fn wrong_kind(alloc: Global, mut name: NameTold) -> Result<NameTold, AllocError>
    ensures { IfOk result (λ told. told ≡ spec.wrong_kind name) }
{
    let fault = at(alloc, name.place, Rule::WrongKind)?;
    name.names.append(fault)?;
    name.becomes(Denotes::Unknown, Types::new());
    Ok(name)
}

/// What a name tells with an attribute that its prefix hasn't (16.2).
#[tactic(auto, unfolding(crate::specs::Names::has_no_such))]
pub(crate) fn has_no_such(
    alloc: Global,
    place: u32,
    mut name: NameTold,
) -> Result<NameTold, AllocError>
    ensures { IfOk result (λ told. told ≡ spec.has_no_such place name) }
{
    let fault = at(alloc, place, Rule::Attribute)?;
    name.names.append(fault)?;
    name.becomes(Denotes::Unknown, Types::new());
    Ok(name)
}

/// What a name tells with an index or slice on what is no array.
#[tactic(auto, unfolding(crate::specs::Names::misfits))]
pub(crate) fn misfits(denotes: Denotes, mut name: NameTold) -> NameTold
    ensures { result ≡ spec.misfits denotes name }
{
    name.becomes(denotes, Types::new());
    name.is_misfit = true;
    name
}

#[tactic(auto, unfolding(crate::specs::Names::becomes_value))]
pub(crate) fn becomes_value(types: Types, mut name: NameTold) -> NameTold
    ensures { result ≡ spec.becomes_value types name }
{
    name.becomes(Denotes::Value, types);
    name.is_static = false;
    name
}

/// What a name tells that denotes a value of one type, as that of a function.
pub(crate) fn gives(alloc: Global, base: BaseType, name: NameTold) -> Result<NameTold, AllocError>
    ensures { IfOk result (λ told. told ≡ spec.becomes_value (base ∷ []) name) }
{
    let types = Types::one(alloc, base)?;
    Ok(becomes_value(types, name))
}

#[tactic(auto, unfolding(crate::specs::Names::with_denoted))]
pub(crate) fn with_denoted(denotes: Denotes, mut name: NameTold) -> NameTold
    ensures { result ≡ spec.with_denoted denotes name }
{
    name.denotes = denotes;
    name
}

#[tactic(auto, unfolding(crate::specs::Names::with_typing))]
pub(crate) fn with_typing(faults: Items<Fault>, mut name: NameTold) -> Result<NameTold, AllocError>
    ensures { IfOk result (λ told. told ≡ spec.with_typing faults name) }
{
    name.typing.append(faults)?;
    Ok(name)
}

#[tactic(auto, unfolding(crate::specs::Names::with_names))]
pub(crate) fn with_names(faults: Items<Fault>, mut name: NameTold) -> Result<NameTold, AllocError>
    ensures { IfOk result (λ told. told ≡ spec.with_names faults name) }
{
    name.names.append(faults)?;
    Ok(name)
}

/// The faults of types, aggregates and numbers in an index, a bound or an argument.
#[tactic(auto, unfolding(crate::specs::Faults::typing_of))]
fn typing_in(alloc: Global, told: &Told) -> Result<Items<Fault>, AllocError>
    ensures { IfOk result (λ faults. faults ≡ typing_of told.now) }
{
    let faults = Items::from_slice(alloc, told.typing.as_slice())?;
    append(faults, without_bounds(alloc, told)?)
}

/// What a name tells with the faults of an index, a bound of a slice or an argument. They are copied, since
/// what is asked of it is still to be tested.
#[tactic(auto, unfolding(crate::specs::Names::takes))]
pub(crate) fn takes(alloc: Global, mut name: NameTold, told: &Told) -> Result<NameTold, AllocError>
    ensures { IfOk result (λ taken. taken ≡ spec.takes name told.now) }
{
    name.names
        .append(Items::from_slice(alloc, told.names.as_slice())?)?;
    name.typing.append(typing_in(alloc, told)?)?;
    name.is_static = name.is_static && told.is_static;
    name.reads = name.reads || told.reads;
    Ok(name)
}
