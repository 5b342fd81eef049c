//! Declarations of objects and subtypes (6.3 to 6.5).

ghost use Rattle.std.specs.Prelude.{◌≡◌, ◌++◌, IfOk, if◌then◌else◌, []};
ghost use Rattle.std.specs.List.{flat_map};
ghost use Rattle.vhdl_names_typing.specs.Faults as faults_spec;
ghost use Rattle.vhdl_names_rules.specs.Objects as spec;
ghost use Rattle.vhdl_names_rules.specs.Values as values_spec;

use crate::told::{ObjectsTold, SubtypeTold};
use crate::values::valued;
use sqlite_items::Items;
use std::alloc::{AllocError, Global};
use vhdl_names_typing::{Told, append, at, is_known};
use vhdl_tokens::Token;
use vhdl_units::{BaseType, Fault, Mark, Rule};

/// Whether no name in an expression, that may be left out, breaks a rule.
#[tactic(auto, unfolding(crate::specs::Values::optional_names, vhdl_names_typing::specs::Faults::is_known))]
fn is_known_value(told: &Option<Told>) -> bool
    ensures { result ≡ faults_spec.is_known (values_spec.optional_names told.now) }
{
    match told {
        Some(told) => is_known(told.names.as_slice()),
        None => true,
    }
}

/// Whether no name in a declaration breaks a rule.
#[tactic(auto, unfolding(crate::specs::Objects::all_names), using(crate::proofs::Known::known_both))]
fn is_known_throughout(told: &ObjectsTold) -> bool
    ensures { result ≡ faults_spec.is_known (spec.all_names told.now) }
{
    is_known(told.subtype.names.as_slice()) && is_known_value(&told.initial)
}

#[tactic(auto, unfolding(crate::specs::Objects::mark_type))]
fn mark_type(mark: Option<Mark>) -> Option<BaseType>
    ensures { result ≡ spec.mark_type mark }
{
    match mark {
        Some(mark) => Some(mark.base),
        None => None,
    }
}

/// The faults of the value at the beginning, of an object of this subtype.
#[tactic(auto, unfolding(crate::specs::Objects::initial_value))]
fn initial_value(
    alloc: Global,
    mark: Option<Mark>,
    initial: Option<Told>,
) -> Result<Items<Fault>, AllocError>
    ensures { IfOk result (λ faults. faults ≡ spec.initial_value mark initial) }
{
    match initial {
        Some(told) => valued(alloc, mark_type(mark), true, told),
        None => Ok(Items::new(alloc)),
    }
}

/// The fault of a value at the beginning that reads a signal or variable.
#[tactic(auto, unfolding(crate::specs::Objects::initial_reads))]
fn initial_reads(alloc: Global, initial: &Option<Told>) -> Result<Items<Fault>, AllocError>
    ensures { IfOk result (λ faults. faults ≡ spec.initial_reads initial.now) }
{
    match initial {
        Some(told) if told.reads => at(alloc, told.place, Rule::ReadsObject),
        _ => Ok(Items::new(alloc)),
    }
}

/// Whether a subtype is an array type without bounds (5.3.2.2).
#[tactic(auto, unfolding(crate::specs::Objects::is_unbounded))]
fn is_unbounded(mark: Option<Mark>) -> bool
    ensures { result ≡ spec.is_unbounded mark }
{
    match mark {
        Some(mark) => mark.base.is_array() && !mark.bounded,
        None => false,
    }
}

/// The fault of an object without bounds.
#[tactic(auto, unfolding(crate::specs::Objects::unbounded))]
fn unbounded(alloc: Global, name: &Token) -> Result<Items<Fault>, AllocError>
    ensures { IfOk result (λ faults. faults ≡ spec.unbounded name.now) }
{
    at(alloc, name.start, Rule::Unbounded)
}

/// The faults of objects without bounds.
fn all_unbounded(alloc: Global, names: &[Token]) -> Result<Items<Fault>, AllocError>
    ensures { IfOk result (λ faults. faults ≡ flat_map spec.unbounded names.now) }
{
    let mut faults = Items::new(alloc);
    for name in names {
        faults.append(unbounded(alloc, name)?)?;
    }
    Ok(faults)
}

/// The faults of objects of an array type without bounds, one for each of their names (5.3.2.2).
#[tactic(auto, unfolding(crate::specs::Objects::unbounded_names))]
fn unbounded_names(
    alloc: Global,
    mark: Option<Mark>,
    names: &[Token],
) -> Result<Items<Fault>, AllocError>
    ensures { IfOk result (λ faults. faults ≡ spec.unbounded_names mark names.now) }
{
    if is_unbounded(mark) {
        all_unbounded(alloc, names)
    } else {
        Ok(Items::new(alloc))
    }
}

/// What is tested where no name in the declaration breaks a rule: the faults of the constraint, which are
/// moved, those of objects without bounds, and those of what is read at the beginning.
fn known_faults(
    alloc: Global,
    constraint: Items<Fault>,
    mark: Option<Mark>,
    initial: &Option<Told>,
    names: &[Token],
) -> Result<Items<Fault>, AllocError>
    ensures { IfOk result (λ faults. faults ≡
        constraint ++ (spec.unbounded_names mark names.now ++ spec.initial_reads initial.now)) }
{
    let unbounded = unbounded_names(alloc, mark, names)?;
    let found = append(unbounded, initial_reads(alloc, initial)?)?;
    append(constraint, found)
}

/// The faults where all names are known, and none otherwise.
fn if_known(alloc: Global, known: bool, faults: Items<Fault>) -> Items<Fault>
    ensures { result ≡ (if known then faults else []) }
{
    if known { faults } else { Items::new(alloc) }
}

/// The faults of a declaration of objects, which have the names `names` (6.4.2, 6.5.2).
#[tactic(auto, unfolding(crate::specs::Objects::objects_faults, crate::specs::Objects::known_faults, crate::specs::Objects::if_known))]
pub fn objects_faults(
    alloc: Global,
    told: ObjectsTold,
    names: &[Token],
) -> Result<Items<Fault>, AllocError>
    ensures { IfOk result (λ faults. faults ≡ spec.objects_faults told names.now) }
{
    let known = is_known_throughout(&told);
    let ObjectsTold { subtype, initial } = told;
    let mark = subtype.mark;
    let (own, typing, constraint) = subtype.into_faults();
    let found = known_faults(alloc, constraint, mark, &initial, names)?;
    let found = if_known(alloc, known, found);
    let found = append(initial_value(alloc, mark, initial)?, found)?;
    append(own, append(typing, found)?)
}

/// The faults of the declaration of a subtype (6.3).
#[tactic(auto, unfolding(crate::specs::Objects::subtype_faults, crate::specs::Objects::if_known))]
pub fn subtype_faults(alloc: Global, told: SubtypeTold) -> Result<Items<Fault>, AllocError>
    ensures { IfOk result (λ faults. faults ≡ spec.subtype_faults told) }
{
    let known = is_known(told.names.as_slice());
    let (names, typing, constraint) = told.into_faults();
    let found = if_known(alloc, known, constraint);
    append(names, append(typing, found)?)
}
