//! Generic and port maps (6.5.6, 6.5.7).

ghost use Rattle.std.specs.Prelude.{◌≡◌, ℕ, ◌+◌, List, [], if◌then◌else◌, min, length, slice_get, IfOk};
ghost use Rattle.vhdl_names_rules.specs.Associations as spec;
ghost use Rattle.vhdl_names_rules.specs.Associations.{Matching};
ghost use Rattle.vhdl_names_rules.specs.Kept.{HasNumbers, Keeps};
ghost use Rattle.vhdl_units.specs.declared.entry.Object.{Object};

use crate::order::reversed;
use crate::statements::is_static_signal;
use crate::told::{ActualTold, AssociationTold, FormalTold};
use crate::values::valued;
use sqlite_items::Items;
use std::alloc::{AllocError, Global};
use std::collections::BTreeSet;
use vhdl_names_typing::{Form, Told, append, break_if};
use vhdl_tree::Mode;
use vhdl_units::{Class, Fault, Object, Rule};

/// The formals that the associations so far have taken.
#[derive(Drop)]
struct Taken {
    /// How many formals come before the next positional one.
    position: usize,
    /// Whether one of the associations was named.
    is_named: bool,
    /// The numbers of the declarations of the formals that have an actual.
    used: BTreeSet<usize>,
}

fn none_taken(alloc: Global) -> Taken
    ensures { (formals : List Object) → Keeps formals result spec.unmatched }
{
    Taken {
        position: 0,
        is_named: false,
        used: BTreeSet::new(alloc),
    }
}

#[tactic(auto, unfolding(crate::specs::Associations::unless))]
fn unless(is_taken: bool, formal: Option<Object>) -> Option<Object>
    ensures { result ≡ spec.unless is_taken formal }
{
    if is_taken { None } else { formal }
}

/// The formal of a name, unless it has an actual.
#[tactic(auto, unfolding(crate::specs::Associations::unless_used))]
fn unless_used(used: &BTreeSet<usize>, formal: Option<Object>) -> Option<Object>
    ensures { (numbers : List ℕ) → HasNumbers used.now numbers → result ≡ spec.unless_used numbers formal }
{
    match formal {
        Some(object) => unless(used.contains(&object.number), formal),
        None => None,
    }
}

fn at_position(formals: &[Object], position: usize) -> Option<Object>
    ensures { result ≡ slice_get formals.now position }
{
    formals.get(position).copied()
}

/// The formal that an association is for. There is none for a positional one after a named one, for one more
/// than there are formals, and for a second one for the same formal (6.5.7.1).
#[tactic(auto, unfolding(crate::specs::Associations::formal_for))]
fn formal_for(taken: &Taken, formals: &[Object], told: FormalTold) -> Option<Object>
    ensures { (m : Matching) → Keeps formals.now taken.now m → result ≡ spec.formal_for formals.now m told }
{
    match told {
        FormalTold::Positional => unless(taken.is_named, at_position(formals, taken.position)),
        FormalTold::Named(_, formal) => unless_used(&taken.used, formal),
    }
}

#[tactic(auto, unfolding(crate::specs::Associations::is_named_formal))]
fn is_named_formal(told: FormalTold) -> bool
    ensures { result ≡ spec.is_named_formal told }
{
    match told {
        FormalTold::Named(_, _) => true,
        FormalTold::Positional => false,
    }
}

/// How many formals come before the next positional one.
fn next_position(position: usize, formals: &[Object], is_named: bool) -> usize
    ensures { (before : ℕ) → position ≡ min before (length formals.now)
        → result ≡ min (before + (if is_named then 0 else 1)) (length formals.now) }
{
    if !is_named && position < formals.len() {
        position + 1
    } else {
        position
    }
}

fn use_formal(
    mut used: BTreeSet<usize>,
    formal: Option<Object>,
) -> Result<BTreeSet<usize>, AllocError>
    ensures { IfOk result (λ more. (numbers : List ℕ) → HasNumbers used numbers → HasNumbers more (spec.used_with numbers formal)) }
{
    match formal {
        Some(object) => {
            used.insert(object.number)?;
            Ok(used)
        }
        None => Ok(used),
    }
}

/// What has been taken with one more association, which is for this formal.
#[tactic(auto, unfolding(crate::specs::Associations::matched))]
fn taken_with(
    taken: Taken,
    formals: &[Object],
    told: FormalTold,
    formal: Option<Object>,
) -> Result<Taken, AllocError>
    ensures { IfOk result (λ more. (m : Matching) → Keeps formals.now taken m → formal ≡ spec.formal_for formals.now m told
        → Keeps formals.now more (spec.matched formals.now m told)) }
{
    let is_named = is_named_formal(told);
    let used = use_formal(taken.used, formal)?;
    Ok(Taken {
        position: next_position(taken.position, formals, is_named),
        is_named: taken.is_named || is_named,
        used,
    })
}

/// The place of an actual, in bytes from 0.
#[tactic(auto, unfolding(crate::specs::Associations::actual_place))]
fn actual_place(actual: &ActualTold) -> u32
    ensures { result ≡ spec.actual_place actual.now }
{
    match actual {
        ActualTold::Value(told) => told.place,
        ActualTold::Open(place) => *place,
    }
}

/// The breaks in an actual of the rules of visibility, kinds and attributes.
#[tactic(auto, unfolding(crate::specs::Associations::actual_names))]
fn actual_names(alloc: Global, actual: ActualTold) -> Items<Fault>
    ensures { result ≡ spec.actual_names actual }
{
    match actual {
        ActualTold::Value(told) => {
            let (names, _typing) = told.into_faults();
            names
        }
        ActualTold::Open(_) => Items::new(alloc),
    }
}

/// The place of the formal's name, or of the actual where there is none, in bytes from 0.
#[tactic(auto, unfolding(crate::specs::Associations::formal_place, crate::specs::Associations::formal_place_of))]
fn formal_place(association: &AssociationTold) -> u32
    ensures { result ≡ spec.formal_place association.now }
{
    match association.formal {
        FormalTold::Named(place, _) => place,
        FormalTold::Positional => actual_place(&association.actual),
    }
}

/// The faults of an association for no formal. Of its actual the names alone are tested.
#[tactic(auto, unfolding(crate::specs::Associations::without_formal))]
fn without_formal(alloc: Global, association: AssociationTold) -> Result<Items<Fault>, AllocError>
    ensures { IfOk result (λ faults. faults ≡ spec.without_formal association) }
{
    let place = formal_place(&association);
    let names = actual_names(alloc, association.actual);
    let unmatched = break_if(alloc, true, names.as_slice(), place, Rule::Association)?;
    append(names, unmatched)
}

/// The faults of the actual of a generic (6.5.6.2).
#[tactic(auto, unfolding(crate::specs::Associations::generic_actual))]
fn generic_actual(alloc: Global, formal: Object, told: Told) -> Result<Items<Fault>, AllocError>
    ensures { IfOk result (λ faults. faults ≡ spec.generic_actual formal told) }
{
    let names = told.names.as_slice();
    let reads = break_if(alloc, told.reads, names, told.place, Rule::ReadsObject)?;
    append(valued(alloc, Some(formal.base), true, told)?, reads)
}

/// Whether an expression is the static name of a signal (8.1).
#[tactic(auto, unfolding(crate::specs::Associations::is_static_signal_name))]
fn is_static_signal_name(form: Form) -> bool
    ensures { result ≡ spec.is_static_signal_name form }
{
    match form {
        Form::Object(object) => is_static_signal(object),
        _ => false,
    }
}

/// Whether an expression can be the actual of a port: the static name of a signal or, for an in port, what is
/// globally static (6.5.6.3).
#[tactic(auto, unfolding(crate::specs::Associations::is_actual_for))]
fn is_actual_for(formal: Class, told: &Told) -> bool
    ensures { result ≡ spec.is_actual_for formal told.now }
{
    match formal {
        Class::Port(Mode::In) => is_static_signal_name(told.form) || told.is_static,
        _ => is_static_signal_name(told.form),
    }
}

/// Whether objects of a class can be actuals of ports of a class: what is only read isn't driven, and what is
/// only driven isn't read (6.5.6.3).
#[tactic(auto, unfolding(crate::specs::Associations::is_class_for))]
fn is_class_for(formal: Class, actual: Class) -> bool
    ensures { result ≡ spec.is_class_for formal actual }
{
    match (formal, actual) {
        (Class::Port(Mode::Out), Class::Port(Mode::In))
        | (Class::Port(Mode::Inout), Class::Port(Mode::In))
        | (Class::Port(Mode::Inout), Class::Port(Mode::Out)) => false,
        _ => true,
    }
}

#[tactic(auto, unfolding(crate::specs::Associations::is_mode_for))]
fn is_mode_for(formal: Class, form: Form) -> bool
    ensures { result ≡ spec.is_mode_for formal form }
{
    match form {
        Form::Object(object) => is_class_for(formal, object.object.class),
        _ => true,
    }
}

/// The faults of the actual of a port (6.5.6.3).
#[tactic(auto, unfolding(crate::specs::Associations::port_actual))]
fn port_actual(alloc: Global, formal: Object, told: Told) -> Result<Items<Fault>, AllocError>
    ensures { IfOk result (λ faults. faults ≡ spec.port_actual formal told) }
{
    let no_actual = !is_actual_for(formal.class, &told);
    let no_mode = !is_mode_for(formal.class, told.form);
    let names = told.names.as_slice();
    let actual = break_if(alloc, no_actual, names, told.place, Rule::Actual)?;
    let mode = break_if(alloc, no_mode, names, told.place, Rule::Mode)?;
    append(
        valued(alloc, Some(formal.base), true, told)?,
        append(actual, mode)?,
    )
}

#[tactic(auto, unfolding(crate::specs::Associations::is_generic))]
fn is_generic(class: Class) -> bool
    ensures { result ≡ spec.is_generic class }
{
    match class {
        Class::Generic => true,
        _ => false,
    }
}

#[tactic(auto, unfolding(crate::specs::Associations::value_for))]
fn value_for(alloc: Global, formal: Object, told: Told) -> Result<Items<Fault>, AllocError>
    ensures { IfOk result (λ faults. faults ≡ spec.value_for formal told) }
{
    if is_generic(formal.class) {
        generic_actual(alloc, formal, told)
    } else {
        port_actual(alloc, formal, told)
    }
}

#[tactic(auto, unfolding(crate::specs::Associations::actual_for))]
fn actual_for(alloc: Global, formal: Object, actual: ActualTold) -> Result<Items<Fault>, AllocError>
    ensures { IfOk result (λ faults. faults ≡ spec.actual_for formal actual) }
{
    match actual {
        ActualTold::Value(told) => value_for(alloc, formal, told),
        ActualTold::Open(_) => Ok(Items::new(alloc)),
    }
}

/// The faults of an association for this formal, if there is one for it.
#[tactic(auto, unfolding(crate::specs::Associations::association_for))]
fn association_for(
    alloc: Global,
    formal: Option<Object>,
    association: AssociationTold,
) -> Result<Items<Fault>, AllocError>
    ensures { IfOk result (λ faults. faults ≡ spec.association_for formal association) }
{
    match formal {
        Some(formal) => actual_for(alloc, formal, association.actual),
        None => without_formal(alloc, association),
    }
}

/// The faults of a generic or port map, by the generics or ports that it is for, in the order of their
/// declarations.
pub fn map_faults(
    alloc: Global,
    formals: &[Object],
    associations: Items<AssociationTold>,
) -> Result<Items<Fault>, AllocError>
    ensures { IfOk result (λ faults. faults ≡ spec.map_faults formals.now associations) }
{
    let mut rest = reversed(alloc, associations)?;
    let mut taken = none_taken(alloc);
    let mut faults = Items::new(alloc);
    while let Some(association) = rest.pop() {
        let told = association.formal;
        let formal = formal_for(&taken, formals, told);
        faults.append(association_for(alloc, formal, association)?)?;
        taken = taken_with(taken, formals, told, formal)?;
    }
    Ok(faults)
}
