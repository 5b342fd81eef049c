//! Case statements (10.9).

ghost use Rattle.std.specs.Prelude.{◌≡◌, IfOk, [], if◌then◌else◌, filter};
ghost use Rattle.std.specs.List.{flat_map};
ghost use Rattle.vhdl_names_operators.specs.Places.{only, passing_at};
ghost use Rattle.vhdl_units.specs.Faults as faults_spec;
ghost use Rattle.vhdl_units.specs.declared.fault.Rule.TheVariants as rule;
ghost use Rattle.vhdl_names_rules.specs.Cases as spec;

use crate::order::reversed;
use crate::values::{asked, told_and};
use sqlite_items::Items;
use std::alloc::{AllocError, Global};
use vhdl_names_overloads::Types;
use vhdl_names_typing::{ChoiceTold, Told, append, at, break_if};
use vhdl_units::{BaseType, Fault, Rule};

/// Whether a case statement can choose by values of a type: those of a discrete type, or of an array of
/// characters.
#[tactic(auto, unfolding(crate::specs::Cases::is_choosable))]
fn is_choosable(base: BaseType) -> bool
    ensures { result ≡ spec.is_choosable base }
{
    match base {
        BaseType::Time | BaseType::IntegerVector => false,
        _ => true,
    }
}

/// The type at a place, where a case statement can choose by its values.
#[tactic(auto, unfolding(vhdl_names_operators::specs::Places::passing_at, vhdl_names_operators::specs::Places::if_passes))]
fn choosable_at(types: &Types, place: usize) -> Option<BaseType>
    ensures { result ≡ passing_at spec.is_choosable types.now place }
{
    match types.get(place) {
        Some(base) => if is_choosable(base) { Some(base) } else { None },
        None => None,
    }
}

/// The type by whose values a case statement can choose, where exactly one of the types is such.
fn only_choosable(types: &Types) -> Option<BaseType>
    ensures { result ≡ only (filter spec.is_choosable types.now) }
{
    let mut chosen = None;
    for place in 0..types.len() {
        let next = choosable_at(types, place);
        if next.is_some() {
            if chosen.is_some() {
                return None;
            }
            chosen = next;
        }
    }
    chosen
}

/// The type by whose values a case statement chooses, where its expression can have exactly one such.
#[tactic(auto, unfolding(crate::specs::Cases::subject_type))]
pub fn subject_type(subject: &Told) -> Option<BaseType>
    ensures { result ≡ spec.subject_type subject.now }
{
    only_choosable(&subject.types)
}

/// The faults of the expression of a case statement.
#[tactic(auto, unfolding(crate::specs::Cases::subject_faults))]
pub fn subject_faults(alloc: Global, subject: Told) -> Result<Items<Fault>, AllocError>
    ensures { IfOk result (λ faults. faults ≡ spec.subject_faults subject) }
{
    let broken = subject_type(&subject).is_none();
    let names = subject.names.as_slice();
    let untyped = break_if(alloc, broken, names, subject.place, Rule::Type)?;
    told_and(alloc, subject, untyped)
}

/// The fault of a choice that isn't globally static.
#[tactic(auto, unfolding(crate::specs::Cases::unstatic_choice))]
fn unstatic_choice(alloc: Global, told: &Told) -> Result<Items<Fault>, AllocError>
    ensures { IfOk result (λ faults. faults ≡ spec.unstatic_choice told.now) }
{
    let names = told.names.as_slice();
    break_if(alloc, !told.is_static, names, told.place, Rule::CaseChoice)
}

#[tactic(auto, unfolding(crate::specs::Cases::chosen))]
fn chosen(alloc: Global, base: Option<BaseType>, told: Told) -> Result<Items<Fault>, AllocError>
    ensures { IfOk result (λ faults. faults ≡ spec.chosen base told) }
{
    let unstatic = unstatic_choice(alloc, &told)?;
    append(asked(alloc, base, told)?, unstatic)
}

/// Whether a choice can be a range, which is of a discrete type.
#[tactic(auto, unfolding(crate::specs::Cases::is_ranged))]
fn is_ranged(base: Option<BaseType>) -> bool
    ensures { result ≡ spec.is_ranged base }
{
    match base {
        Some(base) => base.is_discrete(),
        None => true,
    }
}

/// The faults of a bound of a choice that is a range.
#[tactic(auto, unfolding(crate::specs::Cases::bound_chosen))]
fn bound_chosen(
    alloc: Global,
    base: Option<BaseType>,
    told: Told,
) -> Result<Items<Fault>, AllocError>
    ensures { IfOk result (λ faults. faults ≡ spec.bound_chosen base told) }
{
    let broken = !is_ranged(base);
    let unranged = break_if(alloc, broken, told.names.as_slice(), told.place, Rule::Type)?;
    append(chosen(alloc, base, told)?, unranged)
}

/// The fault of `others` that isn't the last choice of its statement and the only one of its arm.
fn others_beside(alloc: Global, alone: bool, place: u32) -> Result<Items<Fault>, AllocError>
    ensures { IfOk result (λ faults. faults ≡ (if alone then [] else faults_spec.at place rule.CaseChoice)) }
{
    if alone {
        Ok(Items::new(alloc))
    } else {
        at(alloc, place, Rule::CaseChoice)
    }
}

/// The faults of a choice, which is the last of its statement and the only one of its arm for `alone`.
#[tactic(auto, unfolding(crate::specs::Cases::choice_faults))]
fn choice_faults(
    alloc: Global,
    base: Option<BaseType>,
    alone: bool,
    choice: ChoiceTold,
) -> Result<Items<Fault>, AllocError>
    ensures { IfOk result (λ faults. faults ≡ spec.choice_faults base alone choice) }
{
    match choice {
        ChoiceTold::Value(told) => chosen(alloc, base, told),
        ChoiceTold::Range(left, right) => {
            let left = bound_chosen(alloc, base, left)?;
            append(left, bound_chosen(alloc, base, right)?)
        }
        ChoiceTold::Others(place) => others_beside(alloc, alone, place),
    }
}

#[tactic(auto, unfolding(crate::specs::Cases::is_alone))]
fn is_alone(choices: &[ChoiceTold]) -> bool
    ensures { result ≡ spec.is_alone choices.now }
{
    choices.len() == 1
}

/// The faults of choices of one arm, each of which is the last of its statement and the only one of its arm
/// for `alone`.
fn choices_faults(
    alloc: Global,
    base: Option<BaseType>,
    alone: bool,
    choices: Items<ChoiceTold>,
) -> Result<Items<Fault>, AllocError>
    ensures { IfOk result (λ faults. faults ≡ flat_map (spec.choice_faults base alone) choices) }
{
    let mut rest = reversed(alloc, choices)?;
    let mut faults = Items::new(alloc);
    while let Some(choice) = rest.pop() {
        faults.append(choice_faults(alloc, base, alone, choice)?)?;
    }
    Ok(faults)
}

/// The faults of the choices of an arm, which is the last of its statement for `is_last`. `base` is the type
/// by whose values the statement chooses, if it is known.
#[tactic(auto, unfolding(crate::specs::Cases::arm_faults))]
pub fn arm_faults(
    alloc: Global,
    base: Option<BaseType>,
    is_last: bool,
    choices: Items<ChoiceTold>,
) -> Result<Items<Fault>, AllocError>
    ensures { IfOk result (λ faults. faults ≡ spec.arm_faults base is_last choices) }
{
    let alone = is_last && is_alone(choices.as_slice());
    choices_faults(alloc, base, alone, choices)
}
