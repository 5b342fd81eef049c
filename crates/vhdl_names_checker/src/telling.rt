//! What the expressions, names and declarations of an event tell, by what stands around it.

ghost use Rattle.std.specs.Prelude.{◌≡◌, ◌++◌, IfOk, map};
ghost use Rattle.std.specs.List.{flat_map};
ghost use Rattle.std.specs.Option.{option_copied};
ghost use Rattle.vhdl_names_typing.specs.Scope as scope;
ghost use Rattle.vhdl_names_checker.specs.Telling as spec;

use crate::surroundings::Surroundings;
use sqlite_items::Items;
use std::alloc::{AllocError, Global};
use vhdl_names_overloads::Meanings;
use vhdl_names_rules::{
    ElementTold, ObjectsTold, SubtypeTold, WaitTold, indexed, mark_in, mark_names, ranged,
    unconstrained,
};
use vhdl_names_typing::{
    BoundsTold, ChoiceTold, NameTold, Told, look, tell, tell_bounds, tell_choice, tell_name,
};
use vhdl_tokens::Token;
use vhdl_tree::{
    Alternative, Bounds, Choice, Constraint, Delay, Element, Expr, Name, Subtype, Wait,
};
use vhdl_units::{Fault, Mark};

// What an identifier denotes here.
#[tactic(auto, unfolding(crate::specs::Telling::seen_here))]
fn seen_here(
    alloc: Global,
    text: &[u8],
    around: &Surroundings,
    token: &Token,
) -> Result<Meanings, AllocError>
    ensures { IfOk result (λ entries. entries ≡ spec.seen_here text.now around.now token.now) }
{
    look(alloc, text, around.regions(), token)
}

/// What an expression tells here.
#[tactic(auto, unfolding(crate::specs::Telling::expression, crate::specs::Telling::seen_here))]
pub fn expression(
    alloc: Global,
    text: &[u8],
    around: &Surroundings,
    expr: &Expr,
) -> Result<Told, AllocError>
    ensures { IfOk result (λ told. told ≡ spec.expression text.now around.now expr.now) }
{
    tell(alloc, text, around.regions(), expr)
}

/// What a name tells here.
#[tactic(auto, unfolding(crate::specs::Telling::name_here, crate::specs::Telling::seen_here))]
pub fn name_here(
    alloc: Global,
    text: &[u8],
    around: &Surroundings,
    name: &Name,
) -> Result<NameTold, AllocError>
    ensures { IfOk result (λ told. told ≡ spec.name_here text.now around.now name.now) }
{
    tell_name(alloc, text, around.regions(), name)
}

#[tactic(auto, unfolding(crate::specs::Telling::choice_here, crate::specs::Telling::seen_here))]
fn choice_here(
    alloc: Global,
    text: &[u8],
    around: &Surroundings,
    choice: &Choice,
) -> Result<ChoiceTold, AllocError>
    ensures { IfOk result (λ told. told ≡ spec.choice_here text.now around.now choice.now) }
{
    tell_choice(alloc, text, around.regions(), choice)
}

/// What a discrete range tells here.
#[tactic(auto, unfolding(crate::specs::Telling::bounds_here, crate::specs::Telling::seen_here))]
pub fn bounds_here(
    alloc: Global,
    text: &[u8],
    around: &Surroundings,
    bounds: &Bounds,
) -> Result<BoundsTold, AllocError>
    ensures { IfOk result (λ told. told ≡ spec.bounds_here text.now around.now bounds.now) }
{
    tell_bounds(alloc, text, around.regions(), bounds)
}

/// What an expression tells here, if there is one.
#[tactic(auto, unfolding(crate::specs::Telling::optional))]
pub fn optional(
    alloc: Global,
    text: &[u8],
    around: &Surroundings,
    expr: Option<&Expr>,
) -> Result<Option<Told>, AllocError>
    ensures { IfOk result (λ told. told ≡ spec.optional text.now around.now (option_copied expr.entry)) }
{
    match expr {
        Some(expr) => Ok(Some(expression(alloc, text, around, expr)?)),
        None => Ok(None),
    }
}

/// What names tell here.
pub fn names_here(
    alloc: Global,
    text: &[u8],
    around: &Surroundings,
    names: &[Name],
) -> Result<Items<NameTold>, AllocError>
    ensures { IfOk result (λ told. told ≡ map (spec.name_here text.now around.now) names.now) }
{
    let mut told = Items::new(alloc);
    for name in names {
        told.push(name_here(alloc, text, around, name)?)?;
    }
    Ok(told)
}

/// What choices tell here.
pub fn choices_here(
    alloc: Global,
    text: &[u8],
    around: &Surroundings,
    choices: &[Choice],
) -> Result<Items<ChoiceTold>, AllocError>
    ensures { IfOk result (λ told. told ≡ map (spec.choice_here text.now around.now) choices.now) }
{
    let mut told = Items::new(alloc);
    for choice in choices {
        told.push(choice_here(alloc, text, around, choice)?)?;
    }
    Ok(told)
}

// ---- subtypes

#[tactic(auto, unfolding(crate::specs::Telling::constrained))]
fn constrained(
    alloc: Global,
    text: &[u8],
    around: &Surroundings,
    place: u32,
    names: Items<Fault>,
    mark: Option<Mark>,
    constraint: &Option<Constraint>,
) -> Result<SubtypeTold, AllocError>
    ensures { IfOk result (λ told. told ≡ spec.constrained text.now around.now place names mark constraint.now) }
{
    match constraint {
        None => Ok(unconstrained(alloc, place, names, mark)),
        Some(Constraint::Range(bounds)) => {
            let bounds = bounds_here(alloc, text, around, bounds)?;
            ranged(alloc, place, names, mark, bounds)
        }
        Some(Constraint::Index(bounds)) => {
            let bounds = bounds_here(alloc, text, around, bounds)?;
            indexed(alloc, place, names, mark, bounds)
        }
    }
}

#[tactic(auto, unfolding(crate::specs::Telling::subtype_with))]
fn subtype_with(
    alloc: Global,
    text: &[u8],
    around: &Surroundings,
    place: u32,
    entries: &Meanings,
    constraint: &Option<Constraint>,
) -> Result<SubtypeTold, AllocError>
    ensures { IfOk result (λ told. told ≡ spec.subtype_with text.now around.now place entries.now constraint.now) }
{
    let names = mark_names(alloc, place, entries)?;
    constrained(
        alloc,
        text,
        around,
        place,
        names,
        mark_in(entries),
        constraint,
    )
}

/// What a subtype indication tells here.
#[tactic(auto, unfolding(crate::specs::Telling::subtype_here))]
pub fn subtype_here(
    alloc: Global,
    text: &[u8],
    around: &Surroundings,
    subtype: &Subtype,
) -> Result<SubtypeTold, AllocError>
    ensures { IfOk result (λ told. told ≡ spec.subtype_here text.now around.now subtype.now) }
{
    let entries = seen_here(alloc, text, around, &subtype.mark)?;
    subtype_with(
        alloc,
        text,
        around,
        subtype.mark.start,
        &entries,
        &subtype.constraint,
    )
}

/// What a declaration of objects tells here: their subtype, and their value at the beginning.
#[tactic(auto, unfolding(crate::specs::Telling::objects_here))]
pub fn objects_here(
    alloc: Global,
    text: &[u8],
    around: &Surroundings,
    subtype: &Subtype,
    initial: Option<&Expr>,
) -> Result<ObjectsTold, AllocError>
    ensures { IfOk result (λ told. told ≡ spec.objects_here text.now around.now subtype.now (option_copied initial.entry)) }
{
    let subtype = subtype_here(alloc, text, around, subtype)?;
    let initial = optional(alloc, text, around, initial)?;
    Ok(ObjectsTold { subtype, initial })
}

// ---- statements

#[tactic(auto, unfolding(crate::specs::Telling::element_here))]
fn element_here(
    alloc: Global,
    text: &[u8],
    around: &Surroundings,
    element: &Element,
) -> Result<ElementTold, AllocError>
    ensures { IfOk result (λ told. told ≡ spec.element_here text.now around.now element.now) }
{
    let value = expression(alloc, text, around, &element.value)?;
    let after = optional(alloc, text, around, element.after.as_ref())?;
    Ok(ElementTold { value, after })
}

fn elements(
    alloc: Global,
    text: &[u8],
    around: &Surroundings,
    waveform: &[Element],
) -> Result<Items<ElementTold>, AllocError>
    ensures { IfOk result (λ told. told ≡ map (spec.element_here text.now around.now) waveform.now) }
{
    let mut told = Items::new(alloc);
    for element in waveform {
        told.push(element_here(alloc, text, around, element)?)?;
    }
    Ok(told)
}

#[tactic(auto, unfolding(crate::specs::Telling::alternative_elements))]
fn alternative_elements(
    alloc: Global,
    text: &[u8],
    around: &Surroundings,
    alternative: &Alternative,
) -> Result<Items<ElementTold>, AllocError>
    ensures { IfOk result (λ told. told ≡ spec.alternative_elements text.now around.now alternative.now) }
{
    elements(alloc, text, around, alternative.otherwise.as_slice())
}

fn all_alternatives(
    alloc: Global,
    text: &[u8],
    around: &Surroundings,
    alternatives: &[Alternative],
) -> Result<Items<ElementTold>, AllocError>
    ensures { IfOk result (λ told. told ≡ flat_map (spec.alternative_elements text.now around.now) alternatives.now) }
{
    let mut told = Items::new(alloc);
    for alternative in alternatives {
        told.append(alternative_elements(alloc, text, around, alternative)?)?;
    }
    Ok(told)
}

/// What the elements of a waveform and of its alternatives tell here.
#[tactic(auto, unfolding(crate::specs::Telling::waveforms))]
pub fn waveforms(
    alloc: Global,
    text: &[u8],
    around: &Surroundings,
    waveform: &[Element],
    alternatives: &[Alternative],
) -> Result<Items<ElementTold>, AllocError>
    ensures { IfOk result (λ told. told ≡ spec.waveforms text.now around.now waveform.now alternatives.now) }
{
    let mut told = elements(alloc, text, around, waveform)?;
    told.append(all_alternatives(alloc, text, around, alternatives)?)?;
    Ok(told)
}

#[tactic(auto, unfolding(crate::specs::Telling::alternative_condition))]
fn alternative_condition(
    alloc: Global,
    text: &[u8],
    around: &Surroundings,
    alternative: &Alternative,
) -> Result<Told, AllocError>
    ensures { IfOk result (λ told. told ≡ spec.alternative_condition text.now around.now alternative.now) }
{
    expression(alloc, text, around, &alternative.condition)
}

fn all_conditions(
    alloc: Global,
    text: &[u8],
    around: &Surroundings,
    alternatives: &[Alternative],
) -> Result<Items<Told>, AllocError>
    ensures { IfOk result (λ told. told ≡ map (spec.alternative_condition text.now around.now) alternatives.now) }
{
    let mut told = Items::new(alloc);
    for alternative in alternatives {
        told.push(alternative_condition(alloc, text, around, alternative)?)?;
    }
    Ok(told)
}

// One more told expression, if there is one.
#[tactic(auto, unfolding(crate::specs::Telling::option_list))]
fn with_last(mut all: Items<Told>, last: Option<Told>) -> Result<Items<Told>, AllocError>
    ensures { IfOk result (λ told. told ≡ all ++ spec.option_list last) }
{
    if let Some(told) = last {
        all.push(told)?;
    }
    Ok(all)
}

/// What the conditions of a concurrent assignment tell here.
#[tactic(auto, unfolding(crate::specs::Telling::conditions))]
pub fn conditions(
    alloc: Global,
    text: &[u8],
    around: &Surroundings,
    alternatives: &[Alternative],
    condition: Option<&Expr>,
) -> Result<Items<Told>, AllocError>
    ensures { IfOk result (λ told. told ≡ spec.conditions text.now around.now alternatives.now (option_copied condition.entry)) }
{
    let all = all_conditions(alloc, text, around, alternatives)?;
    let last = optional(alloc, text, around, condition)?;
    with_last(all, last)
}

/// What the limit of a delay tells here, if it has one of its own.
#[tactic(auto, unfolding(crate::specs::Telling::reject))]
pub fn reject(
    alloc: Global,
    text: &[u8],
    around: &Surroundings,
    delay: &Delay,
) -> Result<Option<Told>, AllocError>
    ensures { IfOk result (λ told. told ≡ spec.reject text.now around.now delay.now) }
{
    match delay {
        Delay::Reject(limit) => Ok(Some(expression(alloc, text, around, limit)?)),
        _ => Ok(None),
    }
}

/// What a wait statement tells here.
#[tactic(auto, unfolding(crate::specs::Telling::wait_here))]
pub fn wait_here(
    alloc: Global,
    text: &[u8],
    around: &Surroundings,
    wait: &Wait,
) -> Result<WaitTold, AllocError>
    ensures { IfOk result (λ told. told ≡ spec.wait_here text.now around.now wait.now) }
{
    let on = names_here(alloc, text, around, wait.on.as_slice())?;
    let until = optional(alloc, text, around, wait.until.as_ref())?;
    let time = optional(alloc, text, around, wait.time.as_ref())?;
    Ok(WaitTold {
        place: wait.word.start,
        on,
        until,
        time,
    })
}
