//! What expressions and names mean by what stands around them.

ghost use Rattle.std.specs.Prelude.{◌≡◌, IfOk, map};
ghost use Rattle.std.specs.Option.{option_copied};
ghost use Rattle.vhdl_names_resolving.specs.Values as spec;

use sqlite_items::Items;
use std::alloc::{AllocError, Global};
use vhdl_names_checker::Surroundings;
use vhdl_names_meaning::{
    Denoted, RangeCandidate, candidate, choice_at, choice_candidate, denote, range_candidate,
    settle, target_of,
};
use vhdl_tree::{Bounds, Choice, Expr, Name};
use vhdl_units::{BaseType, ChoiceValue, Value};

/// What an expression means here, where this type is asked (9.1, 12.5).
#[tactic(auto, unfolding(crate::specs::Values::value_at, vhdl_names_checker::specs::Telling::seen_here))]
pub fn value_at(
    alloc: Global,
    text: &[u8],
    around: &Surroundings,
    base: BaseType,
    expr: &Expr,
) -> Result<Value, AllocError>
    ensures { IfOk result (λ v. v ≡ spec.value_at text.now around.now base expr.now) }
{
    let open_value = candidate(alloc, text, around.regions(), expr)?;
    settle(alloc, open_value, base)
}

/// What an expression means here, if there is one.
#[tactic(auto, unfolding(crate::specs::Values::optional_at))]
pub(crate) fn optional_at(
    alloc: Global,
    text: &[u8],
    around: &Surroundings,
    base: BaseType,
    expr: Option<&Expr>,
) -> Result<Option<Value>, AllocError>
    ensures { IfOk result (λ v. v ≡ spec.optional_at text.now around.now base (option_copied expr.entry)) }
{
    match expr {
        Some(expr) => Ok(Some(value_at(alloc, text, around, base, expr)?)),
        None => Ok(None),
    }
}

/// What a name denotes here (8.1).
#[tactic(auto, unfolding(crate::specs::Values::denoted_here, vhdl_names_checker::specs::Telling::seen_here))]
pub(crate) fn denoted_here(
    alloc: Global,
    text: &[u8],
    around: &Surroundings,
    name: &Name,
) -> Result<Denoted, AllocError>
    ensures { IfOk result (λ v. v ≡ spec.denoted_here text.now around.now name.now) }
{
    denote(alloc, text, around.regions(), name)
}

/// The object that a name denotes here, an element of it or a slice.
#[tactic(auto, unfolding(crate::specs::Values::target_here))]
fn target_here(
    alloc: Global,
    text: &[u8],
    around: &Surroundings,
    name: &Name,
) -> Result<Value, AllocError>
    ensures { IfOk result (λ v. v ≡ spec.target_here text.now around.now name.now) }
{
    let denoted = denoted_here(alloc, text, around, name)?;
    Ok(target_of(denoted))
}

/// The objects that names denote here.
pub(crate) fn targets_here(
    alloc: Global,
    text: &[u8],
    around: &Surroundings,
    names: &[Name],
) -> Result<Items<Value>, AllocError>
    ensures { IfOk result (λ v. v ≡ map (spec.target_here text.now around.now) names.now) }
{
    let mut targets = Items::new(alloc);
    for name in names {
        targets.push(target_here(alloc, text, around, name)?)?;
    }
    Ok(targets)
}

#[tactic(auto, unfolding(crate::specs::Values::choice_here, vhdl_names_checker::specs::Telling::seen_here))]
fn choice_here(
    alloc: Global,
    text: &[u8],
    around: &Surroundings,
    base: BaseType,
    choice: &Choice,
) -> Result<ChoiceValue, AllocError>
    ensures { IfOk result (λ v. v ≡ spec.choice_here text.now around.now base choice.now) }
{
    let open_choice = choice_candidate(alloc, text, around.regions(), choice)?;
    choice_at(alloc, base, open_choice)
}

/// What choices mean here, where this type is asked.
pub(crate) fn choices_here(
    alloc: Global,
    text: &[u8],
    around: &Surroundings,
    base: BaseType,
    choices: &[Choice],
) -> Result<Items<ChoiceValue>, AllocError>
    ensures { IfOk result (λ v. v ≡ map (spec.choice_here text.now around.now base) choices.now) }
{
    let mut values = Items::new(alloc);
    for choice in choices {
        values.push(choice_here(alloc, text, around, base, choice)?)?;
    }
    Ok(values)
}

/// What a discrete range can mean here (5.3.2.1).
#[tactic(auto, unfolding(crate::specs::Values::range_here, vhdl_names_checker::specs::Telling::seen_here))]
pub(crate) fn range_here(
    alloc: Global,
    text: &[u8],
    around: &Surroundings,
    bounds: &Bounds,
) -> Result<RangeCandidate, AllocError>
    ensures { IfOk result (λ v. v ≡ spec.range_here text.now around.now bounds.now) }
{
    range_candidate(alloc, text, around.regions(), bounds)
}
