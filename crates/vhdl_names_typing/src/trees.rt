//! Whole expressions and names.

ghost use Rattle.std.specs.Prelude.{◌≡◌, IfOk, map};
ghost use Rattle.vhdl_names_typing.specs.Expressions.{joined_by};
ghost use Rattle.vhdl_names_typing.specs.Names.{extended_by};
ghost use Rattle.vhdl_names_typing.specs.Scope.{look};
ghost use Rattle.vhdl_names_typing.specs.Trees as spec;

use crate::expressions::{aggregate_told, joined, operand, unary_told};
use crate::literals::{number_told, spelled_told};
use crate::names::{begun, extended, finished, value_of};
use crate::ranges::range_name;
use crate::scope::look;
use crate::told::{BoundsTold, ChoiceTold, ItemTold, NameTold, PartTold, Told};
use sqlite_items::Items;
use std::alloc::{AllocError, Global};
use vhdl_names_scope::Regions;
use vhdl_tree::{Bounds, Choice, Expr, Item, Link, Name, Part};

/// What an expression of a text tells, where these regions are open.
#[cycle(tell)]
pub fn tell(alloc: Global, text: &[u8], regions: &Regions, expr: &Expr) -> Result<Told, AllocError>
    ensures { IfOk result (λ v. v ≡ spec.told text.now (look text.now regions.now) expr.now) }
{
    match expr {
        Expr::Name(name) => {
            let told = tell_name(alloc, text, regions, name)?;
            value_of(alloc, told)
        }
        Expr::Number(token, unit) => number_told(alloc, text, regions, token, unit),
        Expr::Literal(token) => spelled_told(alloc, text, regions, token),
        Expr::Unary(place, operator, inner) => {
            let told = tell(alloc, text, regions, inner.get())?;
            unary_told(alloc, *place, *operator, told)
        }
        Expr::Chain(place, first, links) => {
            let told = tell(alloc, text, regions, first.get())?;
            let left = operand(alloc, *place, told)?;
            tell_links(alloc, text, regions, left, links.as_slice())
        }
        Expr::Aggregate(place, items) => {
            let told = tell_items(alloc, text, regions, items.as_slice())?;
            aggregate_told(alloc, *place, told.as_slice())
        }
    }
}

/// What operators and their right operands tell behind a first operand.
#[cycle(tell)]
#[tactic(auto, unfolding(crate::specs::Expressions::joined_by))]
fn tell_links(
    alloc: Global,
    text: &[u8],
    regions: &Regions,
    first: Told,
    links: &[Link],
) -> Result<Told, AllocError>
    ensures { IfOk result (λ v. v ≡ joined_by first (map (spec.told_link text.now (look text.now regions.now)) links.now)) }
{
    let mut so_far = first;
    for link in links {
        let right = tell(alloc, text, regions, &link.right)?;
        so_far = joined(alloc, so_far, link.operator, right)?;
    }
    Ok(so_far)
}

#[cycle(tell)]
fn tell_items(
    alloc: Global,
    text: &[u8],
    regions: &Regions,
    items: &[Item],
) -> Result<Items<ItemTold>, AllocError>
    ensures { IfOk result (λ v. v ≡ map (spec.told_item text.now (look text.now regions.now)) items.now) }
{
    let mut told = Items::new(alloc);
    for item in items {
        told.push(tell_item(alloc, text, regions, item)?)?;
    }
    Ok(told)
}

#[cycle(tell)]
fn tell_item(
    alloc: Global,
    text: &[u8],
    regions: &Regions,
    item: &Item,
) -> Result<ItemTold, AllocError>
    ensures { IfOk result (λ v. v ≡ spec.told_item text.now (look text.now regions.now) item.now) }
{
    let choices = tell_choices(alloc, text, regions, item.choices.as_slice())?;
    let value = tell(alloc, text, regions, &item.value)?;
    Ok(ItemTold { choices, value })
}

#[cycle(tell)]
fn tell_choices(
    alloc: Global,
    text: &[u8],
    regions: &Regions,
    choices: &[Choice],
) -> Result<Items<ChoiceTold>, AllocError>
    ensures { IfOk result (λ v. v ≡ map (spec.told_choice text.now (look text.now regions.now)) choices.now) }
{
    let mut told = Items::new(alloc);
    for choice in choices {
        told.push(tell_choice(alloc, text, regions, choice)?)?;
    }
    Ok(told)
}

/// What a choice tells.
#[cycle(tell)]
pub fn tell_choice(
    alloc: Global,
    text: &[u8],
    regions: &Regions,
    choice: &Choice,
) -> Result<ChoiceTold, AllocError>
    ensures { IfOk result (λ v. v ≡ spec.told_choice text.now (look text.now regions.now) choice.now) }
{
    match choice {
        Choice::Value(value) => Ok(ChoiceTold::Value(tell(alloc, text, regions, value)?)),
        Choice::Range(left, _, right) => {
            let left = tell(alloc, text, regions, left)?;
            let right = tell(alloc, text, regions, right)?;
            Ok(ChoiceTold::Range(left, right))
        }
        Choice::Others(word) => Ok(ChoiceTold::Others(word.start)),
    }
}

/// What a name tells.
#[cycle(tell)]
#[tactic(auto, unfolding(crate::specs::Names::name_told))]
pub fn tell_name(
    alloc: Global,
    text: &[u8],
    regions: &Regions,
    name: &Name,
) -> Result<NameTold, AllocError>
    ensures { IfOk result (λ v. v ≡ spec.told_name text.now (look text.now regions.now) name.now) }
{
    let entries = look(alloc, text, regions, &name.identifier)?;
    let first = begun(alloc, name.identifier.start, entries)?;
    let told = tell_parts(alloc, text, regions, first, name.parts.as_slice())?;
    finished(alloc, told)
}

/// What the parts of a name tell behind its identifier.
#[cycle(tell)]
#[tactic(auto, unfolding(crate::specs::Names::extended_by))]
fn tell_parts(
    alloc: Global,
    text: &[u8],
    regions: &Regions,
    first: NameTold,
    parts: &[Part],
) -> Result<NameTold, AllocError>
    ensures { IfOk result (λ v. v ≡ extended_by text.now first (map (spec.told_part text.now (look text.now regions.now)) parts.now)) }
{
    let mut so_far = first;
    for part in parts {
        let told = tell_part(alloc, text, regions, part)?;
        so_far = extended(alloc, text, so_far, told)?;
    }
    Ok(so_far)
}

#[cycle(tell)]
fn tell_part(
    alloc: Global,
    text: &[u8],
    regions: &Regions,
    part: &Part,
) -> Result<PartTold, AllocError>
    ensures { IfOk result (λ v. v ≡ spec.told_part text.now (look text.now regions.now) part.now) }
{
    match part {
        Part::Index(index) => Ok(PartTold::Index(tell(alloc, text, regions, index)?)),
        Part::Slice(left, _, right) => {
            let left = tell(alloc, text, regions, left)?;
            let right = tell(alloc, text, regions, right)?;
            Ok(PartTold::Slice(left, right))
        }
        Part::Attribute(word) => Ok(PartTold::Attribute(*word)),
    }
}

/// What a discrete range tells: two bounds, or a name, which has to be the range of an array.
pub fn tell_bounds(
    alloc: Global,
    text: &[u8],
    regions: &Regions,
    bounds: &Bounds,
) -> Result<BoundsTold, AllocError>
    ensures { IfOk result (λ v. v ≡ spec.told_bounds text.now (look text.now regions.now) bounds.now) }
{
    match bounds {
        Bounds::Range(left, _, right) => {
            let left = tell(alloc, text, regions, left)?;
            let right = tell(alloc, text, regions, right)?;
            Ok(BoundsTold::Range(left, right))
        }
        Bounds::Name(name) => {
            let told = tell_name(alloc, text, regions, name)?;
            Ok(BoundsTold::Name(range_name(alloc, told)?))
        }
    }
}
