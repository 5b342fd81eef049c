//! Whole expressions and names.

ghost use Rattle.std.specs.Prelude.{◌≡◌, IfOk, map};
ghost use Rattle.vhdl_names_meaning.specs.Names.{extended_by};
ghost use Rattle.vhdl_names_meaning.specs.Trees as spec;
ghost use Rattle.vhdl_names_typing.specs.Scope.{look};

use crate::candidates::{
    Candidate, CandidateItem, CandidateLink, ChoiceCandidate, Denoted, PartCandidate,
    RangeCandidate,
};
use crate::literals::{number, spelled};
use crate::names::{begun, candidate_of, extended};
use crate::operators::{aggregate, chain, item, unary};
use sqlite_items::Items;
use std::alloc::{AllocError, Global};
use vhdl_names_scope::Regions;
use vhdl_names_typing::look;
use vhdl_tree::{Bounds, Choice, Expr, Item, Link, Name, Part};

/// What an expression of a text can mean, where these regions are open.
#[cycle(candidate)]
pub fn candidate(
    alloc: Global,
    text: &[u8],
    regions: &Regions,
    expr: &Expr,
) -> Result<Candidate, AllocError>
    ensures { IfOk result (λ v. v ≡ spec.candidate text.now (look text.now regions.now) expr.now) }
{
    match expr {
        Expr::Name(name) => {
            let denoted = denote(alloc, text, regions, name)?;
            candidate_of(alloc, denoted)
        }
        Expr::Number(token, unit) => number(alloc, text, regions, token, unit),
        Expr::Literal(token) => spelled(alloc, text, regions, token),
        Expr::Unary(_, operator, inner) => {
            let operand = candidate(alloc, text, regions, inner.get())?;
            unary(alloc, *operator, operand)
        }
        Expr::Chain(_, first, links) => {
            let first = candidate(alloc, text, regions, first.get())?;
            match link_candidates(alloc, text, regions, links.as_slice()) {
                Ok(links) => chain(alloc, first, links),
                Err(error) => {
                    drop(first);
                    Err(error)
                }
            }
        }
        Expr::Aggregate(_, items) => {
            let items = item_candidates(alloc, text, regions, items.as_slice())?;
            aggregate(alloc, items)
        }
    }
}

#[cycle(candidate)]
fn link_candidates(
    alloc: Global,
    text: &[u8],
    regions: &Regions,
    links: &[Link],
) -> Result<Items<CandidateLink>, AllocError>
    ensures { IfOk result (λ v. v ≡ map (spec.link_candidate text.now (look text.now regions.now)) links.now) }
{
    let mut candidates = Items::new(alloc);
    for link in links {
        candidates.push(link_candidate(alloc, text, regions, link)?)?;
    }
    Ok(candidates)
}

#[cycle(candidate)]
fn link_candidate(
    alloc: Global,
    text: &[u8],
    regions: &Regions,
    link: &Link,
) -> Result<CandidateLink, AllocError>
    ensures { IfOk result (λ v. v ≡ spec.link_candidate text.now (look text.now regions.now) link.now) }
{
    let right = candidate(alloc, text, regions, &link.right)?;
    Ok(CandidateLink {
        operator: link.operator,
        right,
    })
}

#[cycle(candidate)]
fn item_candidates(
    alloc: Global,
    text: &[u8],
    regions: &Regions,
    items: &[Item],
) -> Result<Items<CandidateItem>, AllocError>
    ensures { IfOk result (λ v. v ≡ map (spec.item_candidate text.now (look text.now regions.now)) items.now) }
{
    let mut candidates = Items::new(alloc);
    for item in items {
        candidates.push(item_candidate(alloc, text, regions, item)?)?;
    }
    Ok(candidates)
}

#[cycle(candidate)]
fn item_candidate(
    alloc: Global,
    text: &[u8],
    regions: &Regions,
    element: &Item,
) -> Result<CandidateItem, AllocError>
    ensures { IfOk result (λ v. v ≡ spec.item_candidate text.now (look text.now regions.now) element.now) }
{
    let choices = choice_candidates(alloc, text, regions, element.choices.as_slice())?;
    let value = candidate(alloc, text, regions, &element.value)?;
    item(alloc, choices, value)
}

#[cycle(candidate)]
fn choice_candidates(
    alloc: Global,
    text: &[u8],
    regions: &Regions,
    choices: &[Choice],
) -> Result<Items<ChoiceCandidate>, AllocError>
    ensures { IfOk result (λ v. v ≡ map (spec.choice_candidate text.now (look text.now regions.now)) choices.now) }
{
    let mut candidates = Items::new(alloc);
    for choice in choices {
        candidates.push(choice_candidate(alloc, text, regions, choice)?)?;
    }
    Ok(candidates)
}

/// What a choice can mean.
#[cycle(candidate)]
pub fn choice_candidate(
    alloc: Global,
    text: &[u8],
    regions: &Regions,
    choice: &Choice,
) -> Result<ChoiceCandidate, AllocError>
    ensures { IfOk result (λ v. v ≡ spec.choice_candidate text.now (look text.now regions.now) choice.now) }
{
    match choice {
        Choice::Value(value) => {
            Ok(ChoiceCandidate::Value(candidate(alloc, text, regions, value)?))
        }
        Choice::Range(left, direction, right) => {
            let left = candidate(alloc, text, regions, left)?;
            match candidate(alloc, text, regions, right) {
                Ok(right) => Ok(ChoiceCandidate::Range(left, *direction, right)),
                Err(error) => {
                    drop(left);
                    Err(error)
                }
            }
        }
        Choice::Others(_) => Ok(ChoiceCandidate::Others),
    }
}

/// What a name denotes.
#[cycle(candidate)]
pub fn denote(
    alloc: Global,
    text: &[u8],
    regions: &Regions,
    name: &Name,
) -> Result<Denoted, AllocError>
    ensures { IfOk result (λ v. v ≡ spec.denoted text.now (look text.now regions.now) name.now) }
{
    let entries = look(alloc, text, regions, &name.identifier)?;
    let first = begun(alloc, entries);
    denote_parts(alloc, text, regions, first, name.parts.as_slice())
}

#[cycle(candidate)]
#[tactic(auto, unfolding(crate::specs::Names::extended_by))]
fn denote_parts(
    alloc: Global,
    text: &[u8],
    regions: &Regions,
    first: Denoted,
    parts: &[Part],
) -> Result<Denoted, AllocError>
    ensures { IfOk result (λ v. v ≡ extended_by text.now first (map (spec.part_candidate text.now (look text.now regions.now)) parts.now)) }
{
    let mut so_far = first;
    for part in parts {
        match part_candidate(alloc, text, regions, part) {
            Ok(part) => so_far = extended(alloc, text, so_far, part)?,
            Err(error) => {
                drop(so_far);
                return Err(error);
            }
        }
    }
    Ok(so_far)
}

#[cycle(candidate)]
fn part_candidate(
    alloc: Global,
    text: &[u8],
    regions: &Regions,
    part: &Part,
) -> Result<PartCandidate, AllocError>
    ensures { IfOk result (λ v. v ≡ spec.part_candidate text.now (look text.now regions.now) part.now) }
{
    match part {
        Part::Index(index) => Ok(PartCandidate::Index(candidate(alloc, text, regions, index)?)),
        Part::Slice(left, direction, right) => {
            let left = candidate(alloc, text, regions, left)?;
            match candidate(alloc, text, regions, right) {
                Ok(right) => Ok(PartCandidate::Slice(left, *direction, right)),
                Err(error) => {
                    drop(left);
                    Err(error)
                }
            }
        }
        Part::Attribute(word) => Ok(PartCandidate::Attribute(*word)),
    }
}

/// What a discrete range can mean.
pub fn range_candidate(
    alloc: Global,
    text: &[u8],
    regions: &Regions,
    bounds: &Bounds,
) -> Result<RangeCandidate, AllocError>
    ensures { IfOk result (λ v. v ≡ spec.range_candidate text.now (look text.now regions.now) bounds.now) }
{
    match bounds {
        Bounds::Range(left, direction, right) => {
            let left = candidate(alloc, text, regions, left)?;
            match candidate(alloc, text, regions, right) {
                Ok(right) => Ok(RangeCandidate::Bounds(left, *direction, right)),
                Err(error) => {
                    drop(left);
                    Err(error)
                }
            }
        }
        Bounds::Name(name) => Ok(RangeCandidate::Name(denote(alloc, text, regions, name)?)),
    }
}
