//! Operators and aggregates.

ghost use Rattle.std.specs.Prelude.{◌≡◌, IfOk, map};
ghost use Rattle.std.specs.List.{list_all};
ghost use Rattle.vhdl_names_meaning.specs.Operators as spec;
ghost use Rattle.vhdl_names_meaning.specs.Ranges.{choice_at, choice_is_static};
ghost use Rattle.vhdl_names_operators.specs.Literals.{aggregates};
ghost use Rattle.vhdl_units.specs.declared.base_type.BaseType.TheVariants as base;

use crate::candidates::{Candidate, CandidateItem, CandidateLink, ChoiceCandidate, Open};
use crate::names::candidate_with;
use crate::ranges::{choice_at, choice_is_static};
use sqlite_items::{Boxed, Items};
use std::alloc::{AllocError, Global};
use vhdl_names_operators::{all_arrays, has, narrow, only, results, results_from};
use vhdl_names_overloads::Types;
use vhdl_names_typing::is_relation;
use vhdl_tree::{Operator, Unary};
use vhdl_units::{BaseType, ChoiceValue};

/// An operator before its operand.
#[tactic(auto, unfolding(crate::specs::Operators::unary))]
pub(crate) fn unary(
    alloc: Global,
    operator: Unary,
    operand: Candidate,
) -> Result<Candidate, AllocError>
    ensures { IfOk result (λ v. v ≡ spec.unary operator operand) }
{
    let is_static = operand.is_static;
    let operand = Boxed::new(alloc, operand)?;
    let types = results_from(alloc, operator, &operand.get().types)?;
    Ok(candidate_with(types, is_static, Open::Unary(operator, operand)))
}

// ---- operators of one precedence

#[tactic(auto, unfolding(crate::specs::Operators::met))]
fn met(base: Option<BaseType>, others: &Types) -> Option<BaseType>
    ensures { result ≡ spec.met base others.now }
{
    match base {
        Some(base) => if has(others, base) { Some(base) } else { None },
        None => None,
    }
}

#[tactic(auto, unfolding(crate::specs::Operators::first_of))]
fn first_of(base: Option<BaseType>, other: Option<BaseType>) -> Option<BaseType>
    ensures { result ≡ spec.first_of base other }
{
    match base {
        Some(base) => Some(base),
        None => other,
    }
}

#[tactic(auto, unfolding(crate::specs::Operators::or_integer))]
fn or_integer(base: Option<BaseType>) -> BaseType
    ensures { result ≡ spec.or_integer base }
{
    match base {
        Some(base) => base,
        None => BaseType::Integer,
    }
}

/// The type of both operands of a relation.
#[tactic(auto, unfolding(crate::specs::Operators::related))]
fn related(left: &Types, right: &Types) -> BaseType
    ensures { result ≡ spec.related left.now right.now }
{
    or_integer(first_of(met(only(left), right), met(only(right), left)))
}

#[tactic(auto, unfolding(crate::specs::Operators::relation_of))]
fn relation_of(operator: Operator, left: &Types, right: &Types) -> Option<BaseType>
    ensures { result ≡ spec.relation_of operator left.now right.now }
{
    if is_relation(operator) {
        Some(related(left, right))
    } else {
        None
    }
}

#[tactic(auto, unfolding(crate::specs::Operators::chain_types))]
fn chain_types(alloc: Global, first: &Types, links: &[CandidateLink]) -> Result<Types, AllocError>
    ensures { IfOk result (λ v. v ≡ spec.chain_types first.now links.now) }
{
    let mut types = first.share(alloc)?;
    for link in links {
        types = results(alloc, link.operator, &types, &link.right.types)?;
    }
    Ok(types)
}

#[tactic(auto, unfolding(crate::specs::Operators::link_is_static))]
fn link_is_static(link: &CandidateLink) -> bool
    ensures { result ≡ spec.link_is_static link.now }
{
    link.right.is_static
}

fn links_are_static(links: &[CandidateLink]) -> bool
    ensures { result ≡ list_all spec.link_is_static links.now }
{
    links.iter().all(link_is_static)
}

/// Operands and the operators between them.
#[tactic(auto, unfolding(crate::specs::Operators::chain, crate::specs::Operators::chain_by))]
pub(crate) fn chain(
    alloc: Global,
    first: Candidate,
    links: Items<CandidateLink>,
) -> Result<Candidate, AllocError>
    ensures { IfOk result (λ v. v ≡ spec.chain first links) }
{
    match links.as_slice() {
        [] => Ok(first),
        [link, ..] => {
            let relation = relation_of(link.operator, &first.types, &link.right.types);
            let is_static = first.is_static && links_are_static(links.as_slice());
            let first = Boxed::new(alloc, first)?;
            let types = chain_types(alloc, &first.get().types, links.as_slice())?;
            Ok(candidate_with(types, is_static, Open::Chain(relation, first, links)))
        }
    }
}

// ---- aggregates

fn choices_at_integer(
    alloc: Global,
    choices: Items<ChoiceCandidate>,
) -> Result<Items<ChoiceValue>, AllocError>
    ensures { IfOk result (λ v. v ≡ map (choice_at base.Integer) choices) }
{
    let mut rest = choices;
    let mut settled = Vec::new(alloc);
    for _ in 0..rest.len() {
        if let Some(choice) = rest.pop() {
            settled.push(choice_at(alloc, BaseType::Integer, choice)?)?;
        }
    }
    settled.reverse();
    Ok(Items::from_vec(settled))
}

fn choices_are_static(choices: &[ChoiceCandidate]) -> bool
    ensures { result ≡ list_all choice_is_static choices.now }
{
    choices.iter().all(choice_is_static)
}

/// An element of an aggregate, whose choices are of INTEGER.
#[tactic(auto, unfolding(crate::specs::Operators::item))]
pub(crate) fn item(
    alloc: Global,
    choices: Items<ChoiceCandidate>,
    value: Candidate,
) -> Result<CandidateItem, AllocError>
    ensures { IfOk result (λ v. v ≡ spec.item choices value) }
{
    let is_static = choices_are_static(choices.as_slice()) && value.is_static;
    match choices_at_integer(alloc, choices) {
        Ok(choices) => Ok(CandidateItem {
            choices,
            is_static,
            value,
        }),
        Err(error) => {
            drop(value);
            Err(error)
        }
    }
}

#[tactic(auto, unfolding(crate::specs::Operators::item_types, vhdl_names_operators::specs::Literals::aggregates))]
fn aggregate_types(alloc: Global, items: &[CandidateItem]) -> Result<Types, AllocError>
    ensures { IfOk result (λ v. v ≡ aggregates (map spec.item_types items.now)) }
{
    let mut types = all_arrays(alloc)?;
    for item in items {
        types = narrow(alloc, types.as_slice(), &item.value.types)?;
    }
    Ok(Types::from_items(types))
}

#[tactic(auto, unfolding(crate::specs::Operators::item_is_static))]
fn item_is_static(item: &CandidateItem) -> bool
    ensures { result ≡ spec.item_is_static item.now }
{
    item.is_static
}

fn items_are_static(items: &[CandidateItem]) -> bool
    ensures { result ≡ list_all spec.item_is_static items.now }
{
    items.iter().all(item_is_static)
}

/// An aggregate.
#[tactic(auto, unfolding(crate::specs::Operators::aggregate))]
pub(crate) fn aggregate(alloc: Global, items: Items<CandidateItem>) -> Result<Candidate, AllocError>
    ensures { IfOk result (λ v. v ≡ spec.aggregate items) }
{
    let types = aggregate_types(alloc, items.as_slice())?;
    let is_static = items_are_static(items.as_slice());
    Ok(candidate_with(types, is_static, Open::Aggregate(items)))
}
