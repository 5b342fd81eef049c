//! Which of its meanings an expression has where its place asks for a type.

ghost use Rattle.std.specs.Prelude.{◌≡◌, IfOk, map};
ghost use Rattle.vhdl_names_meaning.specs.Settling as spec;

use crate::candidates::{Candidate, CandidateItem, CandidateLink, Open};
use sqlite_items::{Boxed, Items};
use std::alloc::{AllocError, Global};
use vhdl_names_operators::has;
use vhdl_names_overloads::{Meanings, Types};
use vhdl_units::{BaseType, ItemValue, LinkValue, Value};

#[tactic(auto, unfolding(crate::specs::Settling::literal_at))]
fn literal_at(base: BaseType, entries: &Meanings) -> Value
    ensures { result ≡ spec.literal_at base entries.now }
{
    match entries.position(base) {
        Some(position) => Value::Literal(base, position),
        None => Value::Unknown,
    }
}

#[tactic(auto, unfolding(crate::specs::Settling::element_or))]
fn element_or(base: Option<BaseType>) -> BaseType
    ensures { result ≡ spec.element_or base }
{
    match base {
        Some(base) => base,
        None => BaseType::Integer,
    }
}

#[tactic(auto, unfolding(crate::specs::Settling::first_or))]
fn first_or(base: BaseType, types: &Types) -> BaseType
    ensures { result ≡ spec.first_or base types.now }
{
    match types.first() {
        Some(first) => first,
        None => base,
    }
}

#[tactic(auto, unfolding(crate::specs::Settling::other_type))]
fn other_type(base: BaseType, types: &Types) -> BaseType
    ensures { result ≡ spec.other_type base types.now }
{
    if has(types, base) {
        base
    } else {
        first_or(base, types)
    }
}

#[tactic(auto, unfolding(crate::specs::Settling::operand_type))]
fn operand_type(base: BaseType, types: &Types) -> BaseType
    ensures { result ≡ spec.operand_type base types.now }
{
    if has(types, base) {
        base
    } else {
        other_type(element_or(base.element()), types)
    }
}

#[tactic(auto, unfolding(crate::specs::Settling::shared))]
fn shared(relation: Option<BaseType>, base: BaseType) -> BaseType
    ensures { result ≡ spec.shared relation base }
{
    match relation {
        Some(shared) => shared,
        None => base,
    }
}

/// What an expression means where its place asks for this type.
///
/// A value of many variants is dropped by a call wherever it is no longer of use: a drop at the end of a scope is
/// written out there, variant by variant, and one for each way to an `Err`.
#[cycle(settle)]
#[tactic(auto, unfolding(crate::specs::Settling::at_types))]
pub fn settle(alloc: Global, candidate: Candidate, base: BaseType) -> Result<Value, AllocError>
    ensures { IfOk result (λ v. v ≡ spec.settled candidate base) }
{
    let Candidate { types, form, .. } = candidate;
    let is_possible = has(&types, base);
    drop(types);
    if is_possible {
        settle_open(alloc, form, base)
    } else {
        drop(form);
        Ok(Value::Unknown)
    }
}

#[cycle(settle)]
#[tactic(auto, unfolding(crate::specs::Settling::chain_at))]
fn settle_open(alloc: Global, form: Open, base: BaseType) -> Result<Value, AllocError>
    ensures { IfOk result (λ v. v ≡ spec.settled_open form base) }
{
    match form {
        Open::Value(value) => Ok(value),
        Open::Literals(entries) => Ok(literal_at(base, &entries)),
        Open::Text(bytes) => Ok(Value::Text(base, bytes)),
        Open::Unary(operator, inner) => {
            let inner = settle(alloc, inner.into_inner(), base)?;
            Ok(Value::Unary(operator, base, Boxed::new(alloc, inner)?))
        }
        Open::Chain(relation, first, links) => {
            let operands = shared(relation, base);
            let first = settle_operand(alloc, operands, first.into_inner())?;
            let first = Boxed::new(alloc, first)?;
            let links = settle_links(alloc, links, operands)?;
            Ok(Value::Chain(base, first, links))
        }
        Open::Aggregate(items) => {
            let items = settle_items(alloc, items, element_or(base.element()))?;
            Ok(Value::Aggregate(base, items))
        }
    }
}

#[cycle(settle)]
#[tactic(auto, unfolding(crate::specs::Settling::operand_at))]
fn settle_operand(alloc: Global, base: BaseType, operand: Candidate) -> Result<Value, AllocError>
    ensures { IfOk result (λ v. v ≡ spec.operand_at base (spec.settled_candidate operand)) }
{
    let asked = operand_type(base, &operand.types);
    settle(alloc, operand, asked)
}

#[cycle(settle)]
fn settle_links(
    alloc: Global,
    links: Items<CandidateLink>,
    base: BaseType,
) -> Result<Items<LinkValue>, AllocError>
    ensures { IfOk result (λ v. v ≡ map (spec.link_at base) (map spec.settled_link links)) }
{
    let mut rest = links;
    let mut settled = Vec::new(alloc);
    while let Some(link) = rest.pop() {
        settled.push(settle_link(alloc, link, base)?)?;
    }
    settled.reverse();
    Ok(Items::from_vec(settled))
}

#[cycle(settle)]
#[tactic(auto, unfolding(crate::specs::Settling::link_at))]
fn settle_link(alloc: Global, link: CandidateLink, base: BaseType) -> Result<LinkValue, AllocError>
    ensures { IfOk result (λ v. v ≡ spec.link_at base (spec.settled_link link)) }
{
    let CandidateLink { operator, right } = link;
    let right = settle_operand(alloc, base, right)?;
    Ok(LinkValue { operator, right })
}

#[cycle(settle)]
fn settle_items(
    alloc: Global,
    items: Items<CandidateItem>,
    base: BaseType,
) -> Result<Items<ItemValue>, AllocError>
    ensures { IfOk result (λ v. v ≡ map (spec.item_at base) (map spec.settled_item items)) }
{
    let mut rest = items;
    let mut settled = Vec::new(alloc);
    while let Some(item) = rest.pop() {
        settled.push(settle_item(alloc, item, base)?)?;
    }
    settled.reverse();
    Ok(Items::from_vec(settled))
}

#[cycle(settle)]
#[tactic(auto, unfolding(crate::specs::Settling::item_at))]
fn settle_item(alloc: Global, item: CandidateItem, base: BaseType) -> Result<ItemValue, AllocError>
    ensures { IfOk result (λ v. v ≡ spec.item_at base (spec.settled_item item)) }
{
    let CandidateItem { choices, value, .. } = item;
    let value = settle(alloc, value, base)?;
    Ok(ItemValue { choices, value })
}

/// What both of two expressions mean where their place asks for one type.
pub(crate) fn settle_both(
    alloc: Global,
    left: Candidate,
    right: Candidate,
    base: BaseType,
) -> Result<(Value, Value), AllocError>
    ensures { IfOk result (λ v. v ≡ (spec.settled left base, spec.settled right base)) }
{
    match settle(alloc, left, base) {
        Ok(left) => match settle(alloc, right, base) {
            Ok(right) => Ok((left, right)),
            Err(error) => {
                drop(left);
                Err(error)
            }
        },
        Err(error) => {
            drop(right);
            Err(error)
        }
    }
}
