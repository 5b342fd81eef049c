//! Whole expressions.

ghost use Rattle.std.specs.Prelude.{◌≡◌, ◌∷◌, [], map, pos, IfOk};
ghost use Rattle.sim_operators.specs.Outcomes.{Gives, and_then};
ghost use Rattle.sim_eval.specs.Located.{moved_by};
ghost use Rattle.sim_eval.specs.Aggregates.{joined_by, collected_by};
ghost use Rattle.sim_eval.specs.Meaning as spec;

use crate::aggregates::{Chosen, Element, assembled, between};
use crate::attributes::{attribute_of, bound_of, has_edge};
use crate::environment::Env;
use crate::locating::{Located, indexed, sliced};
use crate::objects::whole;
use crate::reading::{read, states_at};
use sim_elaborated::{AggregateBounds, Association, Choice, Expr, Link, Name, Part};
use sim_memory::NoMemory;
use sim_operators::{Fault, apply, apply_unary, decided, first_of, scalar, truth};
use sqlite_items::Items;
use std::alloc::Global;
use vhpi_values::{IndexRange, Val};

fn positions(alloc: Global, text: &[u8]) -> Result<Vec<i64>, NoMemory>
    ensures { IfOk result (λ numbers. numbers.items ≡ map pos text.now) }
{
    Ok(
        text.iter()
            .map(|position| i64::from(*position))
            .collect(alloc)?,
    )
}

fn now(alloc: Global, env: &Env) -> Result<Val, NoMemory>
    ensures { IfOk result (λ value. value ≡ pos (spec.time_of env.now) ∷ []) }
{
    scalar(alloc, env.time.min(i64::MAX as u64) as i64)
}

/// The value of an expression, or the fault that comes first in the order of evaluation.
#[cycle(eval)]
pub fn eval(alloc: Global, expr: &Expr, env: &Env) -> Result<Val, Fault>
    ensures { Gives result (spec.meaning env.now expr.now) }
{
    match expr {
        Expr::Number(number) => Ok(scalar(alloc, *number)?),
        Expr::Text(text) => Ok(Val::from_vec(positions(alloc, text.as_slice())?)),
        Expr::Name(name) => {
            let at = locate(alloc, name, env)?;
            Ok(read(alloc, env, name.object, at)?)
        }
        Expr::Signal(attribute, name) => {
            let at = locate(alloc, name, env)?;
            Ok(attribute_of(alloc, *attribute, states_at(env, name.object, at)?)?)
        }
        Expr::Bound(bound, name) => {
            let at = locate(alloc, name, env)?;
            Ok(scalar(alloc, bound_of(*bound, at.range))?)
        }
        Expr::Edge(edge, name) => {
            let at = locate(alloc, name, env)?;
            Ok(scalar(
                alloc,
                truth(has_edge(*edge, states_at(env, name.object, at)?)),
            )?)
        }
        Expr::Now => Ok(now(alloc, env)?),
        Expr::Unary(operator, operand) => {
            let value = eval(alloc, operand.get(), env)?;
            apply_unary(alloc, *operator, value.as_slice())
        }
        Expr::Chain(first, links) => {
            let left = eval(alloc, first.get(), env)?;
            link_all(alloc, left, links.as_slice(), env)
        }
        Expr::Positional(items) => join_all(alloc, items.as_slice(), env),
        Expr::Named(bounds, associations) => {
            let place = bounds_at(alloc, bounds, env)?;
            let elements = associate_all(alloc, associations.as_slice(), env)?;
            Ok(assembled(alloc, place, elements.as_slice())?)
        }
    }
}

/// The number of a scalar expression.
#[cycle(eval)]
fn number(alloc: Global, expr: &Expr, env: &Env) -> Result<i64, Fault>
    ensures { Gives result (spec.number (spec.meaning env.now expr.now)) }
{
    let value = eval(alloc, expr, env)?;
    Ok(first_of(value.as_slice()))
}

/// The elements of an object that a name names.
#[cycle(eval)]
pub fn locate(alloc: Global, name: &Name, env: &Env) -> Result<Located, Fault>
    ensures { Gives result (spec.named env.now name.now).located }
{
    move_all(alloc, whole(env, name.object), name.parts.as_slice(), env)
}

#[cycle(eval)]
fn move_all(alloc: Global, start: Located, parts: &[Part], env: &Env) -> Result<Located, Fault>
    ensures { Gives result (moved_by start (map (spec.part_meaning env.now) parts.now)) }
{
    let mut at = start;
    for part in parts {
        at = move_by(alloc, at, part, env)?;
    }
    Ok(at)
}

#[cycle(eval)]
fn move_by(alloc: Global, at: Located, part: &Part, env: &Env) -> Result<Located, Fault>
    ensures { Gives result (spec.part_meaning env.now part.now at) }
{
    match part {
        Part::Index(index) => {
            let index = number(alloc, index, env)?;
            indexed(at, index)
        }
        Part::Slice(left, is_ascending, right) => {
            let left = number(alloc, left, env)?;
            let right = number(alloc, right, env)?;
            sliced(at, left, *is_ascending, right)
        }
    }
}

#[cycle(eval)]
fn link_all(alloc: Global, first: Val, links: &[Link], env: &Env) -> Result<Val, Fault>
    ensures { Gives result (spec.linked_by first (map (spec.link_meaning env.now) links.now)) }
{
    let mut left = first;
    for link in links {
        left = link_by(alloc, left, link, env)?;
    }
    Ok(left)
}

#[cycle(eval)]
fn link_by(alloc: Global, left: Val, link: &Link, env: &Env) -> Result<Val, Fault>
    ensures { Gives result (spec.link_meaning env.now link.now left) }
{
    match decided(link.operator, left.as_slice()) {
        Some(value) => Ok(scalar(alloc, truth(value))?),
        None => {
            let right = eval(alloc, &link.right, env)?;
            apply(alloc, link.operator, left.as_slice(), right.as_slice())
        }
    }
}

#[cycle(eval)]
fn join_all(alloc: Global, items: &[Expr], env: &Env) -> Result<Val, Fault>
    ensures { Gives result (joined_by [] (map (spec.meaning env.now) items.now)) }
{
    let mut elements = Vec::new(alloc);
    for item in items {
        let value = eval(alloc, item, env)?;
        elements.extend_from_slice(value.as_slice())?;
    }
    Ok(Val::from_vec(elements))
}

#[cycle(eval)]
fn associate_all(
    alloc: Global,
    associations: &[Association],
    env: &Env,
) -> Result<Items<Element>, Fault>
    ensures { Gives result (collected_by [] (map (spec.association_meaning env.now) associations.now)) }
{
    let mut elements = Items::new(alloc);
    for association in associations {
        elements.push(associate(alloc, association, env)?)?;
    }
    Ok(elements)
}

#[cycle(eval)]
fn associate(alloc: Global, association: &Association, env: &Env) -> Result<Element, Fault>
    ensures { Gives result (spec.association_meaning env.now association.now) }
{
    let choices = choose_all(alloc, association.choices.as_slice(), env)?;
    let number = number(alloc, &association.value, env)?;
    Ok(Element { choices, number })
}

#[cycle(eval)]
fn choose_all(alloc: Global, choices: &[Choice], env: &Env) -> Result<Items<Chosen>, Fault>
    ensures { Gives result (collected_by [] (map (spec.choice_meaning env.now) choices.now)) }
{
    let mut chosen = Items::new(alloc);
    for choice in choices {
        chosen.push(choose(alloc, choice, env)?)?;
    }
    Ok(chosen)
}

/// What a choice of an aggregate or of a case statement chooses.
#[cycle(eval)]
pub fn choose(alloc: Global, choice: &Choice, env: &Env) -> Result<Chosen, Fault>
    ensures { Gives result (spec.choice_meaning env.now choice.now) }
{
    match choice {
        Choice::Value(value) => Ok(Chosen::Value(eval(alloc, value, env)?)),
        Choice::Range(left, is_ascending, right) => {
            let left = number(alloc, left, env)?;
            let right = number(alloc, right, env)?;
            Ok(between(left, *is_ascending, right))
        }
        Choice::Others => Ok(Chosen::Others),
    }
}

/// The bounds that an aggregate finds at its place.
#[cycle(eval)]
pub fn bounds_at(
    alloc: Global,
    bounds: &AggregateBounds,
    env: &Env,
) -> Result<Option<IndexRange>, Fault>
    ensures { Gives result (spec.bounds_meaning env.now bounds.now) }
{
    match bounds {
        AggregateBounds::Unknown => Ok(None),
        AggregateBounds::Known(range) => Ok(Some(*range)),
        AggregateBounds::Of(name) => {
            let at = locate(alloc, name, env)?;
            Ok(at.range)
        }
    }
}
