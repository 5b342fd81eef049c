//! Attributes of signals and of arrays (16.2), and edges.

ghost use Rattle.std.specs.Prelude.{◌≡◌, map, IfOk};
ghost use Rattle.std.specs.List.{list_any};
ghost use Rattle.sim_operators.specs.Operators.{of_truth};
ghost use Rattle.sim_eval.specs.Reading as spec;

use sim_elaborated::{BoundAttribute, Edge, ElementState, SignalAttribute};
use sim_memory::NoMemory;
use sim_operators::{scalar, truth, x01};
use std::alloc::Global;
use vhpi_values::{IndexRange, Val};

fn has_event(states: &[ElementState]) -> bool
    ensures { result ≡ list_any (λ e. e.has_event) states.now }
{
    states.iter().any(|state| state.has_event)
}

fn is_active(states: &[ElementState]) -> bool
    ensures { result ≡ list_any (λ e. e.is_active) states.now }
{
    states.iter().any(|state| state.is_active)
}

fn last_values_list(alloc: Global, states: &[ElementState]) -> Result<Vec<i64>, NoMemory>
    ensures { IfOk result (λ values. values.items ≡ map (λ e. e.last) states.now) }
{
    Ok(states.iter().map(|state| state.last).collect(alloc)?)
}

fn last_values(alloc: Global, states: &[ElementState]) -> Result<Val, NoMemory>
    ensures { IfOk result (λ value. value ≡ map (λ e. e.last) states.now) }
{
    Ok(Val::from_vec(last_values_list(alloc, states)?))
}

/// An attribute of a signal, by the states of the elements that are named (16.2.4).
pub(crate) fn attribute_of(
    alloc: Global,
    attribute: SignalAttribute,
    states: &[ElementState],
) -> Result<Val, NoMemory>
    ensures { IfOk result (λ value. value ≡ spec.attribute_of attribute states.now) }
{
    match attribute {
        SignalAttribute::Event => scalar(alloc, truth(has_event(states))),
        SignalAttribute::Active => scalar(alloc, truth(is_active(states))),
        SignalAttribute::LastValue => last_values(alloc, states),
    }
}

fn is_edge(edge: Edge, state: ElementState) -> bool
    ensures { result ≡ spec.is_edge edge state }
{
    match edge {
        Edge::Rising => state.has_event && x01(state.current) == 3 && x01(state.last) == 2,
        Edge::Falling => state.has_event && x01(state.current) == 2 && x01(state.last) == 3,
    }
}

/// Whether there is an edge of a signal of STD_ULOGIC.
pub(crate) fn has_edge(edge: Edge, states: &[ElementState]) -> bool
    ensures { result ≡ list_any (spec.is_edge edge) states.now }
{
    states.iter().any(|state| is_edge(edge, *state))
}

fn bound_in(bound: BoundAttribute, range: IndexRange) -> i64
    ensures { result ≡ spec.bound_in bound range }
{
    match bound {
        BoundAttribute::Left => i64::from(range.left),
        BoundAttribute::Right => i64::from(range.right),
        BoundAttribute::High => i64::from(range.left).max(i64::from(range.right)),
        BoundAttribute::Low => i64::from(range.left).min(i64::from(range.right)),
        BoundAttribute::Length => range.len() as i64,
    }
}

/// A bound or the length of an array (16.2.3); 0 where it has none.
pub(crate) fn bound_of(bound: BoundAttribute, range: Option<IndexRange>) -> i64
    ensures { result ≡ spec.bound_of bound range }
{
    match range {
        Some(range) => bound_in(bound, range),
        None => 0,
    }
}
