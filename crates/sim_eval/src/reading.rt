//! The values of named elements.

ghost use Rattle.std.specs.Prelude.{◌≡◌, ◌+◌, map, take, drop, min, length, [], IfOk};
ghost use Rattle.sim_operators.specs.Operators.{only};
ghost use Rattle.sim_eval.specs.Reading as spec;
ghost use Rattle.sim_eval.specs.Located.{count_of};

use crate::environment::Env;
use crate::locating::{Located, plus};
use sim_elaborated::{ElementState, Object};
use sim_memory::NoMemory;
use sim_operators::scalar;
use std::alloc::Global;
use vhpi_values::Val;

fn front<T>(members: &[T], count: usize) -> &[T]
    ensures { result.now ≡ take count members.now }
{
    if count < members.len() {
        let (front, _) = members.split_at(count);
        front
    } else {
        members
    }
}

fn back<T>(members: &[T], count: usize) -> &[T]
    ensures { result.now ≡ drop count members.now }
{
    if count < members.len() {
        let (_, back) = members.split_at(count);
        back
    } else {
        &[]
    }
}

/// Some members of a list from a place on, as far as there are.
pub(crate) fn part_of<T>(members: &[T], first: usize, count: usize) -> &[T]
    ensures { result.now ≡ spec.part_of members.now first count }
{
    front(back(members, first), count)
}

fn elements_of(alloc: Global, value: &Val, at: Located) -> Result<Val, NoMemory>
    ensures { IfOk result (λ v. v ≡ spec.part_of value.now at.first (count_of at)) }
{
    let elements = part_of(value.as_slice(), at.first, at.count());
    Ok(Val::from_vec(Vec::from_slice(alloc, elements)?))
}

fn nothing(alloc: Global) -> Val
    ensures { result ≡ [] }
{
    Val::from_vec(Vec::new(alloc))
}

/// The states of the named elements of a net of the instance.
fn states_of<'a>(env: &Env<'a>, number: u32, at: Located) -> Result<&'a [ElementState], NoMemory>
    ensures { IfOk result (λ states. states.now ≡ spec.states_of env.now number at) }
{
    match env.nets.get(number as usize) {
        Some(net) => {
            let first = plus(net.first_element as usize, at.first)?;
            Ok(part_of(env.elements, first, at.count()))
        }
        None => Ok(&[]),
    }
}

/// The states of the named elements, where the object is a net.
pub(crate) fn states_at<'a>(
    env: &Env<'a>,
    object: Object,
    at: Located,
) -> Result<&'a [ElementState], NoMemory>
    ensures { IfOk result (λ states. states.now ≡ spec.states_at env.now object at) }
{
    match object {
        Object::Net(number) => states_of(env, number, at),
        _ => Ok(&[]),
    }
}

fn current_values_list(alloc: Global, states: &[ElementState]) -> Result<Vec<i64>, NoMemory>
    ensures { IfOk result (λ values. values.items ≡ map (λ e. e.current) states.now) }
{
    Ok(states.iter().map(|state| state.current).collect(alloc)?)
}

fn current_values(alloc: Global, states: &[ElementState]) -> Result<Val, NoMemory>
    ensures { IfOk result (λ value. value ≡ map (λ e. e.current) states.now) }
{
    Ok(Val::from_vec(current_values_list(alloc, states)?))
}

/// The values of the named elements.
pub(crate) fn read(alloc: Global, env: &Env, object: Object, at: Located) -> Result<Val, NoMemory>
    ensures { IfOk result (λ value. value ≡ spec.read env.now object at) }
{
    match object {
        Object::Generic(number) => match env.generics.get(number as usize) {
            Some(generic) => elements_of(alloc, &generic.value, at),
            None => Ok(nothing(alloc)),
        },
        Object::Constant(number) => match env.constants.get(number as usize) {
            Some(constant) => elements_of(alloc, &constant.value, at),
            None => Ok(nothing(alloc)),
        },
        Object::Net(number) => current_values(alloc, states_of(env, number, at)?),
        Object::Variable(number) => match env.values.get(number as usize) {
            Some(value) => elements_of(alloc, value, at),
            None => Ok(nothing(alloc)),
        },
        Object::Parameter(number) => match env.parameters.get(number as usize) {
            Some(value) => scalar(alloc, *value),
            None => Ok(nothing(alloc)),
        },
    }
}
