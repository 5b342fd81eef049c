//! Operators on values (9.2).

ghost use Rattle.std.specs.Prelude.{◌≡◌, ◌++◌, map, option_map, IfOk};
ghost use Rattle.std.specs.List.{zip, list_all};
ghost use Rattle.std.specs.Ordering.{int_eq};
ghost use Rattle.sim_operators.specs.Outcomes.{Gives};
ghost use Rattle.sim_operators.specs.Logic as logic_spec;
ghost use Rattle.sim_operators.specs.Operators as spec;

use crate::fault::Fault;
use crate::logic::{
    both, decided_by, is_true, nine_valued_at, nine_valued_not_at, truth, two_valued_at,
    two_valued_not_at, x01,
};
use crate::numbers::{calculate, magnitude, negation, within};
use crate::scalars::{first_of, scalar};
use sim_elaborated::{Logical, Number, Operator, Relation, Unary};
use sim_memory::NoMemory;
use std::alloc::Global;
use vhpi_values::Val;

fn are_equal_so_far(a: &[i64], b: &[i64]) -> bool
    ensures { result ≡ list_all (λ pair. int_eq pair.0 pair.1) (zip a.now b.now) }
{
    a.iter().zip(b).all(|(x, y)| *x == *y)
}

/// Whether two values of one type are equal.
pub fn are_equal(a: &[i64], b: &[i64]) -> bool
    ensures { result ≡ spec.are_equal a.now b.now }
{
    a.len() == b.len() && are_equal_so_far(a, b)
}

fn holds(relation: Relation, a: &[i64], b: &[i64]) -> bool
    ensures { result ≡ spec.holds relation a.now b.now }
{
    match relation {
        Relation::Equal => are_equal(a, b),
        Relation::NotEqual => !are_equal(a, b),
        Relation::Less => first_of(a) < first_of(b),
        Relation::LessOrEqual => first_of(a) <= first_of(b),
        Relation::Greater => first_of(b) < first_of(a),
        Relation::GreaterOrEqual => first_of(b) <= first_of(a),
    }
}

/// What an operator gives where its left operand decides alone.
pub fn decided(operator: Operator, left: &[i64]) -> Option<bool>
    ensures { option_map spec.of_truth result ≡ spec.decided operator left.now }
{
    match operator {
        Operator::ShortCircuit(short) => decided_by(short, is_true(first_of(left))),
        _ => None,
    }
}

fn two_valued_pairs(
    alloc: Global,
    logical: Logical,
    a: &[i64],
    b: &[i64],
) -> Result<Vec<i64>, NoMemory>
    ensures { IfOk result (λ v. v.items ≡ map (λ pair. logic_spec.two_valued_at logical pair.0 pair.1) (zip a.now b.now)) }
{
    let elements = a
        .iter()
        .zip(b)
        .map(|(x, y)| two_valued_at(logical, *x, *y))
        .collect(alloc)?;
    Ok(elements)
}

fn nine_valued_pairs(
    alloc: Global,
    logical: Logical,
    a: &[i64],
    b: &[i64],
) -> Result<Vec<i64>, NoMemory>
    ensures { IfOk result (λ v. v.items ≡ map (λ pair. logic_spec.nine_valued_at logical pair.0 pair.1) (zip a.now b.now)) }
{
    let elements = a
        .iter()
        .zip(b)
        .map(|(x, y)| nine_valued_at(logical, *x, *y))
        .collect(alloc)?;
    Ok(elements)
}

fn two_valued(alloc: Global, logical: Logical, a: &[i64], b: &[i64]) -> Result<Val, Fault>
    ensures { Gives result (logic_spec.by_element (logic_spec.two_valued_at logical) a.now b.now) }
{
    if a.len() != b.len() {
        return Err(Fault::Range(b.len() as i64));
    }
    Ok(Val::from_vec(two_valued_pairs(alloc, logical, a, b)?))
}

fn nine_valued(alloc: Global, logical: Logical, a: &[i64], b: &[i64]) -> Result<Val, Fault>
    ensures { Gives result (logic_spec.by_element (logic_spec.nine_valued_at logical) a.now b.now) }
{
    if a.len() != b.len() {
        return Err(Fault::Range(b.len() as i64));
    }
    Ok(Val::from_vec(nine_valued_pairs(alloc, logical, a, b)?))
}

fn concatenate(alloc: Global, a: &[i64], b: &[i64]) -> Result<Val, NoMemory>
    ensures { IfOk result (λ value. value ≡ a.now ++ b.now) }
{
    let mut elements = Vec::from_slice(alloc, a)?;
    elements.extend_from_slice(b)?;
    Ok(Val::from_vec(elements))
}

/// What an operator gives on both operands (9.2).
pub fn apply(alloc: Global, operator: Operator, a: &[i64], b: &[i64]) -> Result<Val, Fault>
    ensures { Gives result (spec.applied operator a.now b.now) }
{
    match operator {
        Operator::ShortCircuit(short) => {
            Ok(scalar(alloc, truth(both(short, first_of(a), first_of(b))))?)
        }
        Operator::TwoValued(logical) => two_valued(alloc, logical, a, b),
        Operator::NineValued(logical) => nine_valued(alloc, logical, a, b),
        Operator::Relation(relation) => Ok(scalar(alloc, truth(holds(relation, a, b)))?),
        Operator::Concatenate => Ok(concatenate(alloc, a, b)?),
        Operator::Arithmetic(arithmetic, of) => {
            Ok(scalar(alloc, calculate(arithmetic, of, first_of(a), first_of(b))?)?)
        }
    }
}

fn two_valued_not(alloc: Global, a: &[i64]) -> Result<Vec<i64>, NoMemory>
    ensures { IfOk result (λ v. v.items ≡ map logic_spec.two_valued_not_at a.now) }
{
    Ok(a.iter().map(|x| two_valued_not_at(*x)).collect(alloc)?)
}

fn nine_valued_not(alloc: Global, a: &[i64]) -> Result<Vec<i64>, NoMemory>
    ensures { IfOk result (λ v. v.items ≡ map logic_spec.nine_valued_not_at a.now) }
{
    Ok(a.iter().map(|x| nine_valued_not_at(*x)).collect(alloc)?)
}

fn x01_of(alloc: Global, a: &[i64]) -> Result<Vec<i64>, NoMemory>
    ensures { IfOk result (λ v. v.items ≡ map logic_spec.x01_at a.now) }
{
    Ok(a.iter().map(|x| x01(*x)).collect(alloc)?)
}

fn value_at(count: u32, number: i64) -> Result<i64, Fault>
    ensures { result ≡ spec.value_at count number }
{
    if 0 <= number && number < i64::from(count) {
        Ok(number)
    } else {
        Err(Fault::Range(number))
    }
}

/// What is made of one operand.
pub fn apply_unary(alloc: Global, operator: Unary, a: &[i64]) -> Result<Val, Fault>
    ensures { Gives result (spec.applied_unary operator a.now) }
{
    match operator {
        Unary::Negate(of) => Ok(scalar(alloc, within(of, negation(first_of(a)))?)?),
        Unary::Absolute => Ok(scalar(alloc, within(Number::Integer, magnitude(first_of(a)))?)?),
        Unary::TwoValuedNot => Ok(Val::from_vec(two_valued_not(alloc, a)?)),
        Unary::NineValuedNot => Ok(Val::from_vec(nine_valued_not(alloc, a)?)),
        Unary::ToX01 => Ok(Val::from_vec(x01_of(alloc, a)?)),
        Unary::ValueAt(count) => Ok(scalar(alloc, value_at(count, first_of(a))?)?),
    }
}
