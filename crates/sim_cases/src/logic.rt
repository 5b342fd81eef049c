//! The nine values: resolution and operators.

use crate::trouble::Trouble;
use sim_logic::{Logic9, and9, not9, or9, resolve, to_x01, xor9};
use std::alloc::{AllocError, Global};

const VALUES: [(u8, Logic9); 9] = [
    (b'U', Logic9::U),
    (b'X', Logic9::X),
    (b'0', Logic9::Zero),
    (b'1', Logic9::One),
    (b'Z', Logic9::Z),
    (b'W', Logic9::W),
    (b'L', Logic9::L),
    (b'H', Logic9::H),
    (b'-', Logic9::Dash),
];

fn value_of(byte: u8) -> Result<Logic9, Trouble> {
    for (literal, value) in &VALUES {
        if *literal == byte {
            return Ok(*value);
        }
    }
    Err(Trouble::Malformed)
}

fn literal_of(value: Logic9) -> char {
    for (literal, other) in &VALUES {
        if *other == value {
            return char::from(*literal);
        }
    }
    '?'
}

fn values_of(alloc: Global, written: &str) -> Result<Vec<Logic9>, Trouble> {
    let mut values = Vec::new(alloc);
    for byte in written.as_bytes() {
        values.push(value_of(*byte)?)?;
    }
    Ok(values)
}

fn shown(alloc: Global, value: Logic9) -> Result<String, AllocError> {
    let mut out = String::new(alloc);
    out.push(literal_of(value))?;
    Ok(out)
}

/// A value resolved with each of the nine in their order.
fn row(alloc: Global, value: Logic9) -> Result<String, AllocError> {
    let mut out = String::new(alloc);
    for (_, other) in &VALUES {
        out.push(literal_of(resolve(&[value, *other])))?;
    }
    Ok(out)
}

/// A function of one or two values.
fn result_of(function: &str, values: &[Logic9]) -> Option<Logic9> {
    match (function, values) {
        ("and", [a, b]) => Some(and9(*a, *b)),
        ("or", [a, b]) => Some(or9(*a, *b)),
        ("xor", [a, b]) => Some(xor9(*a, *b)),
        ("not", [a]) => Some(not9(*a)),
        ("to_x01", [a]) => Some(to_x01(*a)),
        _ => None,
    }
}

/// A function, and the values that it is given.
pub fn logic_came(alloc: Global, given: &str) -> Result<String, Trouble> {
    let (function, values) = given.split_once(" ").ok_or(Trouble::Malformed)?;
    let values = values_of(alloc, values)?;
    let values = values.as_slice();
    match (function, values) {
        ("row", [value]) => Ok(row(alloc, *value)?),
        ("resolve", [_, ..]) => Ok(shown(alloc, resolve(values))?),
        _ => {
            let value = result_of(function, values).ok_or(Trouble::Malformed)?;
            Ok(shown(alloc, value)?)
        }
    }
}
