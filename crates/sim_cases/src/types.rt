//! The types that operators, literals and aggregates give, and the types that a place asks for.

use crate::entries::{type_list, type_of, type_shown, types_of, types_shown};
use crate::texts::bytes_of;
use crate::trouble::Trouble;
use sqlite_items::Items;
use std::alloc::{AllocError, Global};
use vhdl_names_operators::{
    all_arrays, can_be, can_be_from, common_discrete, compares, fits_alone, has, narrow, of_bits,
    of_string, only, relates, results, results_from,
};
use vhdl_names_overloads::Types;
use vhdl_tree::{Operator, Unary};
use vhdl_units::BaseType;

const OPERATORS: [(&str, Operator); 20] = [
    ("and", Operator::And),
    ("or", Operator::Or),
    ("xor", Operator::Xor),
    ("xnor", Operator::Xnor),
    ("nand", Operator::Nand),
    ("nor", Operator::Nor),
    ("=", Operator::Equal),
    ("/=", Operator::NotEqual),
    ("<", Operator::Less),
    ("<=", Operator::LessEqual),
    (">", Operator::Greater),
    (">=", Operator::GreaterEqual),
    ("+", Operator::Add),
    ("-", Operator::Subtract),
    ("&", Operator::Concatenate),
    ("*", Operator::Multiply),
    ("/", Operator::Divide),
    ("mod", Operator::Mod),
    ("rem", Operator::Rem),
    ("**", Operator::Power),
];

fn operator_of(word: &str) -> Result<Operator, Trouble> {
    for (name, operator) in &OPERATORS {
        if *name == word {
            return Ok(*operator);
        }
    }
    Err(Trouble::Malformed)
}

fn sign_of(word: &str) -> Result<Unary, Trouble> {
    match word {
        "+" => Ok(Unary::Plus),
        "-" => Ok(Unary::Minus),
        "abs" => Ok(Unary::Abs),
        "not" => Ok(Unary::Not),
        _ => Err(Trouble::Malformed),
    }
}

fn answer(alloc: Global, yes: bool) -> Result<String, AllocError> {
    String::from_str(alloc, if yes { "yes" } else { "no" })
}

/// The two sides of a row `LEFT | RIGHT`.
fn sides(alloc: Global, written: &str) -> Result<(Types, Types), Trouble> {
    let (left, right) = written.split_once(" | ").ok_or(Trouble::Malformed)?;
    Ok((types_of(alloc, left)?, types_of(alloc, right)?))
}

fn operator_gives(alloc: Global, word: &str, rest: &str) -> Result<String, Trouble> {
    let operator = operator_of(word)?;
    let (left, right) = sides(alloc, rest)?;
    let types = results(alloc, operator, &left, &right)?;
    Ok(types_shown(alloc, &types)?)
}

fn sign_gives(alloc: Global, word: &str, rest: &str) -> Result<String, Trouble> {
    let operator = sign_of(word)?;
    let types = results_from(alloc, operator, &types_of(alloc, rest)?)?;
    Ok(types_shown(alloc, &types)?)
}

fn relation_holds(alloc: Global, word: &str, rest: &str) -> Result<String, Trouble> {
    let operator = operator_of(word)?;
    let (left, right) = sides(alloc, rest)?;
    Ok(answer(alloc, relates(operator, &left, &right))?)
}

/// Whether an operator can be of a type, by `TYPE | LEFT | RIGHT`.
fn operator_can(alloc: Global, word: &str, rest: &str) -> Result<String, Trouble> {
    let operator = operator_of(word)?;
    let (base, rest) = rest.split_once(" | ").ok_or(Trouble::Malformed)?;
    let base = type_of(base)?;
    let (left, right) = sides(alloc, rest)?;
    Ok(answer(alloc, can_be(operator, &left, &right, base))?)
}

fn sign_can(alloc: Global, word: &str, rest: &str) -> Result<String, Trouble> {
    let operator = sign_of(word)?;
    let (base, types) = rest.split_once(" | ").ok_or(Trouble::Malformed)?;
    let base = type_of(base)?;
    Ok(answer(alloc, can_be_from(operator, &types_of(alloc, types)?, base))?)
}

fn string_gives(alloc: Global, rest: &str) -> Result<String, Trouble> {
    let text = bytes_of(alloc, rest)?;
    let types = of_string(alloc, text.as_slice())?;
    Ok(types_shown(alloc, &types)?)
}

/// A list of arrays, or all that there are.
fn arrays_of(alloc: Global, written: &str) -> Result<Items<BaseType>, Trouble> {
    if written == "all" {
        return Ok(all_arrays(alloc)?);
    }
    type_list(alloc, written)
}

/// The arrays of a list that an element of these types can stand in.
fn narrowed(alloc: Global, rest: &str) -> Result<String, Trouble> {
    let (arrays, elements) = rest.split_once(" | ").ok_or(Trouble::Malformed)?;
    let arrays = arrays_of(alloc, arrays)?;
    let elements = types_of(alloc, elements)?;
    let types = Types::from_items(narrow(alloc, arrays.as_slice(), &elements)?);
    Ok(types_shown(alloc, &types)?)
}

fn bounds_give(alloc: Global, rest: &str) -> Result<String, Trouble> {
    let (left, right) = sides(alloc, rest)?;
    Ok(type_shown(alloc, common_discrete(&left, &right))?)
}

/// Whether a type is in a set (`has`), or is what a set of types comes to where it is asked (`fits`).
fn type_is(alloc: Global, word: &str, rest: &str) -> Result<String, Trouble> {
    let (base, types) = rest.split_once(" | ").ok_or(Trouble::Malformed)?;
    let base = type_of(base)?;
    let types = types_of(alloc, types)?;
    let yes = if word == "has" {
        has(&types, base)
    } else {
        fits_alone(base, &types)
    };
    Ok(answer(alloc, yes)?)
}

fn order_is(alloc: Global, rest: &str) -> Result<String, Trouble> {
    let (word, base) = rest.split_once(" ").ok_or(Trouble::Malformed)?;
    Ok(answer(alloc, compares(operator_of(word)?, type_of(base)?))?)
}

/// A row by its first word.
pub fn types_came(alloc: Global, given: &str) -> Result<String, Trouble> {
    if given == "bits" {
        return Ok(types_shown(alloc, &of_bits(alloc)?)?);
    }
    let (asked, rest) = given.split_once(" ").ok_or(Trouble::Malformed)?;
    match asked {
        "string" => return string_gives(alloc, rest),
        "narrow" => return narrowed(alloc, rest),
        "bounds" => return bounds_give(alloc, rest),
        "only" => return Ok(type_shown(alloc, only(&types_of(alloc, rest)?))?),
        "has" | "fits" => return type_is(alloc, asked, rest),
        "compares" => return order_is(alloc, rest),
        _ => {}
    }
    let (word, rest) = rest.split_once(" ").ok_or(Trouble::Malformed)?;
    match asked {
        "gives" => operator_gives(alloc, word, rest),
        "sign" => sign_gives(alloc, word, rest),
        "relates" => relation_holds(alloc, word, rest),
        "can" => operator_can(alloc, word, rest),
        "sign-can" => sign_can(alloc, word, rest),
        _ => Err(Trouble::Malformed),
    }
}
