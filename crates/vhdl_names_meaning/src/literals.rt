//! Numbers and other literals.

ghost use Rattle.std.specs.Prelude.{◌≡◌, ◌*◌, IfOk, map};
ghost use Rattle.std.specs.Option.{option_map};
ghost use Rattle.vhdl_names_meaning.specs.Literals as spec;
ghost use Rattle.vhdl_tokens.specs.Meaning.{integer_of, span};
ghost use Rattle.vhdl_tokens.specs.Values.{bits_value, text_value};
ghost use Rattle.vhdl_names_typing.specs.Literals as typing;
ghost use Rattle.vhdl_names_typing.specs.Scope.{look};

use crate::candidates::{Candidate, Open};
use crate::names::{candidate_with, only_value};
use sqlite_items::Items;
use std::alloc::{AllocError, Global};
use vhdl_names_operators::{of_bits, of_string};
use vhdl_names_overloads::Types;
use vhdl_names_scope::Regions;
use vhdl_names_typing::{femtoseconds_in, look, unit_in};
use vhdl_tokens::{Kind, Token, bits, integer, string};
use vhdl_units::{BaseType, TimeUnit, Value};

/// The largest value of INTEGER (5.2.3.2).
const INTEGER_HIGH: u128 = 2_147_483_647;

/// The largest value of TIME, in femtoseconds (5.2.4.2).
const TIME_HIGH: u128 = 9_223_372_036_854_775_807;

#[tactic(auto, unfolding(crate::specs::Literals::within))]
fn integer_value(number: u128) -> u32
    ensures { result ≡ spec.within typing.integer_high number }
{
    if INTEGER_HIGH < number {
        0
    } else {
        number as u32
    }
}

#[tactic(auto, unfolding(crate::specs::Literals::within))]
fn time_value(number: u128, each: u128) -> u64
    ensures { result ≡ spec.within typing.time_high (number * each) }
{
    let time = number.saturating_mul(each);
    if TIME_HIGH < time { 0 } else { time as u64 }
}

#[tactic(auto, unfolding(crate::specs::Literals::number_or))]
fn number_or(number: Option<u128>) -> u128
    ensures { result ≡ spec.number_or number }
{
    match number {
        Some(number) => number,
        None => 0,
    }
}

#[tactic(auto, unfolding(crate::specs::Literals::each_of))]
fn each_of(unit: Option<TimeUnit>) -> u128
    ensures { result ≡ spec.each_of unit }
{
    match unit {
        Some(unit) => femtoseconds_in(unit),
        None => 0,
    }
}

#[tactic(auto, unfolding(crate::specs::Literals::integer_candidate))]
fn integer_candidate(alloc: Global, number: u128) -> Result<Candidate, AllocError>
    ensures { IfOk result (λ v. v ≡ spec.integer_candidate number) }
{
    only_value(
        alloc,
        Value::Integer(integer_value(number)),
        BaseType::Integer,
        true,
    )
}

#[tactic(auto, unfolding(crate::specs::Literals::time_candidate))]
fn time_candidate(alloc: Global, number: u128, each: u128) -> Result<Candidate, AllocError>
    ensures { IfOk result (λ v. v ≡ spec.time_candidate number each) }
{
    only_value(
        alloc,
        Value::Time(time_value(number, each)),
        BaseType::Time,
        true,
    )
}

/// A number: an integer, or a time where it has a unit (9.3.2).
#[tactic(auto, unfolding(crate::specs::Literals::number))]
pub(crate) fn number(
    alloc: Global,
    text: &[u8],
    regions: &Regions,
    token: &Token,
    unit: &Option<Token>,
) -> Result<Candidate, AllocError>
    ensures { IfOk result (λ v. v ≡ spec.number text.now (look text.now regions.now) token.now unit.now) }
{
    let number = number_or(integer(text, token));
    match unit {
        None => integer_candidate(alloc, number),
        Some(unit) => {
            let entries = look(alloc, text, regions, unit)?;
            time_candidate(alloc, number, each_of(unit_in(&entries)))
        }
    }
}

#[tactic(auto, unfolding(crate::specs::Literals::bit_byte))]
fn bit_byte(bit: bool) -> u8
    ensures { result ≡ spec.bit_byte bit }
{
    if bit { 49 } else { 48 }
}

fn bit_bytes(alloc: Global, bits: &[bool]) -> Result<Items<u8>, AllocError>
    ensures { IfOk result (λ v. v ≡ map spec.bit_byte bits.now) }
{
    let mut bytes = Items::new(alloc);
    for bit in bits {
        bytes.push(bit_byte(*bit))?;
    }
    Ok(bytes)
}

#[tactic(auto, unfolding(crate::specs::Literals::text_candidate))]
fn text_candidate(alloc: Global, value: Option<Vec<u8>>) -> Result<Candidate, AllocError>
    ensures { IfOk result (λ v. v ≡ spec.text_candidate (option_map (λ bytes. bytes.items) value)) }
{
    match value {
        Some(bytes) => {
            let types = of_string(alloc, &bytes)?;
            Ok(candidate_with(types, true, Open::Text(Items::from_vec(bytes))))
        }
        None => Ok(candidate_with(Types::new(), true, Open::Text(Items::new(alloc)))),
    }
}

#[tactic(auto, unfolding(crate::specs::Literals::bits_candidate))]
fn bits_candidate(alloc: Global, value: Option<Vec<bool>>) -> Result<Candidate, AllocError>
    ensures { IfOk result (λ v. v ≡ spec.bits_candidate (option_map (λ bits. bits.items) value)) }
{
    let types = of_bits(alloc)?;
    match value {
        Some(bits) => {
            let bytes = bit_bytes(alloc, &bits)?;
            Ok(candidate_with(types, true, Open::Text(bytes)))
        }
        None => Ok(candidate_with(types, true, Open::Text(Items::new(alloc)))),
    }
}

fn text_literal(alloc: Global, text: &[u8], token: &Token) -> Result<Candidate, AllocError>
    ensures { IfOk result (λ v. v ≡ spec.text_candidate (text_value (span text.now token.now))) }
{
    let value = string(alloc, text, token)?;
    text_candidate(alloc, value)
}

fn bits_literal(alloc: Global, text: &[u8], token: &Token) -> Result<Candidate, AllocError>
    ensures { IfOk result (λ v. v ≡ spec.bits_candidate (bits_value (span text.now token.now))) }
{
    let value = bits(alloc, text, token)?;
    bits_candidate(alloc, value)
}

#[tactic(auto, unfolding(crate::specs::Literals::character_candidate))]
fn character_literal(
    alloc: Global,
    text: &[u8],
    regions: &Regions,
    token: &Token,
) -> Result<Candidate, AllocError>
    ensures { IfOk result (λ v. v ≡ spec.character_candidate (look text.now regions.now token.now)) }
{
    let entries = look(alloc, text, regions, token)?;
    let types = Types::of_literals(entries.share(alloc)?);
    Ok(candidate_with(types, true, Open::Literals(entries)))
}

/// A character, string or bit string literal (9.3.2).
#[tactic(auto, unfolding(crate::specs::Literals::spelled, crate::specs::Literals::spelled_as))]
pub(crate) fn spelled(
    alloc: Global,
    text: &[u8],
    regions: &Regions,
    token: &Token,
) -> Result<Candidate, AllocError>
    ensures { IfOk result (λ v. v ≡ spec.spelled text.now (look text.now regions.now) token.now) }
{
    match token.kind {
        Kind::Char => character_literal(alloc, text, regions, token),
        Kind::Text => text_literal(alloc, text, token),
        Kind::Bits => bits_literal(alloc, text, token),
        _ => Ok(candidate_with(Types::new(), false, Open::Value(Value::Unknown))),
    }
}
