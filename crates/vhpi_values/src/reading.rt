//! Values from formatted ones.

ghost use Rattle.std.specs.Prelude.{◌≡◌, ◌+◌, ◌-◌, ◌^◌, ◌/◌, ◌↔◌, false, min, map, option_map, option_and_then, IfOk, IfSome, OnOk, ◌++◌, IsErrOf, Ok, Err, ℕ, pos, position, ◌==◌, ◌<◌, length};
ghost use Rattle.vhpi_values.specs.Types.{element_count};
ghost use Rattle.vhpi_values.specs.Values.{Fits};
ghost use Rattle.vhpi_values.specs.Formats.{pairs, filling};
ghost use Rattle.vhpi_values.specs.Reading.{number, byte, character, natural_number, decimal_text, four_bits, group_of, signed, places, digit, digits, single, gathered, Answers, reading, format_of};

use crate::formats::{Formatted, ValueError};
use crate::types::Ty;
use crate::values::Val;
use crate::writing::{filled_places, goes_with};
use sim_memory::NoMemory;
use std::alloc::Global;

/// The value that a formatted one stands for.
///
/// BadFormat comes exactly where the format doesn't go with the type, and BadValue exactly where it
/// does and the content is no value of the type; its place is the first at which content and type
/// don't agree.
pub fn read_value(alloc: Global, ty: &Ty, from: &Formatted) -> Result<Val, ValueError>
    ensures value { IfOk result (λ val. reading ty.now from.now ≡ Ok val) }
    ensures fits { IfOk result (Fits ty.now) }
    ensures bad_format { IsErrOf result ValueError.BadFormat ↔ (pairs (format_of from.now) ty.now ≡ false) }
    ensures bad_value { (place : ℕ) → IsErrOf result (ValueError.BadValue place) → reading ty.now from.now ≡ Err place }
{
    if !goes_with(from.format(), ty) {
        return Err(ValueError::BadFormat);
    }
    match read(alloc, ty, from) {
        Ok(elements) => Ok(Val::from_vec(elements)),
        Err(error) => Err(error),
    }
}

fn read(alloc: Global, ty: &Ty, from: &Formatted) -> Result<Vec<i64>, ValueError>
    ensures { Answers (λ v. v.items) result (reading ty.now from.now) }
{
    match from {
        Formatted::BinStr(text) => {
            let members = characters(alloc, ty, text.as_slice())?;
            gather(alloc, ty.element_count(), members.as_slice())
        }
        Formatted::HexStr(text) => read_digits(alloc, ty, text.as_slice()),
        Formatted::DecStr(text) => {
            let member = read_decimal(ty, text.as_slice());
            gather(alloc, ty.element_count(), &[member])
        }
        Formatted::Enum(value)
        | Formatted::Int(value)
        | Formatted::Logic(value)
        | Formatted::Char(value)
        | Formatted::Time(value) => {
            gather(alloc, ty.element_count(), &[read_number(ty, *value)])
        }
        Formatted::Str(text) => {
            let members = bytes(alloc, ty, text.as_slice())?;
            gather(alloc, ty.element_count(), members.as_slice())
        }
        Formatted::EnumVec(values) | Formatted::IntVec(values) | Formatted::LogicVec(values) => {
            let members = numbers(alloc, ty, values.as_slice())?;
            gather(alloc, ty.element_count(), members.as_slice())
        }
    }
}

fn read_digits(alloc: Global, ty: &Ty, text: &[u8]) -> Result<Vec<i64>, ValueError>
    ensures { Answers (λ v. v.items) result (gathered ((element_count ty.now + 3) / 4) (digits ty.now (filling (element_count ty.now)) text.now)) }
{
    let count = ty.element_count();
    let wanted = (count + 3) / 4;
    let mut filled = filled_places(count);
    let mut elements = Vec::new(alloc);
    for (place, value) in text.iter().enumerate() {
        if place == wanted {
            return Err(ValueError::BadValue { place });
        }
        match read_digit(alloc, ty, filled, *value)? {
            Some(more) => extend(&mut elements, more)?,
            None => return Err(ValueError::BadValue { place }),
        }
        filled = 0;
    }
    if text.len() < wanted {
        return Err(ValueError::BadValue { place: text.len() });
    }
    Ok(elements)
}

fn extend(elements: &mut Vec<i64>, more: Vec<i64>) -> Result<(), NoMemory>
    ensures { OnOk result (elements.new.items ≡ elements.old.items ++ more.items) }
{
    elements.extend_from_slice(more.as_slice())?;
    Ok(())
}

fn read_number(ty: &Ty, value: i64) -> Option<i64>
    ensures { result ≡ number ty.now value }
{
    if ty.lowest() <= value && value <= ty.highest() {
        Some(value)
    } else {
        None
    }
}

fn read_byte(ty: &Ty, value: u8) -> Option<i64>
    ensures { result ≡ byte ty.now value }
{
    read_number(ty, i64::from(value))
}

fn read_character(ty: &Ty, value: u8) -> Option<i64>
    ensures { result ≡ character ty.now value }
{
    match position_of(ty.base().characters(), value) {
        Some(place) => read_number(ty, place as i64),
        None => None,
    }
}

fn position_of(characters: &[u8], value: u8) -> Option<usize>
    ensures place { result ≡ position (λ other. other == value) characters.now }
    ensures within { IfSome result (λ place. place < length characters.now) }
{
    characters.iter().position(|other| *other == value)
}

fn natural(digits: &[u8]) -> Option<u64>
    ensures { result ≡ option_map (λ n. min n (2 ^ 64 - 1)) (natural_number digits.now) }
{
    if digits.is_empty() || digits.len() > 20 {
        return None;
    }
    let mut value = 0u64;
    for digit in digits {
        if !digit.is_ascii_digit() {
            return None;
        }
        value = value
            .saturating_mul(10)
            .saturating_add(u64::from(*digit - b'0'));
    }
    Some(value)
}

fn gather(alloc: Global, wanted: usize, members: &[Option<i64>]) -> Result<Vec<i64>, ValueError>
    ensures { Answers (λ v. v.items) result (gathered wanted (map single members.now)) }
{
    let mut elements = Vec::new(alloc);
    for member in members {
        let place = elements.len();
        if place == wanted {
            return Err(ValueError::BadValue { place });
        }
        match member {
            Some(element) => match elements.push(*element) {
                Ok(()) => {}
                Err(_) => return Err(ValueError::NoMemory),
            },
            None => return Err(ValueError::BadValue { place }),
        }
    }
    if elements.len() < wanted {
        return Err(ValueError::BadValue {
            place: elements.len(),
        });
    }
    Ok(elements)
}

fn read_decimal(ty: &Ty, text: &[u8]) -> Option<i64>
    ensures { result ≡ decimal_text ty.now text.now }
{
    match text {
        [b'-', digits @ ..] => read_size(ty, true, digits),
        _ => read_size(ty, false, text),
    }
}

fn read_size(ty: &Ty, is_negative: bool, digits: &[u8]) -> Option<i64>
    ensures { result ≡ option_and_then (λ n. number ty.now (signed is_negative n)) (natural_number digits.now) }
{
    let _bounds = (ty.left(), ty.right());
    let size = natural(digits)?;
    if size > i64::MAX as u64 {
        return None;
    }
    let size = size as i64;
    if is_negative {
        read_number(ty, -size)
    } else {
        read_number(ty, size)
    }
}

fn group_of(digit: u8) -> Option<[u8; 4]>
    ensures { result ≡ group_of digit }
{
    if digit == b'X' || digit == b'Z' {
        return Some([digit; 4]);
    }
    match position_of(b"0123456789ABCDEF", digit) {
        Some(value) => Some(four_bits(value as u8)),
        None => None,
    }
}

fn four_bits(value: u8) -> [u8; 4]
    requires { value < 16 }
    ensures { result ≡ four_bits value }
{
    [
        b'0' + value / 8,
        b'0' + value / 4 % 2,
        b'0' + value / 2 % 2,
        b'0' + value % 2,
    ]
}

fn read_group(
    alloc: Global,
    ty: &Ty,
    filled: usize,
    group: &[u8],
) -> Result<Option<Vec<i64>>, NoMemory>
    ensures { IfOk result (λ read. option_map (λ v. v.items) read ≡ places ty.now filled group.now) }
{
    let mut elements = Vec::new(alloc);
    let mut left = filled;
    for character in group {
        if left > 0 {
            if *character != b'0' {
                return Ok(None);
            }
            left -= 1;
            continue;
        }
        match read_character(ty, *character) {
            Some(element) => elements.push(element)?,
            None => return Ok(None),
        }
    }
    Ok(Some(elements))
}

fn read_digit(
    alloc: Global,
    ty: &Ty,
    filled: usize,
    value: u8,
) -> Result<Option<Vec<i64>>, NoMemory>
    ensures { IfOk result (λ read. option_map (λ v. v.items) read ≡ digit ty.now filled value) }
{
    match group_of(value) {
        Some(group) => read_group(alloc, ty, filled, &group),
        None => Ok(None),
    }
}

fn characters(alloc: Global, ty: &Ty, text: &[u8]) -> Result<Vec<Option<i64>>, NoMemory>
    ensures { IfOk result (λ read. read.items ≡ map (character ty.now) text.now) }
{
    Ok(
        text.iter()
            .map(|value| read_character(ty, *value))
            .collect(alloc)?,
    )
}

fn bytes(alloc: Global, ty: &Ty, text: &[u8]) -> Result<Vec<Option<i64>>, NoMemory>
    ensures { IfOk result (λ read. read.items ≡ map (byte ty.now) text.now) }
{
    Ok(
        text.iter()
            .map(|value| read_byte(ty, *value))
            .collect(alloc)?,
    )
}

fn numbers(alloc: Global, ty: &Ty, values: &[i64]) -> Result<Vec<Option<i64>>, NoMemory>
    ensures { IfOk result (λ read. read.items ≡ map (number ty.now) values.now) }
{
    Ok(
        values
            .iter()
            .map(|value| read_number(ty, *value))
            .collect(alloc)?,
    )
}
