//! Values in formats: what is written, read, refused and printed.

use crate::out::Out;
use crate::texts::{bytes_of, number_of};
use crate::trouble::Trouble;
use std::alloc::{AllocError, Global};
use vhpi_values::{
    Base, Format, FormatError, Formatted, IndexRange, Literal, Sequence, Ty, Val, ValueError,
    default_of, fits, format_value, print_value, read_value,
};

/// The type `(red, Green, 'b')`.
fn own_base(alloc: Global) -> Result<Base, Trouble> {
    let red = Sequence::from_vec(Vec::from_slice(alloc, b"red")?);
    let green = Sequence::from_vec(Vec::from_slice(alloc, b"Green")?);
    let mut literals = Vec::new(alloc);
    literals.push(Literal::Identifier(red))?;
    literals.push(Literal::Identifier(green))?;
    literals.push(Literal::Character(b'b'))?;
    Ok(Base::Own(Sequence::from_vec(literals)))
}

fn vector(base: Base, least: i64, greatest: i64, count: usize) -> Result<Ty, Trouble> {
    let right = i32::try_from(count).ok().ok_or(Trouble::Malformed)?;
    if !base.has_value(least) || !base.has_value(greatest) || !base.can_be_element() {
        return Err(Trouble::Malformed);
    }
    let index = IndexRange {
        left: 1,
        right,
        is_ascending: true,
    };
    Ok(Ty::array(base, least, greatest, false, index))
}

fn own_type(alloc: Global) -> Result<Ty, Trouble> {
    let base = own_base(alloc)?;
    if !base.has_value(0) || !base.has_value(2) {
        return Err(Trouble::Malformed);
    }
    Ok(Ty::scalar(base, 0, 2, false))
}

/// The type of this name, with so many elements if it is an array.
fn type_of(alloc: Global, name: &str, count: usize) -> Result<Ty, Trouble> {
    match name {
        "boolean" => Ok(Ty::scalar(Base::Boolean, 0, 1, false)),
        "bit" => Ok(Ty::scalar(Base::Bit, 0, 1, false)),
        "character" => Ok(Ty::scalar(Base::Character, 0, 255, false)),
        "logic" => Ok(Ty::scalar(Base::Logic, 0, 8, true)),
        "integer" => Ok(Ty::scalar(Base::Integer, -2147483648, 2147483647, false)),
        "down" => Ok(Ty::scalar(Base::Integer, 9, 3, false)),
        "time" => Ok(Ty::scalar(Base::Time, 0, i64::MAX, false)),
        "bits" => vector(Base::Bit, 0, 1, count),
        "logics" => vector(Base::Logic, 0, 8, count),
        "string" => vector(Base::Character, 0, 255, count),
        "integers" => vector(Base::Integer, -2147483648, 2147483647, count),
        "own" => own_type(alloc),
        _ => Err(Trouble::Malformed),
    }
}

const FORMATS: [(&str, Format); 13] = [
    ("BinStr", Format::BinStr),
    ("HexStr", Format::HexStr),
    ("DecStr", Format::DecStr),
    ("Enum", Format::Enum),
    ("Int", Format::Int),
    ("Logic", Format::Logic),
    ("Str", Format::Str),
    ("Char", Format::Char),
    ("Time", Format::Time),
    ("ObjType", Format::ObjType),
    ("EnumVec", Format::EnumVec),
    ("IntVec", Format::IntVec),
    ("LogicVec", Format::LogicVec),
];

fn format_of(word: &str) -> Result<Format, Trouble> {
    for (name, format) in &FORMATS {
        if *name == word {
            return Ok(*format);
        }
    }
    Err(Trouble::Malformed)
}

/// A whole number with its sign.
fn signed(written: &str) -> Result<i64, Trouble> {
    written.parse::<i64>().ok().ok_or(Trouble::Malformed)
}

fn numbers(alloc: Global, written: &str) -> Result<Vec<i64>, Trouble> {
    let mut numbers = Vec::new(alloc);
    for word in written.split_whitespace() {
        numbers.push(signed(word)?)?;
    }
    Ok(numbers)
}

fn number_list(alloc: Global, list: &[i64]) -> Result<String, AllocError> {
    let mut out = Out::new(alloc);
    for number in list {
        out.show(*number);
        out.put(" ");
    }
    out.finish_list()
}

fn text_shown(alloc: Global, bytes: &[u8]) -> Result<String, AllocError> {
    let mut out = Out::new(alloc);
    out.bytes(bytes);
    out.finish()
}

/// A content: its text or its numbers.
fn shown(alloc: Global, formatted: &Formatted) -> Result<String, AllocError> {
    match formatted {
        Formatted::BinStr(text)
        | Formatted::HexStr(text)
        | Formatted::DecStr(text)
        | Formatted::Str(text) => text_shown(alloc, text.as_slice()),
        Formatted::Enum(number)
        | Formatted::Int(number)
        | Formatted::Logic(number)
        | Formatted::Char(number)
        | Formatted::Time(number) => format!(in alloc; "{number}"),
        Formatted::EnumVec(numbers) | Formatted::IntVec(numbers) | Formatted::LogicVec(numbers) => {
            number_list(alloc, numbers.as_slice())
        }
    }
}

/// A type and a value of it, by its name and its elements.
fn value_of(alloc: Global, name: &str, written: &str) -> Result<(Ty, Val), Trouble> {
    let elements = numbers(alloc, written)?;
    let ty = type_of(alloc, name, elements.len())?;
    Ok((ty, Val::from_vec(elements)))
}

fn written_value(alloc: Global, format: Format, ty: &Ty, val: &Val) -> Result<String, Trouble> {
    if !fits(ty, val) {
        return Err(Trouble::Malformed);
    }
    match format_value(alloc, ty, val, format) {
        Ok(formatted) => Ok(shown(alloc, &formatted)?),
        Err(FormatError::BadFormat) => Ok(String::from_str(alloc, "BadFormat")?),
        Err(FormatError::NoMemory) => Err(Trouble::NoMemory),
    }
}

/// `FORMAT TYPE ELEMENTS`.
fn write_came(alloc: Global, given: &str) -> Result<String, Trouble> {
    let (format, rest) = given.split_once(" ").ok_or(Trouble::Malformed)?;
    let (name, elements) = rest.split_once(" ").ok_or(Trouble::Malformed)?;
    let (ty, val) = value_of(alloc, name, elements)?;
    written_value(alloc, format_of(format)?, &ty, &val)
}

/// The default of a type of one element in a format: `FORMAT TYPE`.
fn default_came(alloc: Global, given: &str) -> Result<String, Trouble> {
    let (format, name) = given.split_once(" ").ok_or(Trouble::Malformed)?;
    let ty = type_of(alloc, name, 1)?.copy(alloc)?;
    let val = default_of(alloc, &ty)?;
    written_value(alloc, format_of(format)?, &ty, &val)
}

/// A text as a content of this format, or its one number, or its numbers.
fn content_of(alloc: Global, format: Format, text: &[u8]) -> Result<Formatted, Trouble> {
    let bytes = Sequence::from_vec(Vec::from_slice(alloc, text)?);
    match format {
        Format::BinStr => Ok(Formatted::BinStr(bytes)),
        Format::HexStr => Ok(Formatted::HexStr(bytes)),
        Format::DecStr => Ok(Formatted::DecStr(bytes)),
        Format::Str => Ok(Formatted::Str(bytes)),
        _ => number_content(alloc, format, text),
    }
}

fn number_content(alloc: Global, format: Format, text: &[u8]) -> Result<Formatted, Trouble> {
    let text = std::str::from_utf8(text).ok().ok_or(Trouble::Malformed)?;
    match format {
        Format::Enum => Ok(Formatted::Enum(signed(text)?)),
        Format::Int => Ok(Formatted::Int(signed(text)?)),
        Format::Logic => Ok(Formatted::Logic(signed(text)?)),
        Format::Char => Ok(Formatted::Char(signed(text)?)),
        Format::Time => Ok(Formatted::Time(signed(text)?)),
        Format::IntVec => Ok(Formatted::IntVec(Sequence::from_vec(numbers(alloc, text)?))),
        _ => Err(Trouble::Malformed),
    }
}

/// `FORMAT TYPE COUNT TEXT`.
fn read_came(alloc: Global, given: &str) -> Result<String, Trouble> {
    let (format, rest) = given.split_once(" ").ok_or(Trouble::Malformed)?;
    let (name, rest) = rest.split_once(" ").ok_or(Trouble::Malformed)?;
    let (count, text) = rest.split_once(" ").ok_or(Trouble::Malformed)?;
    let ty = type_of(alloc, name, number_of(count)?)?;
    let text = bytes_of(alloc, text)?;
    let from = content_of(alloc, format_of(format)?, text.as_slice())?;
    match read_value(alloc, &ty, &from) {
        Ok(val) => Ok(number_list(alloc, val.as_slice())?),
        Err(ValueError::BadFormat) => Ok(String::from_str(alloc, "BadFormat")?),
        Err(ValueError::BadValue { place }) => Ok(format!(in alloc; "BadValue {place}")?),
        Err(ValueError::NoMemory) => Err(Trouble::NoMemory),
    }
}

/// `TYPE ELEMENTS`.
fn print_came(alloc: Global, given: &str) -> Result<String, Trouble> {
    let (name, elements) = given.split_once(" ").ok_or(Trouble::Malformed)?;
    let (ty, val) = value_of(alloc, name, elements)?;
    if !fits(&ty, &val) {
        return Err(Trouble::Malformed);
    }
    let text = print_value(alloc, &ty, &val)?;
    Ok(text_shown(alloc, text.as_slice())?)
}

/// A row by its first word.
pub fn format_came(alloc: Global, given: &str) -> Result<String, Trouble> {
    let (asked, rest) = given.split_once(" ").ok_or(Trouble::Malformed)?;
    match asked {
        "write" => write_came(alloc, rest),
        "default" => default_came(alloc, rest),
        "read" => read_came(alloc, rest),
        "print" => print_came(alloc, rest),
        _ => Err(Trouble::Malformed),
    }
}
