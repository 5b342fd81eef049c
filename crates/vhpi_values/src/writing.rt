//! Values as formats have them.

ghost use Rattle.std.specs.Prelude.{◌≡◌, ◌↔◌, ◌<◌, true, false, IfOk, IsErrOf, All};
ghost use Rattle.std.specs.Fmt.{signed_decimal, digit_glyph};
ghost use Rattle.vhpi_values.specs.Types.{IsValue, is_array, is_bit_or_logic};
ghost use Rattle.vhpi_values.specs.Values.{Fits};
ghost use Rattle.vhpi_values.specs.Formats.{pairs, content, object_content, first, literal_text, string_text, hex_text, filled, filling, hex_digits, hex_digit, is_binary};

use crate::formats::{Format, FormatError, Formatted};
use crate::sequence::Sequence;
use crate::types::{Base, Ty};
use crate::values::Val;
use itoa::Buffer;
use sim_memory::NoMemory;
use std::alloc::Global;

/// The value in the format.
///
/// The value must be one of the type. BadFormat comes exactly where the format doesn't go with the
/// type.
pub fn format_value(
    alloc: Global,
    ty: &Ty,
    val: &Val,
    format: Format,
) -> Result<Formatted, FormatError>
    requires { Fits ty.now val.now }
    ensures value { IfOk result (λ formatted. formatted ≡ content format ty.now val.now) }
    ensures bad_format { IsErrOf result FormatError.BadFormat ↔ (pairs format ty.now ≡ false) }
{
    if !goes_with(format, ty) {
        return Err(FormatError::BadFormat);
    }
    let formatted = write(alloc, ty, val.as_slice(), format)?;
    Ok(formatted)
}

fn write(alloc: Global, ty: &Ty, elements: &[i64], format: Format) -> Result<Formatted, NoMemory>
    requires fits { Fits ty.now elements.now }
    requires goes_with { pairs format ty.now ≡ true }
    ensures { IfOk result (λ formatted. formatted ≡ content format ty.now elements.now) }
{
    match format {
        Format::BinStr => Ok(Formatted::BinStr(text(literals(alloc, ty.base(), elements)?))),
        Format::HexStr => Ok(Formatted::HexStr(text(hex(alloc, ty.base(), elements)?))),
        Format::DecStr => Ok(Formatted::DecStr(text(decimal(alloc, first_of(elements))?))),
        Format::Enum => Ok(Formatted::Enum(first_of(elements))),
        Format::Int => Ok(Formatted::Int(first_of(elements))),
        Format::Logic => Ok(Formatted::Logic(first_of(elements))),
        Format::Str => Ok(Formatted::Str(text(string(alloc, ty, elements)?))),
        Format::Char => Ok(Formatted::Char(first_of(elements))),
        Format::Time => Ok(Formatted::Time(first_of(elements))),
        Format::ObjType => write_by_type(alloc, ty, elements),
        Format::EnumVec => Ok(Formatted::EnumVec(numbers(alloc, elements)?)),
        Format::IntVec => Ok(Formatted::IntVec(numbers(alloc, elements)?)),
        Format::LogicVec => Ok(Formatted::LogicVec(numbers(alloc, elements)?)),
    }
}

fn write_by_type(alloc: Global, ty: &Ty, elements: &[i64]) -> Result<Formatted, NoMemory>
    requires { Fits ty.now elements.now }
    ensures { IfOk result (λ formatted. formatted ≡ object_content ty.now.base (is_array ty.now) elements.now) }
{
    match ty.base() {
        Base::Integer if ty.is_array() => Ok(Formatted::IntVec(numbers(alloc, elements)?)),
        Base::Integer => Ok(Formatted::Int(first_of(elements))),
        Base::Time => Ok(Formatted::Time(first_of(elements))),
        Base::Character if ty.is_array() => {
            Ok(Formatted::Str(text(string(alloc, ty, elements)?)))
        }
        Base::Character => Ok(Formatted::Char(first_of(elements))),
        Base::Bit | Base::Logic => write_logic(alloc, ty, elements),
        Base::Boolean | Base::Own(_) => Ok(Formatted::Enum(first_of(elements))),
    }
}

fn write_logic(alloc: Global, ty: &Ty, elements: &[i64]) -> Result<Formatted, NoMemory>
    requires { is_bit_or_logic ty.now.base ≡ true }
    ensures { IfOk result (λ formatted. formatted ≡ object_content ty.now.base (is_array ty.now) elements.now) }
{
    if ty.is_array() {
        Ok(Formatted::LogicVec(numbers(alloc, elements)?))
    } else {
        Ok(Formatted::Logic(first_of(elements)))
    }
}

fn text(bytes: Vec<u8>) -> Sequence<u8>
    ensures { result ≡ bytes.items }
{
    Sequence::from_vec(bytes)
}

/// The format goes with the type: exactly then `format_value` doesn't answer BadFormat.
pub fn goes_with(format: Format, ty: &Ty) -> bool
    ensures { result ≡ pairs format ty.now }
{
    let base = ty.base();
    match format {
        Format::BinStr => base.is_bit_or_logic(),
        Format::HexStr | Format::LogicVec => base.is_bit_or_logic() && ty.is_array(),
        Format::DecStr | Format::Int => base.is_integer() && !ty.is_array(),
        Format::Enum => base.is_enumeration() && !ty.is_array(),
        Format::Logic => base.is_bit_or_logic() && !ty.is_array(),
        Format::Str => base.is_character() && ty.is_array(),
        Format::Char => base.is_character() && !ty.is_array(),
        Format::Time => base.is_time() && !ty.is_array(),
        Format::ObjType => true,
        Format::EnumVec => (base.is_bit_or_logic() || base.is_character()) && ty.is_array(),
        Format::IntVec => base.is_integer() && ty.is_array(),
    }
}

pub(crate) fn first_of(elements: &[i64]) -> i64
    ensures { result ≡ first elements.now }
{
    match elements {
        [first, ..] => *first,
        [] => 0,
    }
}

pub(crate) fn literals(alloc: Global, base: &Base, elements: &[i64]) -> Result<Vec<u8>, NoMemory>
    ensures { IfOk result (λ text. text.items ≡ literal_text base.now elements.now) }
{
    Ok(
        elements
            .iter()
            .map(|position| base.character_at(*position))
            .collect(alloc)?,
    )
}

pub(crate) fn bytes(alloc: Global, elements: &[i64]) -> Result<Vec<u8>, NoMemory>
    requires { All (IsValue Base.Character) elements.now }
    ensures { IfOk result (λ text. text.items ≡ string_text elements.now) }
{
    Ok(
        elements
            .iter()
            .map(|position| position.unsigned_abs() as u8)
            .collect(alloc)?,
    )
}

pub(crate) fn decimal(alloc: Global, number: i64) -> Result<Vec<u8>, NoMemory>
    ensures { IfOk result (λ text. text.items ≡ signed_decimal number) }
{
    Ok(Vec::from_slice(alloc, Buffer::new().format(number).as_bytes())?)
}

fn numbers(alloc: Global, elements: &[i64]) -> Result<Sequence<i64>, NoMemory>
    ensures { IfOk result (λ numbers. numbers ≡ elements.now) }
{
    Ok(Sequence::from_vec(Vec::from_slice(alloc, elements)?))
}

// The bytes of a string.
pub(crate) fn string(alloc: Global, ty: &Ty, elements: &[i64]) -> Result<Vec<u8>, NoMemory>
    requires fits { Fits ty.now elements.now }
    requires of_character { ty.now.base ≡ Base.Character }
    ensures { IfOk result (λ text. text.items ≡ string_text elements.now) }
{
    let _bounds = (ty.left(), ty.right());
    bytes(alloc, elements)
}

fn hex(alloc: Global, base: &Base, elements: &[i64]) -> Result<Vec<u8>, NoMemory>
    ensures { IfOk result (λ text. text.items ≡ hex_text base.now elements.now) }
{
    let characters = literals(alloc, base, elements)?;
    let groups = fill(alloc, characters.as_slice())?;
    digits_of(alloc, groups.as_slice())
}

fn fill(alloc: Global, characters: &[u8]) -> Result<Vec<u8>, NoMemory>
    ensures { IfOk result (λ groups. groups.items ≡ filled characters.now) }
{
    let mut groups = vec![in alloc; b'0'; filled_places(characters.len())]?;
    groups.extend_from_slice(characters)?;
    Ok(groups)
}

pub(crate) fn filled_places(count: usize) -> usize
    ensures { result ≡ filling count }
{
    (4 - count % 4) % 4
}

fn digits_of(alloc: Global, characters: &[u8]) -> Result<Vec<u8>, NoMemory>
    ensures { IfOk result (λ digits. digits.items ≡ hex_digits characters.now) }
{
    let mut digits = Vec::new(alloc);
    let mut rest = characters;
    while let [a, b, c, d, more @ ..] = rest {
        digits.push(hex_digit([*a, *b, *c, *d]))?;
        rest = more;
    }
    Ok(digits)
}

fn hex_digit(group: [u8; 4]) -> u8
    ensures { result ≡ hex_digit group }
{
    let [a, b, c, d] = group;
    if is_binary(a) && is_binary(b) && is_binary(c) && is_binary(d) {
        return glyph(8 * (a - b'0') + 4 * (b - b'0') + 2 * (c - b'0') + (d - b'0'));
    }
    if a == b'Z' && b == b'Z' && c == b'Z' && d == b'Z' {
        b'Z'
    } else {
        b'X'
    }
}

fn is_binary(character: u8) -> bool
    ensures { result ≡ is_binary character }
{
    character == b'0' || character == b'1'
}

pub(crate) fn glyph(value: u8) -> u8
    requires { value < 16 }
    ensures { result ≡ digit_glyph true value }
{
    if value < 10 {
        b'0' + value
    } else {
        b'A' + (value - 10)
    }
}
