//! Values as the journal prints them.

ghost use Rattle.std.specs.Prelude.{◌≡◌, ◌++◌, ◌∷◌, [], ◌==◌, if◌then◌else◌, IfOk, OnOk, map};
ghost use Rattle.std.specs.List.{flat_map, join_with_byte};
ghost use Rattle.std.specs.Fmt.{signed_decimal};
ghost use Rattle.std.specs.Str.{str_to_ascii_lowercase};
ghost use Rattle.vhpi_values.specs.Types.{is_array};
ghost use Rattle.vhpi_values.specs.Values.{Fits};
ghost use Rattle.vhpi_values.specs.Formats.{first};
ghost use Rattle.vhpi_values.specs.Printing.{is_printable, escaped, quoted, character_literal, literal_image, literal_at, scalar_image, array_image, image};

use crate::types::{Base, Literal, Ty};
use crate::values::Val;
use crate::writing::{decimal, first_of, glyph, literals, string};
use sim_memory::NoMemory;
use std::alloc::Global;

/// A value of the type as the journal prints it: a character literal such as `'1'`, another literal
/// in lower case, a CHARACTER outside 32 to 126 as `#` and its position, an integer, a time as
/// `N fs`, a vector of Bit or Logic and a string in quotes, an integer_vector as `(1,2)`.
///
/// Inside quotes a byte outside 32 to 126, a `"` and a `%` are a `%` and two hexadecimal digits. The
/// value must be one of the type.
pub fn print_value(alloc: Global, ty: &Ty, val: &Val) -> Result<Vec<u8>, NoMemory>
    requires { Fits ty.now val.now }
    ensures { IfOk result (λ text. text.items ≡ image ty.now val.now) }
{
    if ty.is_array() {
        print_array(alloc, ty, val.as_slice())
    } else {
        print_scalar(alloc, ty, first_of(val.as_slice()))
    }
}

fn print_array(alloc: Global, ty: &Ty, elements: &[i64]) -> Result<Vec<u8>, NoMemory>
    requires { Fits ty.now elements.now }
    ensures { IfOk result (λ text. text.items ≡ array_image ty.now.base elements.now) }
{
    match ty.base() {
        Base::Bit | Base::Logic => {
            let text = literals(alloc, ty.base(), elements)?;
            quote(alloc, text.as_slice())
        }
        Base::Character => {
            let text = string(alloc, ty, elements)?;
            quote(alloc, text.as_slice())
        }
        _ => print_numbers(alloc, elements),
    }
}

fn print_numbers(alloc: Global, numbers: &[i64]) -> Result<Vec<u8>, NoMemory>
    ensures { IfOk result (λ text. text.items ≡ 40 ∷ (join_with_byte 44 (map signed_decimal numbers.now) ++ 41 ∷ [])) }
{
    let mut text = Vec::from_slice(alloc, b"(")?;
    for (place, number) in numbers.iter().enumerate() {
        separate(&mut text, place)?;
        append(&mut text, decimal(alloc, *number)?)?;
    }
    text.push(b')')?;
    Ok(text)
}

fn separate(text: &mut Vec<u8>, place: usize) -> Result<(), NoMemory>
    ensures { OnOk result (text.new.items ≡ text.old.items ++ (if place == 0 then [] else 44 ∷ [])) }
{
    if place > 0 {
        text.push(b',')?;
    }
    Ok(())
}

fn append(text: &mut Vec<u8>, more: Vec<u8>) -> Result<(), NoMemory>
    ensures { OnOk result (text.new.items ≡ text.old.items ++ more.items) }
{
    text.extend_from_slice(more.as_slice())?;
    Ok(())
}

fn quote(alloc: Global, bytes: &[u8]) -> Result<Vec<u8>, NoMemory>
    ensures { IfOk result (λ text. text.items ≡ quoted bytes.now) }
{
    let mut text = Vec::from_slice(alloc, b"\"")?;
    for byte in bytes {
        escape(&mut text, *byte)?;
    }
    text.push(b'"')?;
    Ok(text)
}

fn escape(text: &mut Vec<u8>, byte: u8) -> Result<(), NoMemory>
    ensures { OnOk result (text.new.items ≡ text.old.items ++ escaped byte) }
{
    if is_printable(byte) && byte != b'"' && byte != b'%' {
        text.push(byte)?;
    } else {
        text.extend_from_slice(&[b'%', glyph(byte / 16), glyph(byte % 16)])?;
    }
    Ok(())
}

fn is_printable(byte: u8) -> bool
    ensures { result ≡ is_printable byte }
{
    32 <= byte && byte <= 126
}

fn print_character(alloc: Global, character: u8) -> Result<Vec<u8>, NoMemory>
    ensures { IfOk result (λ text. text.items ≡ character_literal character) }
{
    Ok(Vec::from_slice(alloc, &[b'\'', character, b'\''])?)
}

fn print_literal(alloc: Global, literal: &Literal) -> Result<Vec<u8>, NoMemory>
    ensures { IfOk result (λ text. text.items ≡ literal_image literal.now) }
{
    match literal {
        Literal::Character(character) => print_character(alloc, *character),
        Literal::Identifier(name) => lowercase(alloc, name.as_slice()),
    }
}

fn lowercase(alloc: Global, name: &[u8]) -> Result<Vec<u8>, NoMemory>
    ensures { IfOk result (λ text. text.items ≡ str_to_ascii_lowercase name.now) }
{
    Ok(
        name.iter()
            .map(|byte| byte.to_ascii_lowercase())
            .collect(alloc)?,
    )
}

fn print_scalar(alloc: Global, ty: &Ty, number: i64) -> Result<Vec<u8>, NoMemory>
    ensures { IfOk result (λ text. text.items ≡ scalar_image ty.now.base number) }
{
    let base = ty.base();
    match base {
        Base::Boolean => print_boolean(alloc, number),
        Base::Bit | Base::Logic => print_character(alloc, base.character_at(number)),
        Base::Character => print_position(alloc, number),
        Base::Own(literals) => print_literal_at(alloc, literals.as_slice(), number),
        Base::Integer => decimal(alloc, number),
        Base::Time => print_time(alloc, number),
    }
}

fn print_boolean(alloc: Global, position: i64) -> Result<Vec<u8>, NoMemory>
    ensures { IfOk result (λ text. text.items ≡ scalar_image Base.Boolean position) }
{
    if position == 0 {
        Ok(Vec::from_slice(alloc, b"false")?)
    } else {
        Ok(Vec::from_slice(alloc, b"true")?)
    }
}

fn print_position(alloc: Global, position: i64) -> Result<Vec<u8>, NoMemory>
    ensures { IfOk result (λ text. text.items ≡ scalar_image Base.Character position) }
{
    let code = position.unsigned_abs();
    if 32 <= code && code <= 126 {
        return print_character(alloc, code as u8);
    }
    let mut text = Vec::from_slice(alloc, b"#")?;
    append(&mut text, decimal(alloc, position)?)?;
    Ok(text)
}

fn print_literal_at(alloc: Global, literals: &[Literal], position: i64) -> Result<Vec<u8>, NoMemory>
    ensures { IfOk result (λ text. text.items ≡ literal_at literals.now position) }
{
    match literals.get(position.unsigned_abs() as usize) {
        Some(literal) => print_literal(alloc, literal),
        None => Ok(Vec::new(alloc)),
    }
}

fn print_time(alloc: Global, femtoseconds: i64) -> Result<Vec<u8>, NoMemory>
    ensures { IfOk result (λ text. text.items ≡ scalar_image Base.Time femtoseconds) }
{
    let mut text = decimal(alloc, femtoseconds)?;
    text.extend_from_slice(b" fs")?;
    Ok(text)
}
