//! What the bytes of a token say.

ghost use Rattle.std.specs.Prelude.{◌≡◌, ℕ, ◌<◌, ◌++◌, Bool, List, [], IfOk, OnOk, map};
ghost use Rattle.std.specs.Option.{option_map};
ghost use Rattle.std.specs.List.{flat_map};
ghost use Rattle.std.specs.Char.{to_ascii_lowercase};
ghost use Rattle.vhdl_tokens.specs.Spelling.{IsChar, IsText, IsBits, digit_value, bit_worth, bits_at};
ghost use Rattle.vhdl_tokens.specs.Meaning.{span, identifier_of, integer_of, Means};
ghost use Rattle.vhdl_tokens.specs.Values.{char_value, text_value, value_from, is_quote, bits_in, bits_quoted, bits_value};

use crate::bytes::{Class, is_graphic};
use crate::scan::{self, TextStep, are_digits, bits_base, run_len, text_step};
use crate::token::Token;
use std::alloc::{AllocError, Global};

/// The bytes of a token of the text. Of a token that reaches beyond the text's end it is what there is.
pub fn span<'a>(text: &'a [u8], token: &Token) -> &'a [u8]
    ensures { result.now ≡ span text.now token.now }
{
    let start = token.start as usize;
    let end = token.end as usize;
    let (_, behind) = text.split_at(start.min(text.len()));
    let (bytes, _) = behind.split_at(end.saturating_sub(start).min(behind.len()));
    bytes
}

/// The name of an identifier or reserved word in lower case, where the token is one.
pub fn identifier(alloc: Global, text: &[u8], token: &Token) -> Result<Option<Vec<u8>>, AllocError>
    ensures { IfOk result (λ name.
        option_map (λ v. v.items) name ≡ identifier_of (span text.now token.now)) }
{
    let name = span(text, token);
    if !scan::is_identifier(name) {
        return Ok(None);
    }
    let folded = folded(alloc, name)?;
    Ok(Some(folded))
}

fn folded(alloc: Global, name: &[u8]) -> Result<Vec<u8>, AllocError>
    ensures { IfOk result (λ v. v.items ≡ map to_ascii_lowercase name.now) }
{
    name.iter().map(|b| b.to_ascii_lowercase()).collect(alloc)
}

/// The number of an integer, where the token is one.
pub fn integer(text: &[u8], token: &Token) -> Option<u128>
    ensures { result ≡ integer_of (span text.now token.now) }
{
    scan::integer(span(text, token))
}

fn char_value(bytes: &[u8]) -> Option<u8>
    ensures { result ≡ char_value bytes.now }
{
    match bytes {
        [b'\'', b, b'\''] if is_graphic(*b) => Some(*b),
        _ => None,
    }
}

/// The byte of a character literal, where the token is one.
pub fn character(text: &[u8], token: &Token) -> Option<u8>
    ensures { Means (IsChar (span text.now token.now)) result }
{
    char_value(span(text, token))
}

// The value of a string literal that goes on with these bytes behind its first quotation mark.
fn value_of(alloc: Global, behind: &[u8]) -> Result<Option<Vec<u8>>, AllocError>
    ensures { IfOk result (λ value. option_map (λ v. v.items) value ≡ value_from [] behind.now) }
{
    let mut value = Vec::new(alloc);
    let mut rest = behind;
    'bytes: loop {
        match text_step(rest) {
            TextStep::Takes(n) => {
                value.push(rest[0])?;
                let (_, more) = rest.split_at(n);
                rest = more;
            }
            TextStep::Ends => {
                if rest.len() == 1 {
                    return Ok(Some(value));
                }
                return Ok(None);
            }
            TextStep::Breaks => return Ok(None),
        }
    }
}

fn text_value(alloc: Global, bytes: &[u8]) -> Result<Option<Vec<u8>>, AllocError>
    ensures { IfOk result (λ value. option_map (λ v. v.items) value ≡ text_value bytes.now) }
{
    match bytes {
        [b'"', behind @ ..] => value_of(alloc, behind),
        _ => Ok(None),
    }
}

/// The bytes of a string literal, where the token is one: a doubled quotation mark is one byte.
pub fn string(alloc: Global, text: &[u8], token: &Token) -> Result<Option<Vec<u8>>, AllocError>
    ensures value { IfOk result (λ value. option_map (λ v. v.items) value ≡ text_value (span text.now token.now)) }
    ensures means { IfOk result (λ value.
        Means (IsText (span text.now token.now)) (option_map (λ v. v.items) value)) }
{
    text_value(alloc, span(text, token))
}

fn digit_value(d: u8) -> u8
    ensures { result ≡ digit_value d }
{
    if d < 58 {
        d.saturating_sub(48)
    } else if d < 71 {
        d - 55
    } else {
        d.saturating_sub(87)
    }
}

fn bit_worth(p: u8, n: u8) -> bool
    requires { 0 < p }
    ensures { result ≡ bit_worth p n }
{
    n / p % 2 == 1
}

// Adds the bits of a digit; an underline has none.
fn push_bits(bits: &mut Vec<bool>, base: Class, d: u8) -> Result<(), AllocError>
    ensures { OnOk result (bits.new.items ≡ bits.old.items ++ bits_at base d) }
{
    if d == b'_' {
        return Ok(());
    }
    let n = digit_value(d);
    let (eight, four) = (bit_worth(8, n), bit_worth(4, n));
    let (two, one) = (bit_worth(2, n), bit_worth(1, n));
    match base {
        Class::Binary => bits.extend_from_slice(&[one]),
        Class::Octal => bits.extend_from_slice(&[four, two, one]),
        _ => bits.extend_from_slice(&[eight, four, two, one]),
    }
}

fn all_bits(alloc: Global, base: Class, digits: &[u8]) -> Result<Vec<bool>, AllocError>
    ensures { IfOk result (λ v. v.items ≡ flat_map (bits_at base) digits.now) }
{
    let mut bits = Vec::new(alloc);
    for d in digits {
        push_bits(&mut bits, base, *d)?;
    }
    Ok(bits)
}

fn is_quote(bytes: &[u8]) -> bool
    ensures { result ≡ is_quote bytes.now }
{
    match bytes {
        [b'"'] => true,
        _ => false,
    }
}

fn bits_in(
    alloc: Global,
    base: Class,
    digits: &[u8],
    behind: &[u8],
) -> Result<Option<Vec<bool>>, AllocError>
    ensures { IfOk result (λ value. option_map (λ v. v.items) value ≡ bits_in base digits.now behind.now) }
{
    if !are_digits(base, digits) || !is_quote(behind) {
        return Ok(None);
    }
    let bits = all_bits(alloc, base, digits)?;
    Ok(Some(bits))
}

fn bits_quoted(alloc: Global, base: Class, bytes: &[u8]) -> Result<Option<Vec<bool>>, AllocError>
    ensures { IfOk result (λ value. option_map (λ v. v.items) value ≡ bits_quoted base bytes.now) }
{
    match bytes {
        [_, _, more @ ..] => {
            let (digits, behind) = more.split_at(run_len(more));
            bits_in(alloc, base, digits, behind)
        }
        _ => Ok(None),
    }
}

fn bits_value(alloc: Global, bytes: &[u8]) -> Result<Option<Vec<bool>>, AllocError>
    ensures { IfOk result (λ value. option_map (λ v. v.items) value ≡ bits_value bytes.now) }
{
    match bits_base(bytes) {
        None => Ok(None),
        Some(base) => bits_quoted(alloc, base, bytes),
    }
}

/// The bits of a bit string literal, where the token is one, the leftmost first. Each digit is one, three
/// or four of them.
pub fn bits(alloc: Global, text: &[u8], token: &Token) -> Result<Option<Vec<bool>>, AllocError>
    ensures value { IfOk result (λ value. option_map (λ v. v.items) value ≡ bits_value (span text.now token.now)) }
    ensures means { IfOk result (λ value.
        Means (IsBits (span text.now token.now)) (option_map (λ v. v.items) value)) }
{
    bits_value(alloc, span(text, token))
}

/// Bytes spell one value: one byte, one list of bytes or one list of bits.
pub fn one_value()
    ensures byte { (bytes : List ℕ) (value other : ℕ) →
        IsChar bytes value → IsChar bytes other → value ≡ other }
    ensures text { (bytes value other : List ℕ) →
        IsText bytes value → IsText bytes other → value ≡ other }
    ensures bits { (bytes : List ℕ) (value other : List Bool) →
        IsBits bytes value → IsBits bytes other → value ≡ other }
{}
