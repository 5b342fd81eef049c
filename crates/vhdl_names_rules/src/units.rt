//! Context clauses, names after `end`, and the attribute of a foreign architecture (7.2, 12.4, 13, 20.2).

ghost use Rattle.std.specs.Prelude.{◌≡◌, IfOk, ◌&&◌, ◌==◌, not, bytes_eq, codes, map, false, if◌then◌else◌};
ghost use Rattle.std.specs.Char.{to_ascii_lowercase};
ghost use Rattle.std.specs.Option.{option_map};
ghost use Rattle.vhdl_tokens.specs.Meaning.{span};
ghost use Rattle.vhdl_tokens.specs.Values.{text_value};
ghost use Rattle.vhdl_names_rules.specs.Units as spec;

use crate::values::told_and;
use sqlite_items::Items;
use std::alloc::{AllocError, Global};
use vhdl_names_typing::{Told, at, break_if};
use vhdl_tokens::{Kind, Token, span, string};
use vhdl_tree::{AttributeSpecification, Expr, Use};
use vhdl_units::{Fault, Rule};

/// Whether bytes are these in lower case.
fn is_lowered(bytes: &[u8], lowered: &[u8]) -> bool
    ensures { result ≡ bytes_eq (map to_ascii_lowercase bytes.now) lowered.now }
{
    let mut rest = bytes;
    for letter in lowered {
        match rest {
            [byte, more @ ..] if byte.to_ascii_lowercase() == *letter => rest = more,
            _ => return false,
        }
    }
    rest.is_empty()
}

/// Whether a token of the text is this word, which is in lower case (15.4).
#[tactic(auto, unfolding(crate::specs::Units::is_word, crate::specs::Units::word_of))]
pub fn is_word(text: &[u8], token: &Token, word: &[u8]) -> bool
    ensures { result ≡ spec.is_word text.now token.now word.now }
{
    is_lowered(span(text, token), word)
}

/// Whether a library is one of those that there are (13.2).
#[tactic(auto, unfolding(crate::specs::Units::is_library))]
fn is_library(text: &[u8], token: &Token) -> bool
    ensures { result ≡ spec.is_library text.now token.now }
{
    is_word(text, token, b"ieee") || is_word(text, token, b"std") || is_word(text, token, b"work")
}

/// The faults of a library clause: names of libraries that there aren't (13.2).
#[tactic(auto, unfolding(crate::specs::Units::library_faults, crate::specs::Units::library_fault))]
pub fn library_faults(
    alloc: Global,
    text: &[u8],
    tokens: &[Token],
) -> Result<Items<Fault>, AllocError>
    ensures { IfOk result (λ faults. faults ≡ spec.library_faults text.now tokens.now) }
{
    let mut faults = Items::new(alloc);
    for token in tokens {
        faults.append(library_fault(alloc, text, token)?)?;
    }
    Ok(faults)
}

#[tactic(auto, unfolding(crate::specs::Units::library_fault))]
fn library_fault(alloc: Global, text: &[u8], token: &Token) -> Result<Items<Fault>, AllocError>
    ensures { IfOk result (λ faults. faults ≡ spec.library_fault text.now token.now) }
{
    if is_library(text, token) {
        Ok(Items::new(alloc))
    } else {
        at(alloc, token.start, Rule::UnknownLibrary)
    }
}

/// Whether a package is one of those that there are: IEEE.STD_LOGIC_1164 and STD.STANDARD.
#[tactic(auto, unfolding(crate::specs::Units::is_package))]
fn is_package(text: &[u8], library: &Token, unit: &Token) -> bool
    ensures { result ≡ spec.is_package text.now library.now unit.now }
{
    (is_word(text, library, b"ieee") && is_word(text, unit, b"std_logic_1164"))
        || (is_word(text, library, b"std") && is_word(text, unit, b"standard"))
}

/// The fault of a use clause of a package that there isn't (12.4).
#[tactic(auto, unfolding(crate::specs::Units::use_faults))]
pub fn use_faults(alloc: Global, text: &[u8], clause: &Use) -> Result<Items<Fault>, AllocError>
    ensures { IfOk result (λ faults. faults ≡ spec.use_faults text.now clause.now) }
{
    if is_package(text, &clause.library, &clause.package) {
        Ok(Items::new(alloc))
    } else {
        at(alloc, clause.library.start, Rule::UnknownLibrary)
    }
}

/// Whether what ends has a name, and a token is the same word as that (15.4).
#[tactic(auto, unfolding(crate::specs::Units::is_same_word, crate::specs::Units::word_of))]
fn is_same_word(text: &[u8], token: &Token, name: Option<Token>) -> bool
    ensures { result ≡ spec.is_same_word text.now token.now name }
{
    match name {
        Some(name) => span(text, token).eq_ignore_ascii_case(span(text, &name)),
        None => false,
    }
}

/// The fault of a name after `end` that isn't the name of what ends.
#[tactic(auto, unfolding(crate::specs::Units::end_faults))]
pub fn end_faults(
    alloc: Global,
    text: &[u8],
    name: Option<Token>,
    end_name: Option<Token>,
) -> Result<Items<Fault>, AllocError>
    ensures { IfOk result (λ faults. faults ≡ spec.end_faults text.now name end_name) }
{
    match end_name {
        Some(token) if !is_same_word(text, &token, name) => at(alloc, token.start, Rule::EndName),
        _ => Ok(Items::new(alloc)),
    }
}

/// How many words begin at a byte that stands inside a word or not: one or none.
fn begins(inside: bool, byte: u8) -> usize
    ensures { result ≡ (if not inside && not (byte == 32) then 1 else 0) }
{
    if !inside && byte != b' ' { 1 } else { 0 }
}

/// How many words there are in a text, which blanks separate.
#[tactic(auto, unfolding(crate::specs::Units::words_from))]
fn word_count(bytes: &[u8]) -> usize
    ensures { result ≡ spec.words_from false bytes.now }
{
    let mut count = 0;
    let mut inside = false;
    for byte in bytes {
        count += begins(inside, *byte);
        inside = *byte != b' ';
    }
    count
}

/// A text without the blanks that it begins with.
#[tactic(auto, unfolding(crate::specs::Units::without_blanks))]
fn without_blanks(bytes: &[u8]) -> &[u8]
    ensures { result.now ≡ spec.without_blanks bytes.now }
{
    let mut rest = bytes;
    while let [b' ', more @ ..] = rest {
        rest = more;
    }
    rest
}

/// Whether the first word of a text, which doesn't begin with a blank, is VHPI.
#[tactic(auto, unfolding(crate::specs::Units::starts_with))]
fn starts_with_vhpi(bytes: &[u8]) -> bool
    ensures { result ≡ spec.starts_with (codes "VHPI ") bytes.now }
{
    match bytes {
        [b'V', b'H', b'P', b'I', b' ', ..] => true,
        _ => false,
    }
}

/// Whether the value of the attribute FOREIGN names a model and a library (20.2.3).
#[tactic(auto, unfolding(crate::specs::Units::is_foreign_text))]
fn is_foreign_text(bytes: &[u8]) -> bool
    ensures { result ≡ spec.is_foreign_text bytes.now }
{
    word_count(bytes) == 3 && starts_with_vhpi(without_blanks(bytes))
}

#[tactic(auto, unfolding(crate::specs::Units::is_foreign_string))]
fn is_foreign_string(kind: Kind, value: &Option<Vec<u8>>) -> bool
    ensures { result ≡ spec.is_foreign_string kind (option_map (λ v. v.items) value.now) }
{
    match (kind, value) {
        (Kind::Text, Some(bytes)) => is_foreign_text(bytes.as_slice()),
        _ => false,
    }
}

fn is_foreign_literal(alloc: Global, text: &[u8], token: &Token) -> Result<bool, AllocError>
    ensures { IfOk result (λ is. is ≡
        spec.is_foreign_string token.now.kind (text_value (span text.now token.now))) }
{
    let value = string(alloc, text, token)?;
    Ok(is_foreign_string(token.kind, &value))
}

/// Whether an expression is a string literal that names a model and a library.
#[tactic(auto, unfolding(crate::specs::Units::is_foreign_value, crate::specs::Units::foreign_value))]
fn is_foreign_value(alloc: Global, text: &[u8], value: &Expr) -> Result<bool, AllocError>
    ensures { IfOk result (λ is. is ≡ spec.is_foreign_value text.now value.now) }
{
    match value {
        Expr::Literal(token) => is_foreign_literal(alloc, text, token),
        _ => Ok(false),
    }
}

/// Whether an attribute specification is that of a foreign architecture, in the architecture of the name
/// `architecture`, which is in lower case, where one is allowed.
#[tactic(auto, unfolding(crate::specs::Units::is_right_attribute))]
fn is_right_attribute(
    alloc: Global,
    text: &[u8],
    architecture: &[u8],
    is_allowed: bool,
    specification: &AttributeSpecification,
) -> Result<bool, AllocError>
    ensures { IfOk result (λ is. is ≡
        spec.is_right_attribute text.now architecture.now is_allowed specification.now) }
{
    let is_value = is_foreign_value(alloc, text, &specification.value)?;
    Ok(
        is_word(text, &specification.attribute, b"foreign")
            && is_word(text, &specification.architecture, architecture)
            && is_allowed
            && is_value,
    )
}

/// The faults of an attribute specification (7.2, 20.2.3), whose value tells `told`, in the architecture of the
/// name `architecture`, which is in lower case. It is allowed for the first time, and where nothing else stands
/// in that architecture.
#[tactic(auto, unfolding(crate::specs::Units::attribute_faults))]
pub fn attribute_faults(
    alloc: Global,
    text: &[u8],
    architecture: &[u8],
    is_allowed: bool,
    specification: &AttributeSpecification,
    told: Told,
) -> Result<Items<Fault>, AllocError>
    ensures { IfOk result (λ faults. faults ≡
        spec.attribute_faults text.now architecture.now is_allowed specification.now told) }
{
    let is_right = is_right_attribute(alloc, text, architecture, is_allowed, specification)?;
    let place = specification.attribute.start;
    let found = break_if(
        alloc,
        !is_right,
        told.names.as_slice(),
        place,
        Rule::Foreign,
    )?;
    told_and(alloc, told, found)
}
