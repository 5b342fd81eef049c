//! Numbers and other literals.

ghost use Rattle.std.specs.Prelude.{◌≡◌, ◌∷◌, [], IfOk, None};
ghost use Rattle.std.specs.Option.{option_map};
ghost use Rattle.vhdl_tokens.specs.Meaning.{integer_of, span};
ghost use Rattle.vhdl_tokens.specs.Values.{text_value};
ghost use Rattle.vhdl_names_typing.specs.Literals as spec;
ghost use Rattle.vhdl_names_typing.specs.Scope.{look};
ghost use Rattle.vhdl_names_overloads.specs.Literals.{literal_types};

use crate::faults::at;
use crate::scope::look;
use crate::told::{Form, Told};
use sqlite_items::Items;
use std::alloc::{AllocError, Global};
use vhdl_names_operators::{of_bits, of_string};
use vhdl_names_overloads::{Meanings, Types};
use vhdl_names_scope::Regions;
use vhdl_tokens::{Kind, Token, integer, string};
use vhdl_units::{BaseType, Entry, Fault, Rule, TimeUnit};

/// The largest value of INTEGER (5.2.3.2).
const INTEGER_HIGH: u128 = 2_147_483_647;

/// The largest value of TIME, in femtoseconds (5.2.4.2).
const TIME_HIGH: u128 = 9_223_372_036_854_775_807;

/// How many femtoseconds a unit is.
#[tactic(auto, unfolding(crate::specs::Literals::femtoseconds_in))]
pub fn femtoseconds_in(unit: TimeUnit) -> u128
    ensures { result ≡ spec.femtoseconds_in unit }
{
    match unit {
        TimeUnit::Femtosecond => 1,
        TimeUnit::Picosecond => 1_000,
        TimeUnit::Nanosecond => 1_000_000,
        TimeUnit::Microsecond => 1_000_000_000,
        TimeUnit::Millisecond => 1_000_000_000_000,
        TimeUnit::Second => 1_000_000_000_000_000,
        TimeUnit::Minute => 60_000_000_000_000_000,
        TimeUnit::Hour => 3_600_000_000_000_000_000,
    }
}

/// Whether a number of INTEGER is small enough.
#[tactic(auto, unfolding(crate::specs::Literals::is_within))]
fn is_integer_value(number: Option<u128>) -> bool
    ensures { result ≡ spec.is_within spec.integer_high 1 number }
{
    match number {
        Some(number) => number <= INTEGER_HIGH,
        None => false,
    }
}

/// Whether a time is small enough.
#[tactic(auto, unfolding(crate::specs::Literals::is_within))]
fn is_time_value(number: Option<u128>, unit: TimeUnit) -> bool
    ensures { result ≡ spec.is_within spec.time_high (spec.femtoseconds_in unit) number }
{
    match number {
        Some(number) => number.saturating_mul(femtoseconds_in(unit)) <= TIME_HIGH,
        None => false,
    }
}

/// The unit that a name denotes.
#[tactic(auto, unfolding(crate::specs::Literals::unit_in))]
pub fn unit_in(entries: &Meanings) -> Option<TimeUnit>
    ensures { result ≡ spec.unit_in entries.now }
{
    match entries.first() {
        Some(Entry::Unit(unit)) => Some(unit),
        _ => None,
    }
}

/// The fault of a number that doesn't fit.
#[tactic(auto, unfolding(crate::specs::Literals::too_large))]
fn too_large(alloc: Global, fits: bool, place: u32) -> Result<Items<Fault>, AllocError>
    ensures { IfOk result (λ v. v ≡ spec.too_large fits place) }
{
    if fits {
        Ok(Items::new(alloc))
    } else {
        at(alloc, place, Rule::Number)
    }
}

/// What a literal tells.
#[tactic(auto, unfolding(crate::specs::Literals::literal_told))]
fn literal_told(alloc: Global, place: u32, typing: Items<Fault>, types: Types) -> Told
    ensures { result ≡ spec.literal_told place typing types }
{
    Told {
        place,
        names: Items::new(alloc),
        typing,
        types,
        is_static: true,
        reads: false,
        form: Form::Value,
    }
}

#[tactic(auto, unfolding(crate::specs::Literals::integer_told))]
fn integer_told(alloc: Global, place: u32, number: Option<u128>) -> Result<Told, AllocError>
    ensures { IfOk result (λ v. v ≡ spec.integer_told place number) }
{
    let typing = too_large(alloc, is_integer_value(number), place)?;
    let types = Types::one(alloc, BaseType::Integer)?;
    Ok(literal_told(alloc, place, typing, types))
}

#[tactic(auto, unfolding(crate::specs::Literals::time_typing))]
fn time_typing(
    alloc: Global,
    place: u32,
    number: Option<u128>,
    unit_place: u32,
    unit: Option<TimeUnit>,
) -> Result<Items<Fault>, AllocError>
    ensures { IfOk result (λ v. v ≡ spec.time_typing place number unit_place unit) }
{
    match unit {
        Some(unit) => too_large(alloc, is_time_value(number, unit), place),
        None => at(alloc, unit_place, Rule::Number),
    }
}

#[tactic(auto, unfolding(crate::specs::Literals::time_told))]
fn time_told(
    alloc: Global,
    place: u32,
    number: Option<u128>,
    unit_place: u32,
    unit: Option<TimeUnit>,
) -> Result<Told, AllocError>
    ensures { IfOk result (λ v. v ≡ spec.time_told place number unit_place unit) }
{
    let typing = time_typing(alloc, place, number, unit_place, unit)?;
    let types = Types::one(alloc, BaseType::Time)?;
    Ok(literal_told(alloc, place, typing, types))
}

/// What a number with its unit tells.
fn time_number_told(
    alloc: Global,
    text: &[u8],
    regions: &Regions,
    token: &Token,
    unit: &Token,
) -> Result<Told, AllocError>
    ensures { IfOk result (λ v. v ≡ spec.time_told token.now.start (integer_of (span text.now token.now)) unit.now.start (spec.unit_in (look text.now regions.now unit.now))) }
{
    let entries = look(alloc, text, regions, unit)?;
    let number = integer(text, token);
    time_told(alloc, token.start, number, unit.start, unit_in(&entries))
}

/// What a number tells: an integer, or a time where it has a unit (9.3.2).
#[tactic(auto, unfolding(crate::specs::Literals::number_told))]
pub fn number_told(
    alloc: Global,
    text: &[u8],
    regions: &Regions,
    token: &Token,
    unit: &Option<Token>,
) -> Result<Told, AllocError>
    ensures { IfOk result (λ v. v ≡ spec.number_told text.now (look text.now regions.now) token.now unit.now) }
{
    match unit {
        None => integer_told(alloc, token.start, integer(text, token)),
        Some(unit) => time_number_told(alloc, text, regions, token, unit),
    }
}

/// The types of a string literal whose value is known.
#[tactic(auto, unfolding(crate::specs::Literals::string_types))]
fn string_types(alloc: Global, value: Option<Vec<u8>>) -> Result<Types, AllocError>
    ensures { IfOk result (λ v. v ≡ spec.string_types (option_map (λ bytes. bytes.items) value)) }
{
    match value {
        Some(bytes) => of_string(alloc, &bytes),
        None => Ok(Types::new()),
    }
}

fn text_types(alloc: Global, text: &[u8], token: &Token) -> Result<Types, AllocError>
    ensures { IfOk result (λ v. v ≡ spec.string_types (text_value (span text.now token.now))) }
{
    let value = string(alloc, text, token)?;
    string_types(alloc, value)
}

/// The types of a character literal: those of which it is a literal.
fn character_types(
    alloc: Global,
    text: &[u8],
    regions: &Regions,
    token: &Token,
) -> Result<Types, AllocError>
    ensures { IfOk result (λ v. v ≡ literal_types (look text.now regions.now token.now)) }
{
    let entries = look(alloc, text, regions, token)?;
    Ok(Types::of_literals(entries))
}

#[tactic(auto, unfolding(crate::specs::Literals::spelled_types))]
fn spelled_types(
    alloc: Global,
    text: &[u8],
    regions: &Regions,
    token: &Token,
) -> Result<Types, AllocError>
    ensures { IfOk result (λ v. v ≡ spec.spelled_types token.now.kind (span text.now token.now) (look text.now regions.now token.now)) }
{
    match token.kind {
        Kind::Char => character_types(alloc, text, regions, token),
        Kind::Text => text_types(alloc, text, token),
        Kind::Bits => of_bits(alloc),
        _ => Ok(Types::new()),
    }
}

/// What a character, string or bit string literal tells (9.3.2).
#[tactic(auto, unfolding(crate::specs::Literals::spelled_told))]
pub fn spelled_told(
    alloc: Global,
    text: &[u8],
    regions: &Regions,
    token: &Token,
) -> Result<Told, AllocError>
    ensures { IfOk result (λ v. v ≡ spec.spelled_told text.now (look text.now regions.now) token.now) }
{
    let types = spelled_types(alloc, text, regions, token)?;
    Ok(literal_told(alloc, token.start, Items::new(alloc), types))
}
