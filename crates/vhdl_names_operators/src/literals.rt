//! The types of literals and aggregates.

ghost use Rattle.std.specs.Prelude.{◌≡◌, IfOk, filter};
ghost use Rattle.std.specs.List.{list_all};
ghost use Rattle.vhdl_names_operators.specs.Sets.{arrays};
ghost use Rattle.vhdl_names_operators.specs.Literals as spec;

use crate::sets::{ARRAYS, PREDEFINED, has};
use sqlite_items::Items;
use std::alloc::{AllocError, Global};
use vhdl_names_overloads::Types;
use vhdl_units::BaseType;

/// The types that a string literal can have (9.3.2), by the bytes of its value: STRING, and the arrays of bits
/// each of whose literals it spells.
#[tactic(auto, unfolding(crate::specs::Literals::of_string))]
pub fn of_string(alloc: Global, text: &[u8]) -> Result<Types, AllocError>
    ensures { IfOk result (λ types. types ≡ spec.of_string text.now) }
{
    spelt_among(alloc, &PREDEFINED, text)
}

/// The types of `candidates` that a string literal can have.
fn spelt_among(alloc: Global, candidates: &[BaseType], text: &[u8]) -> Result<Types, AllocError>
    ensures { IfOk result (λ types. types ≡ filter (spec.spells text.now) candidates.now) }
{
    let types = candidates
        .iter()
        .copied()
        .filter(|base| spells(text, *base))
        .collect(alloc)?;
    Ok(Types::from_items(Items::from_vec(types)))
}

/// The types that a bit string literal can have (9.3.2).
#[tactic(auto, unfolding(crate::specs::Literals::of_bits))]
pub fn of_bits(alloc: Global) -> Result<Types, AllocError>
    ensures { IfOk result (λ types. types ≡ spec.of_bits) }
{
    let types = Items::from_slice(alloc, &[BaseType::BitVector, BaseType::StdUlogicVector])?;
    Ok(Types::from_items(types))
}

/// The types that an aggregate can have of which no item is known (9.3.3): the array types.
pub fn all_arrays(alloc: Global) -> Result<Items<BaseType>, AllocError>
    ensures { IfOk result (λ types. types ≡ arrays) }
{
    Items::from_slice(alloc, &ARRAYS)
}

/// The types that an aggregate can still have once one more item is known (9.3.3): those of `so_far` whose
/// element type is among the types that the item can have.
#[tactic(auto, unfolding(crate::specs::Literals::narrowed))]
pub fn narrow(
    alloc: Global,
    so_far: &[BaseType],
    item: &Types,
) -> Result<Items<BaseType>, AllocError>
    ensures { IfOk result (λ types. types ≡ spec.narrowed so_far.now item.now) }
{
    let types = so_far
        .iter()
        .copied()
        .filter(|base| holds(item, *base))
        .collect(alloc)?;
    Ok(Items::from_vec(types))
}

/// Whether an item of an aggregate of the type `base` can have the element type.
#[tactic(auto, unfolding(crate::specs::Literals::holds, crate::specs::Literals::elements_can_be))]
fn holds(item: &Types, base: BaseType) -> bool
    ensures { result ≡ spec.holds item.now base }
{
    match base.element() {
        Some(element) => has(item, element),
        None => false,
    }
}

/// Whether a string literal can have the type `base`.
#[tactic(auto, unfolding(crate::specs::Literals::spells))]
fn spells(text: &[u8], base: BaseType) -> bool
    ensures { result ≡ spec.spells text.now base }
{
    match base {
        BaseType::BitVector => are_bits(text),
        BaseType::StdUlogicVector => are_std_ulogic(text),
        BaseType::String => true,
        _ => false,
    }
}

fn are_bits(text: &[u8]) -> bool
    ensures { result ≡ list_all spec.is_bit text.now }
{
    text.iter().all(|byte| is_bit(*byte))
}

fn are_std_ulogic(text: &[u8]) -> bool
    ensures { result ≡ list_all spec.is_std_ulogic text.now }
{
    text.iter().all(|byte| is_std_ulogic(*byte))
}

/// Whether the byte is a literal of BIT.
#[tactic(auto, unfolding(crate::specs::Literals::is_bit))]
fn is_bit(byte: u8) -> bool
    ensures { result ≡ spec.is_bit byte }
{
    byte == b'0' || byte == b'1'
}

/// Whether the byte is a literal of STD_ULOGIC.
#[tactic(auto, unfolding(crate::specs::Literals::is_std_ulogic))]
fn is_std_ulogic(byte: u8) -> bool
    ensures { result ≡ spec.is_std_ulogic byte }
{
    b"UX01ZWLH-".iter().any(|letter| *letter == byte)
}
