ghost use Rattle.std.specs.Prelude.{◌≡◌, ◌↔◌, ◌^◌, ◌+ℤ◌, ◌-ℤ◌, ◌≤◌, length, pos, true, IsTrue, IfOk};
ghost use Rattle.vhpi_values.specs.Types.{IsValue, IsSubtype, at_least_none, element_count, is_array, can_be_element, is_bit_or_logic, is_character, is_integer, is_time, is_enumeration, characters_of};
ghost use Rattle.vhpi_values.specs.Formats.{character_at};
ghost use Rattle.vhpi_values.specs.Values.{lowest, highest, IsWithin};

use crate::sequence::Sequence;
use sim_memory::NoMemory;
use std::alloc::Global;
use std::marker::Model;

/// A literal of an enumeration type of the design's own.
#[derive(Debug, Drop)]
pub enum Literal {
    /// A character literal, by its byte.
    Character(u8),
    /// An identifier, as it is written.
    Identifier(Sequence<u8>),
}

impl Literal {
    fn copy(&self, alloc: Global) -> Result<Literal, NoMemory>
        ensures { IfOk result (λ literal. literal ≡ self.now) }
    {
        match self {
            Literal::Character(character) => Ok(Literal::Character(*character)),
            Literal::Identifier(name) => {
                let bytes = Vec::from_slice(alloc, name.as_slice())?;
                Ok(Literal::Identifier(Sequence::from_vec(bytes)))
            }
        }
    }
}

fn copy_literals(alloc: Global, literals: &[Literal]) -> Result<Sequence<Literal>, NoMemory>
    ensures { IfOk result (λ copies. copies ≡ literals.now) }
{
    let mut copies = Vec::new(alloc);
    for literal in literals {
        copies.push(literal.copy(alloc)?)?;
    }
    Ok(Sequence::from_vec(copies))
}

/// What a type is made of.
#[derive(Debug, Drop)]
pub enum Base {
    Boolean,
    Bit,
    Character,
    /// STD_ULOGIC.
    Logic,
    /// An enumeration type of the design's own, by its literals in order.
    Own(Sequence<Literal>),
    Integer,
    /// Whole femtoseconds.
    Time,
}

impl Base {
    /// The number is a value of the type: the position of a literal, an integer, or from 0 to
    /// TIME'HIGH.
    pub fn has_value(&self, number: i64) -> bool
        ensures { IsTrue result ↔ IsValue self.now number }
    {
        match self {
            Base::Boolean | Base::Bit => 0 <= number && number <= 1,
            Base::Character => 0 <= number && number <= 255,
            Base::Logic => 0 <= number && number <= 8,
            Base::Own(literals) => 0 <= number && (number as usize) < literals.len(),
            Base::Integer => i64::from(i32::MIN) <= number && number <= i64::from(i32::MAX),
            Base::Time => 0 <= number,
        }
    }

    /// There are arrays of the type.
    pub fn can_be_element(&self) -> bool
        ensures { result ≡ can_be_element self.now }
    {
        self.is_bit_or_logic() || self.is_character() || self.is_integer()
    }

    /// The same type again.
    pub fn copy(&self, alloc: Global) -> Result<Base, NoMemory>
        ensures { IfOk result (λ base. base ≡ self.now) }
    {
        match self {
            Base::Boolean => Ok(Base::Boolean),
            Base::Bit => Ok(Base::Bit),
            Base::Character => Ok(Base::Character),
            Base::Logic => Ok(Base::Logic),
            Base::Own(literals) => Ok(Base::Own(copy_literals(alloc, literals.as_slice())?)),
            Base::Integer => Ok(Base::Integer),
            Base::Time => Ok(Base::Time),
        }
    }

    /// The type is BIT or STD_ULOGIC.
    pub fn is_bit_or_logic(&self) -> bool
        ensures { result ≡ is_bit_or_logic self.now }
    {
        matches!(self, Base::Bit | Base::Logic)
    }

    /// The type is CHARACTER.
    pub fn is_character(&self) -> bool
        ensures { result ≡ is_character self.now }
    {
        matches!(self, Base::Character)
    }

    /// The type is INTEGER.
    pub fn is_integer(&self) -> bool
        ensures { result ≡ is_integer self.now }
    {
        matches!(self, Base::Integer)
    }

    /// The type is TIME.
    pub fn is_time(&self) -> bool
        ensures { result ≡ is_time self.now }
    {
        matches!(self, Base::Time)
    }

    /// The type is an enumeration, predefined or of the design's own.
    pub fn is_enumeration(&self) -> bool
        ensures { result ≡ is_enumeration self.now }
    {
        !matches!(self, Base::Integer | Base::Time)
    }

    /// The characters of the literals of BIT or STD_ULOGIC by position, and none for other types.
    pub fn characters(&self) -> &'static [u8]
        ensures value { result.now ≡ characters_of self.now }
        ensures few { length result.now ≤ 9 }
    {
        match self {
            Base::Bit => b"01",
            Base::Logic => b"UX01ZWLH-",
            _ => b"",
        }
    }

    /// The literal character at a position of BIT or STD_ULOGIC.
    pub fn character_at(&self, position: i64) -> u8
        ensures { result ≡ character_at self.now position }
    {
        match self.characters().get(position.unsigned_abs() as usize) {
            Some(character) => *character,
            None => 0,
        }
    }
}

/// An index range.
#[derive(Clone, Copy, Debug, PartialEq, Eq)]
pub struct IndexRange {
    /// The left bound.
    pub left: i32,
    /// The right bound.
    pub right: i32,
    /// The direction is `to`, and not `downto`.
    pub is_ascending: bool,
}

impl IndexRange {
    ghost use Rattle.std.specs.Prelude.{◌≡◌, ◌≤◌, ◌^◌};
    ghost use Rattle.vhpi_values.specs.Types.{range_length};

    /// The number of indices: none where the bounds stand against the direction.
    pub fn len(&self) -> usize
        ensures value { result ≡ range_length self.now }
        ensures few { result ≤ 2 ^ 32 }
    {
        if self.is_ascending {
            count_up(self.left, self.right)
        } else {
            count_up(self.right, self.left)
        }
    }
}

fn count_up(low: i32, high: i32) -> usize
    ensures value { result ≡ at_least_none (high -ℤ low +ℤ pos 1) }
    ensures few { result ≤ 2 ^ 32 }
{
    if high < low {
        return 0;
    }
    (i64::from(high) - i64::from(low) + 1) as usize
}

/// A subtype: a scalar one, or one of an array type with its index range.
///
/// Its bounds are values of its base, and the base of an array is Bit, Logic, Character or Integer.
#[derive(Debug, Drop)]
pub struct Ty {
    base: Base,
    left: i64,
    right: i64,
    is_resolved: bool,
    index: Option<IndexRange>,
}

impl Model for Ty {
    ghost use Rattle.vhpi_values.specs.Types.{Subtype};

    ghost Value = { Subtype };

    ghost use Rattle.vhpi_values.specs.Types.{IsSubtype};

    ghost view = { λ t. record { base = t.base; left = t.left; right = t.right; is_resolved = t.is_resolved; index = t.index } };

    ghost invariant = { λ t. IsSubtype (record { base = t.base; left = t.left; right = t.right; is_resolved = t.is_resolved; index = t.index }) };
}

impl Ty {
    /// A scalar subtype with these bounds.
    pub fn scalar(base: Base, left: i64, right: i64, is_resolved: bool) -> Ty
        requires left_in_base { IsValue base left }
        requires right_in_base { IsValue base right }
        ensures { result ≡ record { base = base; left = left; right = right; is_resolved = is_resolved; index = None } }
    {
        Ty {
            base,
            left,
            right,
            is_resolved,
            index: None,
        }
    }

    /// A subtype of an array type: elements with these bounds over this index range.
    pub fn array(base: Base, left: i64, right: i64, is_resolved: bool, index: IndexRange) -> Ty
        requires left_in_base { IsValue base left }
        requires right_in_base { IsValue base right }
        requires of_element { can_be_element base ≡ true }
        ensures { result ≡ record { base = base; left = left; right = right; is_resolved = is_resolved; index = Some index } }
    {
        Ty {
            base,
            left,
            right,
            is_resolved,
            index: Some(index),
        }
    }

    /// The same subtype again.
    pub fn copy(&self, alloc: Global) -> Result<Ty, NoMemory>
        ensures { IfOk result (λ ty. ty ≡ self.now) }
    {
        Ok(Ty {
            base: self.base.copy(alloc)?,
            left: self.left,
            right: self.right,
            is_resolved: self.is_resolved,
            index: self.index,
        })
    }

    /// What the type is made of.
    pub fn base(&self) -> &Base
        ensures { result.now ≡ self.now.base }
    {
        &self.base
    }

    /// The left bound of the scalar subtype.
    pub fn left(&self) -> i64
        ensures value { result ≡ self.now.left }
        ensures in_base { IsValue self.now.base result }
    {
        self.left
    }

    /// The right bound of the scalar subtype.
    pub fn right(&self) -> i64
        ensures value { result ≡ self.now.right }
        ensures in_base { IsValue self.now.base result }
    {
        self.right
    }

    /// Signals of the type may have several sources.
    pub fn is_resolved(&self) -> bool
        ensures { result ≡ self.now.is_resolved }
    {
        self.is_resolved
    }

    /// The index range of an array type.
    pub fn index(&self) -> Option<IndexRange>
        ensures { result ≡ self.now.index }
    {
        self.index
    }

    /// The type is an array type.
    pub fn is_array(&self) -> bool
        ensures { result ≡ is_array self.now }
    {
        self.index.is_some()
    }

    /// The number of elements of a value: 1 for a scalar.
    pub fn element_count(&self) -> usize
        ensures value { result ≡ element_count self.now }
        ensures few { result ≤ 2 ^ 32 }
    {
        match self.index() {
            None => 1,
            Some(range) => range.len(),
        }
    }

    /// The lesser bound of the scalar subtype.
    pub fn lowest(&self) -> i64
        ensures { result ≡ lowest self.now }
    {
        self.left().min(self.right())
    }

    /// The greater bound of the scalar subtype.
    pub fn highest(&self) -> i64
        ensures { result ≡ highest self.now }
    {
        self.left().max(self.right())
    }

    /// The number lies in the scalar subtype.
    pub fn is_within(&self, number: i64) -> bool
        ensures { IsTrue result ↔ IsWithin self.now number }
    {
        self.lowest() <= number && number <= self.highest()
    }
}
