ghost use Rattle.std.specs.Prelude.{◌≡◌};
ghost use Rattle.vhpi_values.specs.declared.formats.FormatError.TheVariants as format_error;
ghost use Rattle.vhpi_values.specs.declared.formats.ValueError.TheVariants as value_error;

use crate::sequence::Sequence;
use sim_memory::NoMemory;

/// The formats of values.
#[derive(Clone, Copy, Debug, PartialEq, Eq)]
pub enum Format {
    /// One literal character for each element of a Bit, a Logic or a vector of these.
    BinStr,
    /// One digit for four elements of a vector of Bit or Logic, from the right.
    HexStr,
    /// An integer as decimal text.
    DecStr,
    /// The position of an enumeration literal.
    Enum,
    /// An integer.
    Int,
    /// The position of a Bit or a Logic.
    Logic,
    /// The bytes of a string.
    Str,
    /// The position of a Character.
    Char,
    /// A time in femtoseconds.
    Time,
    /// The format that goes with the type of the object.
    ObjType,
    /// The positions of a vector of Bit, Logic or Character.
    EnumVec,
    /// The numbers of an integer_vector.
    IntVec,
    /// The positions of a vector of Bit or Logic.
    LogicVec,
}

/// A formatted value: the content of one format. ObjType has none of its own.
#[derive(Debug, Drop)]
pub enum Formatted {
    BinStr(Sequence<u8>),
    HexStr(Sequence<u8>),
    DecStr(Sequence<u8>),
    Enum(i64),
    Int(i64),
    Logic(i64),
    Str(Sequence<u8>),
    Char(i64),
    Time(i64),
    EnumVec(Sequence<i64>),
    IntVec(Sequence<i64>),
    LogicVec(Sequence<i64>),
}

impl Formatted {
    ghost use Rattle.std.specs.Prelude.{◌≡◌};
    ghost use Rattle.vhpi_values.specs.Reading.{format_of};

    /// The format that the content is of.
    pub fn format(&self) -> Format
        ensures { result ≡ format_of self.now }
    {
        match self {
            Formatted::BinStr(_) => Format::BinStr,
            Formatted::HexStr(_) => Format::HexStr,
            Formatted::DecStr(_) => Format::DecStr,
            Formatted::Enum(_) => Format::Enum,
            Formatted::Int(_) => Format::Int,
            Formatted::Logic(_) => Format::Logic,
            Formatted::Str(_) => Format::Str,
            Formatted::Char(_) => Format::Char,
            Formatted::Time(_) => Format::Time,
            Formatted::EnumVec(_) => Format::EnumVec,
            Formatted::IntVec(_) => Format::IntVec,
            Formatted::LogicVec(_) => Format::LogicVec,
        }
    }
}

/// Why a value isn't formatted.
#[derive(Clone, Copy, Debug, PartialEq, Eq)]
pub enum FormatError {
    /// The format doesn't go with the type.
    BadFormat,
    /// There is no memory left.
    NoMemory,
}

/// Why a formatted value isn't read.
#[derive(Clone, Copy, Debug, PartialEq, Eq)]
pub enum ValueError {
    /// The format doesn't go with the type.
    BadFormat,
    /// The content is no value of the type.
    BadValue {
        /// The place, from 0, of the first character, digit or number that doesn't fit; where there
        /// are too few or too many of them, the smaller of the two numbers if that is less.
        place: usize,
    },
    /// There is no memory left.
    NoMemory,
}

impl From<NoMemory> for FormatError {
    ghost from_gives = { λ _ error. error ≡ format_error.NoMemory };

    fn from(_error: NoMemory) -> FormatError {
        FormatError::NoMemory
    }
}

impl From<NoMemory> for ValueError {
    ghost from_gives = { λ _ error. error ≡ value_error.NoMemory };

    fn from(_error: NoMemory) -> ValueError {
        ValueError::NoMemory
    }
}
