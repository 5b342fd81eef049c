//! What a name may denote.

ghost use Rattle.std.specs.Prelude.{◌≡◌};
ghost use Rattle.vhdl_units.specs.Entries as spec;

use crate::base_type::BaseType;
use vhdl_tree::Mode;

/// What kind of object a name denotes (6.4.1).
#[derive(Clone, Copy, Debug, PartialEq, Eq)]
pub enum Class {
    Constant,
    Generic,
    Signal,
    Port(Mode),
    Variable,
    /// The parameter of a `for` loop.
    Parameter,
}

/// A type or subtype as its name denotes it (6.2, 6.3).
#[derive(Clone, Copy, Debug, PartialEq, Eq)]
pub struct Mark {
    /// The number of its declaration. Those that are always visible have the first numbers.
    pub number: usize,
    pub base: BaseType,
    /// Whether it is STD_LOGIC or a subtype of it.
    pub resolved: bool,
    /// Whether it is an array subtype with bounds.
    pub bounded: bool,
}

/// An object (6.4). One of an array type has bounds.
#[derive(Clone, Copy, Debug, PartialEq, Eq)]
pub struct Object {
    /// The number of its declaration.
    pub number: usize,
    pub class: Class,
    pub base: BaseType,
}

/// A function that is always visible.
#[derive(Clone, Copy, Debug, PartialEq, Eq)]
pub enum Function {
    RisingEdge,
    FallingEdge,
    ToX01,
    Now,
}

/// A unit of TIME (5.2.4).
#[derive(Clone, Copy, Debug, PartialEq, Eq)]
pub enum TimeUnit {
    Femtosecond,
    Picosecond,
    Nanosecond,
    Microsecond,
    Millisecond,
    Second,
    Minute,
    Hour,
}

/// What a name denotes (12.3).
#[derive(Clone, Copy, Debug, PartialEq, Eq)]
pub enum Entry {
    Subtype(Mark),
    Object(Object),
    /// An enumeration literal: its type, and its position there from 0.
    Literal(BaseType, usize),
    Function(Function),
    Unit(TimeUnit),
    /// A label, by the number of its declaration.
    Label(usize),
}

impl Entry {
    /// Whether this is an enumeration literal. Literals alone can be overloaded (12.3).
    pub fn is_literal(self) -> bool
        ensures { result ≡ spec.is_literal self }
    {
        match self {
            Entry::Literal(_, _) => true,
            _ => false,
        }
    }
}
