//! Types.

ghost use Rattle.std.specs.Prelude.{◌≡◌};
ghost use Rattle.vhdl_units.specs.Types as spec;

/// A type, apart from the subtypes of it (5.1). An array's index is of INTEGER.
#[derive(Clone, Copy, Debug, PartialEq, Eq)]
pub enum BaseType {
    Boolean,
    Bit,
    Character,
    /// STD_ULOGIC, of IEEE.STD_LOGIC_1164.
    StdUlogic,
    /// An enumeration type of the design, by the number of its declaration.
    Own(usize),
    Integer,
    Time,
    BitVector,
    StdUlogicVector,
    String,
    IntegerVector,
}

impl BaseType {
    /// Whether two types are the same.
    pub fn is(self, other: BaseType) -> bool
        ensures { result ≡ spec.same self other }
    {
        match (self, other) {
            (BaseType::Boolean, BaseType::Boolean) => true,
            (BaseType::Bit, BaseType::Bit) => true,
            (BaseType::Character, BaseType::Character) => true,
            (BaseType::StdUlogic, BaseType::StdUlogic) => true,
            (BaseType::Own(number), BaseType::Own(other)) => number == other,
            (BaseType::Integer, BaseType::Integer) => true,
            (BaseType::Time, BaseType::Time) => true,
            (BaseType::BitVector, BaseType::BitVector) => true,
            (BaseType::StdUlogicVector, BaseType::StdUlogicVector) => true,
            (BaseType::String, BaseType::String) => true,
            (BaseType::IntegerVector, BaseType::IntegerVector) => true,
            _ => false,
        }
    }

    /// The type of the elements, where the type is an array type (5.3.2).
    pub fn element(self) -> Option<BaseType>
        ensures { result ≡ spec.element self }
    {
        match self {
            BaseType::BitVector => Some(BaseType::Bit),
            BaseType::StdUlogicVector => Some(BaseType::StdUlogic),
            BaseType::String => Some(BaseType::Character),
            BaseType::IntegerVector => Some(BaseType::Integer),
            _ => None,
        }
    }

    /// Whether the type is an array type.
    pub fn is_array(self) -> bool
        ensures { result ≡ spec.is_array self }
    {
        self.element().is_some()
    }

    /// Whether the type is an enumeration type (5.2.2).
    pub fn is_enumeration(self) -> bool
        ensures { result ≡ spec.is_enumeration self }
    {
        match self {
            BaseType::Boolean
            | BaseType::Bit
            | BaseType::Character
            | BaseType::StdUlogic
            | BaseType::Own(_) => true,
            _ => false,
        }
    }

    /// Whether the type is an enumeration type or INTEGER (5.2.1).
    pub fn is_discrete(self) -> bool
        ensures { result ≡ spec.is_discrete self }
    {
        match self {
            BaseType::Integer => true,
            _ => self.is_enumeration(),
        }
    }
}
