//! The static rules, and where they are broken.

ghost use Rattle.std.specs.Prelude.{◌≡◌};
ghost use Rattle.vhdl_units.specs.Faults.{number_of};

/// A rule that a design has to meet before it is elaborated, by what it forbids. They are in the order in
/// which one is answered where two are broken at one place.
#[derive(Clone, Copy, Debug, PartialEq, Eq)]
pub enum Rule {
    /// Two entities have one name, or two architectures of one entity (13.1).
    UnitTwice,
    /// The entity of an architecture doesn't stand before it (3.3).
    EntityMissing,
    /// A name after `end` isn't that of what ends.
    EndName,
    /// A name is declared twice in one region (12.3).
    DeclaredTwice,
    /// A name isn't declared before its place (12.3).
    Undeclared,
    /// A name is of the wrong kind for its place.
    WrongKind,
    /// A library or package other than those that there are (13.2, 12.4).
    UnknownLibrary,
    /// A constraint doesn't fit its type, or a bound isn't globally static (6.3).
    Constraint,
    /// An object is of an array type without bounds (5.3.2.2).
    Unbounded,
    /// The types that an expression can have, met with the one asked, aren't exactly one (9.1, 12.5).
    Type,
    /// A target can't be assigned (10.5, 10.6).
    NotAssignable,
    /// A wait stands in a process with a sensitivity list (10.2).
    WaitNotAllowed,
    /// A sensitivity name isn't a static name of a signal (10.2).
    Sensitivity,
    /// A next or exit stands in no such loop (10.11, 10.12).
    NoSuchLoop,
    /// A choice of a case statement isn't globally static, or `others` isn't the last alone (10.9).
    CaseChoice,
    /// An aggregate's form isn't one of those allowed (9.3.3).
    Aggregate,
    /// An attribute isn't one that its prefix has (16.2).
    Attribute,
    /// An association doesn't fit the formals (6.5.7).
    Association,
    /// The actual of a port is neither a signal nor, for an in port, a static value (6.5.6.3).
    Actual,
    /// An instance is of a unit that there isn't (11.7).
    UnitMissing,
    /// The mode of an actual doesn't fit that of its port (6.5.6.3).
    Mode,
    /// An attribute specification that isn't that of a foreign architecture (7.2, 20.2).
    Foreign,
    /// A number is too large, or its unit unknown (5.2.3.1, 5.2.4.2).
    Number,
    /// A value that is needed before the run reads a signal or variable.
    ReadsObject,
}

impl Rule {
    /// The number of the rule, from 1.
    pub fn number(self) -> u8
        ensures { result ≡ number_of self }
    {
        match self {
            Rule::UnitTwice => 1,
            Rule::EntityMissing => 2,
            Rule::EndName => 3,
            Rule::DeclaredTwice => 4,
            Rule::Undeclared => 5,
            Rule::WrongKind => 6,
            Rule::UnknownLibrary => 7,
            Rule::Constraint => 8,
            Rule::Unbounded => 9,
            Rule::Type => 10,
            Rule::NotAssignable => 11,
            Rule::WaitNotAllowed => 12,
            Rule::Sensitivity => 13,
            Rule::NoSuchLoop => 14,
            Rule::CaseChoice => 15,
            Rule::Aggregate => 16,
            Rule::Attribute => 17,
            Rule::Association => 18,
            Rule::Actual => 19,
            Rule::UnitMissing => 20,
            Rule::Mode => 21,
            Rule::Foreign => 22,
            Rule::Number => 23,
            Rule::ReadsObject => 24,
        }
    }
}

/// A broken rule, and the place of the name or expression that breaks it, in bytes from 0.
#[derive(Clone, Copy, Debug, PartialEq, Eq)]
pub struct Fault {
    pub place: u32,
    pub rule: Rule,
}
