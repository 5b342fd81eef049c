//! Laws of the types that expressions can have. Each is a call with an empty body, which a proof cites for
//! what it ensures.

ghost use Rattle.vhdl_names_operators.specs.Laws.{OperatorsGiveTheirTypes, UnaryOperatorsGiveTheirTypes, StringsHaveTheirTypes, AggregatesHaveTheirTypes, OperatorsGiveSets, UnaryOperatorsGiveSets, StringsHaveSets, NarrowedSetsAreSets, OperatorsGiveFewTypes, UnaryOperatorsGiveFewTypes, OneFits, RelationsShareAType};

/// The types that are found are those that there can be, and no others.
pub fn types_are_exact()
    ensures operators { OperatorsGiveTheirTypes }
    ensures unary_operators { UnaryOperatorsGiveTheirTypes }
    ensures strings { StringsHaveTheirTypes }
    ensures aggregates { AggregatesHaveTheirTypes }
{}

/// No type is found twice.
pub fn types_are_sets()
    ensures operators { OperatorsGiveSets }
    ensures unary_operators { UnaryOperatorsGiveSets }
    ensures strings { StringsHaveSets }
    ensures aggregates { NarrowedSetsAreSets }
{}

/// An operator gives at most five types, however many its operands can have.
pub fn operators_give_few_types()
    ensures operators { OperatorsGiveFewTypes }
    ensures unary_operators { UnaryOperatorsGiveFewTypes }
{}

/// Where a place takes an expression, exactly one of its types is the one asked, and else none.
pub fn one_type_fits()
    ensures { OneFits }
{}

/// The operands of a relation that is accepted have one type on which it is defined, and one of them can have
/// no other; and where they have such a type, it is accepted.
pub fn relations_share_a_type()
    ensures { RelationsShareAType }
{}
