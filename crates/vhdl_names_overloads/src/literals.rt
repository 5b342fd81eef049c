//! Enumeration literals by their types.

ghost use Rattle.std.specs.Prelude.{◌≡◌};
ghost use Rattle.vhdl_names_overloads.specs.Literals as spec;
ghost use Rattle.vhdl_names_overloads.specs.Tables.{own_number};

use vhdl_units::{BaseType, Entry};

/// The type of an enumeration literal.
#[tactic(auto, unfolding(crate::specs::Literals::literal_type))]
pub(crate) fn literal_type(entry: Entry) -> Option<BaseType>
    ensures { result ≡ spec.literal_type entry }
{
    match entry {
        Entry::Literal(base, _) => Some(base),
        _ => None,
    }
}

/// The position of a literal of the type `base`.
#[tactic(auto, unfolding(crate::specs::Literals::position_in))]
pub(crate) fn position_in(base: BaseType, entry: Entry) -> Option<usize>
    ensures { result ≡ spec.position_in base entry }
{
    match entry {
        Entry::Literal(other, position) => if base.is(other) { Some(position) } else { None },
        _ => None,
    }
}

/// The position of the first literal of the type `base`, where each is looked at.
#[tactic(auto, unfolding(crate::specs::Literals::position_of, crate::specs::Literals::or_else))]
pub(crate) fn position_among(base: BaseType, entries: &[Entry]) -> Option<usize>
    ensures { result ≡ spec.position_of base entries.now }
{
    for entry in entries {
        if let Some(position) = position_in(base, *entry) {
            return Some(position);
        }
    }
    None
}

/// The number of an enumeration type of the design.
#[tactic(auto, unfolding(crate::specs::Tables::own_number))]
pub(crate) fn own_number(base: BaseType) -> Option<usize>
    ensures { result ≡ own_number base }
{
    match base {
        BaseType::Own(number) => Some(number),
        _ => None,
    }
}
