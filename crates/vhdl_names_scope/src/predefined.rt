//! The region of what is always visible.

ghost use Rattle.std.specs.Prelude.{◌≡◌, ◌<◌, ◌++◌, ◌∷◌, [], IfOk, OnOk, map, string_bytes};
ghost use Rattle.vhdl_names_scope.specs.Standard.{named, before, characters, behind, standard, numbers, count_up};

use crate::region::Region;
use std::alloc::{AllocError, Global};
use vhdl_units::{BaseType, Entry, Function, Mark, TimeUnit};

/// How many types and subtypes are always visible. Their declarations have the numbers below this.
pub const STANDARD_MARKS: usize = 14;

// A name that is always visible.
struct Predefined {
    name: &'static str,
    entry: Entry,
}

// Those before the literals of CHARACTER.
const BEFORE: [Predefined; 7] = [
    Predefined {
        name: "boolean",
        entry: Entry::Subtype(Mark {
            number: 0,
            base: BaseType::Boolean,
            resolved: false,
            bounded: false,
        }),
    },
    Predefined {
        name: "false",
        entry: Entry::Literal(BaseType::Boolean, 0),
    },
    Predefined {
        name: "true",
        entry: Entry::Literal(BaseType::Boolean, 1),
    },
    Predefined {
        name: "bit",
        entry: Entry::Subtype(Mark {
            number: 1,
            base: BaseType::Bit,
            resolved: false,
            bounded: false,
        }),
    },
    Predefined {
        name: "'0'",
        entry: Entry::Literal(BaseType::Bit, 0),
    },
    Predefined {
        name: "'1'",
        entry: Entry::Literal(BaseType::Bit, 1),
    },
    Predefined {
        name: "character",
        entry: Entry::Subtype(Mark {
            number: 2,
            base: BaseType::Character,
            resolved: false,
            bounded: false,
        }),
    },
];

// Those behind them.
const BEHIND: [Predefined; 32] = [
    Predefined {
        name: "integer",
        entry: Entry::Subtype(Mark {
            number: 3,
            base: BaseType::Integer,
            resolved: false,
            bounded: false,
        }),
    },
    Predefined {
        name: "natural",
        entry: Entry::Subtype(Mark {
            number: 4,
            base: BaseType::Integer,
            resolved: false,
            bounded: false,
        }),
    },
    Predefined {
        name: "positive",
        entry: Entry::Subtype(Mark {
            number: 5,
            base: BaseType::Integer,
            resolved: false,
            bounded: false,
        }),
    },
    Predefined {
        name: "time",
        entry: Entry::Subtype(Mark {
            number: 6,
            base: BaseType::Time,
            resolved: false,
            bounded: false,
        }),
    },
    Predefined {
        name: "string",
        entry: Entry::Subtype(Mark {
            number: 7,
            base: BaseType::String,
            resolved: false,
            bounded: false,
        }),
    },
    Predefined {
        name: "bit_vector",
        entry: Entry::Subtype(Mark {
            number: 8,
            base: BaseType::BitVector,
            resolved: false,
            bounded: false,
        }),
    },
    Predefined {
        name: "integer_vector",
        entry: Entry::Subtype(Mark {
            number: 9,
            base: BaseType::IntegerVector,
            resolved: false,
            bounded: false,
        }),
    },
    Predefined {
        name: "std_ulogic",
        entry: Entry::Subtype(Mark {
            number: 10,
            base: BaseType::StdUlogic,
            resolved: false,
            bounded: false,
        }),
    },
    Predefined {
        name: "'U'",
        entry: Entry::Literal(BaseType::StdUlogic, 0),
    },
    Predefined {
        name: "'X'",
        entry: Entry::Literal(BaseType::StdUlogic, 1),
    },
    Predefined {
        name: "'0'",
        entry: Entry::Literal(BaseType::StdUlogic, 2),
    },
    Predefined {
        name: "'1'",
        entry: Entry::Literal(BaseType::StdUlogic, 3),
    },
    Predefined {
        name: "'Z'",
        entry: Entry::Literal(BaseType::StdUlogic, 4),
    },
    Predefined {
        name: "'W'",
        entry: Entry::Literal(BaseType::StdUlogic, 5),
    },
    Predefined {
        name: "'L'",
        entry: Entry::Literal(BaseType::StdUlogic, 6),
    },
    Predefined {
        name: "'H'",
        entry: Entry::Literal(BaseType::StdUlogic, 7),
    },
    Predefined {
        name: "'-'",
        entry: Entry::Literal(BaseType::StdUlogic, 8),
    },
    Predefined {
        name: "std_logic",
        entry: Entry::Subtype(Mark {
            number: 11,
            base: BaseType::StdUlogic,
            resolved: true,
            bounded: false,
        }),
    },
    Predefined {
        name: "std_ulogic_vector",
        entry: Entry::Subtype(Mark {
            number: 12,
            base: BaseType::StdUlogicVector,
            resolved: false,
            bounded: false,
        }),
    },
    Predefined {
        name: "std_logic_vector",
        entry: Entry::Subtype(Mark {
            number: 13,
            base: BaseType::StdUlogicVector,
            resolved: true,
            bounded: false,
        }),
    },
    Predefined {
        name: "rising_edge",
        entry: Entry::Function(Function::RisingEdge),
    },
    Predefined {
        name: "falling_edge",
        entry: Entry::Function(Function::FallingEdge),
    },
    Predefined {
        name: "to_x01",
        entry: Entry::Function(Function::ToX01),
    },
    Predefined {
        name: "now",
        entry: Entry::Function(Function::Now),
    },
    Predefined {
        name: "fs",
        entry: Entry::Unit(TimeUnit::Femtosecond),
    },
    Predefined {
        name: "ps",
        entry: Entry::Unit(TimeUnit::Picosecond),
    },
    Predefined {
        name: "ns",
        entry: Entry::Unit(TimeUnit::Nanosecond),
    },
    Predefined {
        name: "us",
        entry: Entry::Unit(TimeUnit::Microsecond),
    },
    Predefined {
        name: "ms",
        entry: Entry::Unit(TimeUnit::Millisecond),
    },
    Predefined {
        name: "sec",
        entry: Entry::Unit(TimeUnit::Second),
    },
    Predefined {
        name: "min",
        entry: Entry::Unit(TimeUnit::Minute),
    },
    Predefined {
        name: "hr",
        entry: Entry::Unit(TimeUnit::Hour),
    },
];

fn add_all(region: &mut Region, alloc: Global, all: &[Predefined]) -> Result<(), AllocError>
    ensures { OnOk result (region.new ≡ region.old ++ map named all.now) }
{
    for predefined in all {
        region.add(String::from_str(alloc, predefined.name)?, predefined.entry)?;
    }
    Ok(())
}

#[tactic(auto, unfolding(crate::specs::Standard::before))]
fn add_before(region: &mut Region, alloc: Global) -> Result<(), AllocError>
    ensures { OnOk result (region.new ≡ region.old ++ before) }
{
    add_all(region, alloc, &BEFORE)
}

#[tactic(auto, unfolding(crate::specs::Standard::behind))]
fn add_behind(region: &mut Region, alloc: Global) -> Result<(), AllocError>
    ensures { OnOk result (region.new ≡ region.old ++ behind) }
{
    add_all(region, alloc, &BEHIND)
}

// The spelling of a character literal.
fn spelled(alloc: Global, character: u8) -> Result<String, AllocError>
    requires { character < 128 }
    ensures { IfOk result (λ name. string_bytes name ≡ 39 ∷ character ∷ 39 ∷ []) }
{
    let mut name = String::new(alloc);
    name.push('\'')?;
    name.push(char::from(character))?;
    name.push('\'')?;
    Ok(name)
}

#[tactic(auto, unfolding(crate::specs::Standard::characters))]
fn add_characters(region: &mut Region, alloc: Global) -> Result<(), AllocError>
    ensures { OnOk result (region.new ≡ region.old ++ characters) }
{
    for count in 0u8..95 {
        let position = 32 + count;
        let name = spelled(alloc, position)?;
        region.add(
            name,
            Entry::Literal(BaseType::Character, usize::from(position)),
        )?;
    }
    Ok(())
}

/// The region of what is always visible (16.3, and IEEE.STD_LOGIC_1164): the types with their literals and
/// the subtypes, the functions, and the units of TIME. CHARACTER has those literals that can be spelled.
#[tactic(auto, unfolding(crate::specs::Standard::standard))]
pub fn standard(alloc: Global) -> Result<Region, AllocError>
    ensures { IfOk result (λ region. region ≡ standard) }
{
    let mut region = Region::new(alloc);
    add_before(&mut region, alloc)?;
    add_characters(&mut region, alloc)?;
    add_behind(&mut region, alloc)?;
    Ok(region)
}

/// The types and subtypes that are always visible are numbered in their order, from 0.
pub fn standard_numbers()
    ensures { numbers standard ≡ count_up STANDARD_MARKS }
{}
