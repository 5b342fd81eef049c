//! The types that operators, literals and aggregates can have, over sets of the types that their operands can
//! have, and what a place asks of such a set (IEEE Std 1076-2008, clauses 9.2, 9.3 and 12.5).
//!
//! A set of types is a list without repeats. It may be long, since a literal can stand in each enumeration
//! type of a design: every call looks a few types up in it, and `common_discrete` goes through the smaller of
//! two sets.
#![tactic(auto)]

pub mod laws;
mod literals;
mod operators;
mod places;
mod relations;
mod sets;

pub use literals::{all_arrays, narrow, of_bits, of_string};
pub use operators::{can_be, can_be_from, results, results_from};
pub use places::{common_discrete, fits_alone, one_shared, only};
pub use relations::{compares, relates};
pub use sets::has;
