//! The names of a design file and its static rules (IEEE Std 1076-2008, clauses 5 to 13): the units with what
//! each name denotes and the type of each expression where no rule is broken, else the rule that is broken
//! first, and where.
#![tactic(auto)]

mod architectures;
mod declarations;
mod faults;
mod statements;
mod units;

pub use faults::{StaticError, one_first_fault, resolve_names};
