//! Operators on values (IEEE Std 1076-2008, clauses 5.2.3, 5.2.4 and 9.2), with the faults that they can end in.
//!
//! A value is seen as the list of its elements: positions of an enumeration type, integers or femtoseconds. Each call
//! answers for any operands: what the static rules don't let through has an answer too.
#![tactic(auto)]

mod applying;
mod fault;
mod logic;
mod numbers;
mod scalars;

pub use applying::{apply, apply_unary, are_equal, decided};
pub use fault::Fault;
pub use logic::{is_true, truth, x01};
pub use numbers::calculate;
pub use scalars::{first_of, scalar};
