//! What an expression of an elaborated design means: its value, or the fault that comes first in the order of
//! evaluation (IEEE Std 1076-2008, clauses 8 and 9).
//!
//! An expression has a meaning over any objects. Where it names an object that isn't there, or an operand of another
//! type, which the static rules don't let through, the value has no element, or the number is 0; so no call here asks
//! for anything.
#![tactic(auto)]

mod aggregates;
mod attributes;
mod environment;
mod locating;
mod meaning;
mod objects;
mod reading;

pub use aggregates::{Chosen, Element, is_chosen};
pub use environment::Env;
pub use locating::Located;
pub use meaning::{bounds_at, choose, eval, locate};
pub use sim_operators::Fault;
