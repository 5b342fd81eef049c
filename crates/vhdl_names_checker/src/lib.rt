//! The static rules along a design file: what stands around a place, and which rules are broken there.
#![tactic(auto)]

mod checker;
mod declaring;
mod entities;
mod instances;
mod interface;
mod statements;
mod surroundings;
mod telling;

pub use checker::Checker;
pub use declaring::type_or;
pub use entities::entity_number;
pub use instances::{entity_for, formal_in, interface_or};
pub use interface::Interface;
pub use surroundings::{Surroundings, architecture_key};
