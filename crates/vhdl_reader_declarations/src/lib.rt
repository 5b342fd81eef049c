//! The readers of declarations, interfaces and entities (IEEE Std 1076-2008, clauses 3.2, 5 and 6).
#![tactic(auto)]

mod declarations;
mod entities;
mod interfaces;
mod objects;
mod parts;
mod subtypes;
mod tables;
mod types;

pub use declarations::Declarations;
