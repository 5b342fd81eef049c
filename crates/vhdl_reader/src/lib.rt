//! The reader of design files: concurrent statements and design units (IEEE Std 1076-2008, clauses 3, 11 and 13), and how
//! deep they nest.
#![tactic(auto)]

mod architectures;
mod assignments;
mod concurrent;
mod depth;
mod design;
mod error;
mod instances;
mod processes;
mod tables;
mod units;

pub use design::{one_syntax_fault, one_tree, read_design};
pub use error::SyntaxError;
