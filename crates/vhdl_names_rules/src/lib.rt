//! The static rules, each of what an expression, a name, a declaration or a statement tells: which of them
//! are broken, and where.
#![tactic(auto)]

mod associations;
mod cases;
mod objects;
mod order;
mod statements;
mod subtypes;
mod told;
mod units;
mod values;

pub use associations::map_faults;
pub use cases::{arm_faults, subject_faults, subject_type};
pub use objects::{objects_faults, subtype_faults};
pub use statements::{
    jump_faults, sensitivity_faults, severity_faults, severity_named, signal_assignment_faults,
    variable_assignment_faults, wait_faults,
};
pub use subtypes::{
    indexed, loop_range, loop_type, mark_in, mark_names, ranged, unconstrained, with_index,
};
pub use told::{
    ActualTold, AssociationTold, ElementTold, FormalTold, ObjectsTold, SubtypeTold, WaitTold,
};
pub use units::{attribute_faults, end_faults, is_word, library_faults, use_faults};
pub use values::{asked, asked_optional, tested, valued};
