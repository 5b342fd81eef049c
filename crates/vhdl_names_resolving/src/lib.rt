//! What the parts of a design mean by what stands around them: its declarations, its simple statements and the
//! heads of the others, and its instances (IEEE Std 1076-2008, clauses 5 to 11). What breaks a static rule may
//! have no meaning.
#![tactic(auto)]

mod declarations;
mod instances;
mod statements;
mod values;

pub use declarations::{
    attribute_resolved, declared, enumeration_resolved, label_here, objects_resolved, spelled,
    subtyped_resolved,
};
pub use instances::instance_resolved;
pub use statements::{
    assertion_resolved, assignment_resolved, choices_resolved, concurrent_resolved, jump_resolved,
    report_resolved, scheme_resolved, sensitivity_resolved, subject_resolved, variable_resolved,
    wait_resolved,
};
pub use values::value_at;
