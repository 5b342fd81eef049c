//! The units of a design file as plain data, and what their names may denote: types, objects, literals, functions,
//! units of time and labels; the type of each expression, which indices and slices are globally static, and the lines
//! and spellings that are needed later (IEEE Std 1076-2008, clauses 3 to 13). Nothing here refers to the text.
#![tactic(auto)]

mod base_type;
mod declarations;
mod entry;
mod fault;
mod held;
mod statements;
mod units;
mod values;

pub use base_type::BaseType;
pub use declarations::{
    Declared, ResolvedConstraint, ResolvedDeclaration, ResolvedObjects, ResolvedSubtype,
    ResolvedType,
};
pub use entry::{Class, Entry, Function, Mark, Object, TimeUnit};
pub use fault::{Fault, Rule};
pub use held::Held;
pub use statements::{
    ResolvedArm, ResolvedAssertion, ResolvedAssignment, ResolvedBody, ResolvedCase, ResolvedDelay,
    ResolvedElement, ResolvedElsif, ResolvedIf, ResolvedJump, ResolvedLoop, ResolvedReport,
    ResolvedScheme, ResolvedStatement, ResolvedWait, Severity,
};
pub use units::{
    ResolvedActual, ResolvedAlternative, ResolvedArchitecture, ResolvedAssociation,
    ResolvedConcurrent, ResolvedConcurrentAssignment, ResolvedConcurrentBody, ResolvedEntity,
    ResolvedInstance, ResolvedProcess, ResolvedSensitivity, ResolvedUnit, Units,
};
pub use values::{
    ChoiceValue, ItemValue, LinkValue, ObjectAttribute, PartValue, RangeValue, Reference, Value,
};
