//! The design files of the first form, which are those that can be run so far: an entity and an
//! architecture of it, with signals of type BIT and at most one assignment of literal values to each.
//! docs/FIRST_FORM.md has the form. The syntax tree of each text of it stands for a design, and every
//! other tree is refused.
#![tactic(auto)]

mod building;
mod design;
mod fault;
mod form;
pub mod laws;
mod reading;

pub use design::design_of_form;
pub use fault::FormError;
