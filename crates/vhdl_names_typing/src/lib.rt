//! What the expressions and names of a design denote: the types that they can have, whether they are
//! globally static, and the rules that they break (IEEE Std 1076-2008, clauses 8, 9, 12.5 and 16.2).
#![tactic(auto)]

mod attributed;
mod attributes;
mod changes;
mod expressions;
mod faults;
mod indexed;
mod literals;
mod named;
mod names;
mod ranges;
mod scope;
mod told;
mod trees;

pub use attributes::{attribute_of, is_signal_class, is_static_class};
pub use expressions::{choice_is_static, is_others, is_relation};
pub use faults::{append, asks, at, break_if, is_known, typing_of, with_bounds, without_bounds};
pub use literals::{femtoseconds_in, unit_in};
pub use named::{LiteralBounds, literal_bounds};
pub use names::{begun, extended, finished, value_of};
pub use ranges::range_name;
pub use scope::look;
pub use told::{
    Attribute, BoundsTold, ChoiceTold, Denotes, Form, ItemTold, LinkTold, NameTold, ObjectName,
    PartTold, Told, TypeAttribute,
};
pub use trees::{tell, tell_bounds, tell_choice, tell_name};
