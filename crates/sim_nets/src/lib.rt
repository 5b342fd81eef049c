//! The values of signals: how the elements of nets follow their drivers, the ports that are
//! connected to them, and what is deposited on them (IEEE Std 1076-2008, 14.7.3).
#![tactic(auto)]

mod element;
pub mod laws;
mod resolving;

pub use element::{Cell, Deposit, Element, Falling, PutMode, Rising, fall, fallen_cell, rise};
pub use resolving::{Sources, logic_at};
