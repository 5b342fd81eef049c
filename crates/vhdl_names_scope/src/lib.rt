//! Declarative regions and what a name denotes in them: hiding and overloading, and the region of what is
//! always visible (IEEE Std 1076-2008, clauses 12.1 to 12.5 and 16).
#![tactic(auto)]

mod further;
mod hiding;
mod pairs;
mod predefined;
mod region;
mod regions;
mod spelling;

pub use further::Further;
pub use hiding::overloading;
pub use predefined::{STANDARD_MARKS, standard, standard_numbers};
pub use region::{Declared, Region};
pub use regions::Regions;
pub use spelling::word;
