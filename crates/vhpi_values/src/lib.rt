//! VHDL types and their values.
#![tactic(auto)]

mod driving;
mod formats;
pub mod laws;
mod printing;
mod reading;
mod sequence;
mod types;
mod values;
mod writing;

pub use driving::{DelayMode, Severity, Transaction};
pub use formats::{Format, FormatError, Formatted, ValueError};
pub use printing::print_value;
pub use reading::read_value;
pub use sequence::Sequence;
pub use sim_memory::NoMemory;
pub use types::{Base, IndexRange, Literal, Ty};
pub use values::{Val, default_of, fits};
pub use writing::{format_value, goes_with};
