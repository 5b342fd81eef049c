//! A session: a design's text is read, its design is run, and each entry of the run's journal is
//! written to Out, section by section.
#![tactic(auto)]

mod fault;
mod reading;
mod running;

pub use fault::{DesignFault, SessionFault};
pub use reading::read_text;
pub use running::{Job, run_session};
pub use sim_memory::NoMemory;
