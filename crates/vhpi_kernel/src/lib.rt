//! The kernel: it makes a run of a design, section by section. It keeps the state of the simulation, and the entries of
//! the journal until they are taken. The definitions of a run stand in `specs`: its state, the update of drivers and
//! nets, the simulation cycle, and whole runs (IEEE Std 1076-2008, 14.7).
#![tactic(auto)]

mod index;
mod kernel;
pub mod laws;
mod signals;
mod steps;

pub use kernel::Kernel;
use sim_journal::End;
pub use sim_memory::NoMemory;

/// What a run is asked for: the number of the cycle with which it ends at the latest.
#[derive(Clone, Copy, Debug, PartialEq, Eq)]
pub struct Plan {
    pub limit: u32,
}

/// How far a run has come with a call of `Kernel::advance`.
#[derive(Clone, Copy, Debug, PartialEq, Eq)]
pub enum Step {
    /// The initialization or a simulation cycle is done.
    CycleEnd,
    /// The run has ended.
    Ended(End),
}
