//! The command: the words after the program's name are read, what they ask for is done over a
//! host, and the status says what came of it.
#![tactic(auto)]

mod fault;
mod obey;
mod words;

pub use fault::CommandFault;
pub use obey::vhpisim_main;
pub use words::Command;

/// What the program ends with.
#[derive(Clone, Copy, Debug, PartialEq, Eq)]
pub enum Status {
    /// The command is done.
    Done = 0,
    /// The design file is refused.
    Refused = 1,
    /// The words are no command.
    Usage = 2,
    /// Memory that was asked for could not be had.
    NoMemory = 3,
    /// The host had a fault.
    HostFault = 4,
}
