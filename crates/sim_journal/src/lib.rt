//! The entries of a journal and their lines: what a run writes, in the order in which it happens.
//! One line an entry, ended by one line feed. Times are femtoseconds and numbers are decimal.
#![tactic(auto)]

mod lines;

pub use lines::{append_entry, print_entry};
pub use sim_memory::NoMemory;

/// How a run ends, with the time and the number of the cycle at which it does.
#[derive(Clone, Copy, Debug, PartialEq, Eq)]
pub enum End {
    /// There is no next time: nothing is to happen any more.
    Quiet { now: u64, cycle: u32 },
    /// The cycle that was asked for as the last one is done.
    CycleLimit { now: u64, cycle: u32 },
}

/// One entry of a journal.
#[derive(Clone, Copy, Debug, PartialEq, Eq)]
pub enum Entry {
    /// A simulation cycle begins at the time `now`; `delta` counts the delta cycles at this time,
    /// and `cycle` all cycles.
    Time { now: u64, delta: u32, cycle: u32 },
    /// The net has an event: its value, the position of a BIT, has changed to this one.
    Event { net: u32, value: i64 },
    /// The run is over.
    Ended(End),
}
