//! Projected output waveforms of drivers (IEEE Std 1076-2008, 14.7.2): their transactions, how a
//! signal assignment edits them (10.5.2.2), and when a driver is active. Times are femtoseconds,
//! and the values of an enumeration type are its positions.
#![tactic(auto)]

mod edits;
mod schedule;
mod wave;

ghost use Rattle.std.specs.Prelude.{◌≡◌, IfOk, replicate, None};

pub use schedule::Calendar;
pub use sim_memory::NoMemory;
use std::alloc::Global;
pub use vhpi_values::{DelayMode, Transaction};
pub use wave::Wave;

/// A calendar of so many keys, none of which has a time.
pub fn calendar(alloc: Global, size: u32) -> Result<Calendar, NoMemory>
    ensures { IfOk result (λ calendar. calendar ≡ replicate size None) }
{
    Calendar::with_size(alloc, size)
}
