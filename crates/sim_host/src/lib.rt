//! What the simulator asks of the outside: files that are read, channels that are written, and a host that does both.
#![tactic(auto)]

ghost use Rattle.std.specs.Prelude.{◌≡◌, IfOk};

mod channels;
mod errors;
mod hosts;
mod memory;
mod names;
mod reading;
mod system;
mod writing;

pub use channels::Channel;
pub use errors::{HostError, ReadError};
pub use hosts::Host;
pub use memory::{MemoryHost, memory_host, memory_host_without_faults};
pub use names::{Asked, Name};
pub use reading::read_all;
pub use sim_memory::NoMemory;
use std::alloc::Global;
pub use system::FileHost;
pub use writing::write_all;

/// The name of these bytes.
pub fn name(alloc: Global, text: &str) -> Result<Name, NoMemory>
    ensures { IfOk result (λ n. n ≡ text.now) }
{
    Name::from_text(alloc, text)
}
