//! Why a case isn't tried.

use sim_memory::NoMemory;
use std::alloc::{AllocError, AllocFailed};

/// Why a case isn't tried.
#[derive(Clone, Copy, Debug, PartialEq, Eq)]
pub enum Trouble {
    /// Memory that was asked for could not be had.
    NoMemory,
    /// The case isn't laid out as its kind asks.
    Malformed,
}

impl From<AllocError> for Trouble {
    fn from(_error: AllocError) -> Trouble {
        Trouble::NoMemory
    }
}

impl<T: Drop> From<AllocFailed<T>> for Trouble {
    fn from(_error: AllocFailed<T>) -> Trouble {
        Trouble::NoMemory
    }
}

impl From<NoMemory> for Trouble {
    fn from(_error: NoMemory) -> Trouble {
        Trouble::NoMemory
    }
}
