//! What an expression can end in without a value.

ghost use Rattle.std.specs.Prelude.{◌≡◌};
ghost use Rattle.sim_operators.specs.declared.fault.Fault.TheVariants as fault;

use sim_memory::NoMemory;
use std::alloc::{AllocError, AllocFailed};

/// A fault in the run of a process.
#[derive(Clone, Copy, Debug, PartialEq, Eq)]
pub enum Fault {
    /// An index that its array hasn't, or an end of a slice.
    Index(i64),
    /// A value outside its subtype, or the length of an array that doesn't fit.
    Range(i64),
    /// A division by zero.
    DivZero,
    /// A number outside INTEGER or TIME.
    Overflow,
    /// A time past TIME'HIGH.
    TimeOverflow,
    /// Memory could not be had.
    NoMemory,
}

impl From<NoMemory> for Fault {
    ghost from_gives = { λ _ e. e ≡ fault.NoMemory };

    fn from(_error: NoMemory) -> Fault {
        Fault::NoMemory
    }
}

impl From<AllocError> for Fault {
    ghost from_gives = { λ _ e. e ≡ fault.NoMemory };

    fn from(_error: AllocError) -> Fault {
        Fault::NoMemory
    }
}

impl<T: Drop> From<AllocFailed<T>> for Fault {
    ghost from_gives = { λ _ e. e ≡ fault.NoMemory };

    fn from(_error: AllocFailed<T>) -> Fault {
        Fault::NoMemory
    }
}
