ghost use Rattle.std.specs.Prelude.{◌≡◌};
ghost use Rattle.sim_host.specs.Errors.{read_error_of};
ghost use Rattle.sim_host.specs.declared.errors.HostError.TheVariants as failure;
ghost use Rattle.sim_host.specs.declared.errors.ReadError.TheVariants as refusal;

use sim_memory::NoMemory;
use std::alloc::{AllocError, AllocFailed};
use thiserror::Error;

/// Why a call of a host failed.
#[derive(Clone, Copy, Debug, PartialEq, Eq, Error)]
pub enum HostError {
    /// The outside refused, and the host's count of faults rose.
    #[error("host fault")]
    Fault,
    /// Memory ran out.
    #[error("no memory")]
    NoMemory,
}

impl From<NoMemory> for HostError {
    ghost from_gives = { λ _ e. e ≡ failure.NoMemory };

    fn from(_: NoMemory) -> HostError {
        HostError::NoMemory
    }
}

impl From<AllocError> for HostError {
    ghost from_gives = { λ _ e. e ≡ failure.NoMemory };

    fn from(_: AllocError) -> HostError {
        HostError::NoMemory
    }
}

impl<T: Drop> From<AllocFailed<T>> for HostError {
    ghost from_gives = { λ _ e. e ≡ failure.NoMemory };

    fn from(_: AllocFailed<T>) -> HostError {
        HostError::NoMemory
    }
}

/// Why a file was not read to its end.
#[derive(Clone, Copy, Debug, PartialEq, Eq, Error)]
pub enum ReadError {
    /// The host answered a fault.
    #[error("host fault")]
    Host = 1,
    /// The file has more bytes than the limit.
    #[error("the file is too long")]
    TooLong = 2,
    /// Memory ran out.
    #[error("no memory")]
    NoMemory = 3,
}

impl From<HostError> for ReadError {
    ghost from_gives = { λ fault e. e ≡ read_error_of fault };

    fn from(fault: HostError) -> ReadError {
        match fault {
            HostError::Fault => ReadError::Host,
            HostError::NoMemory => ReadError::NoMemory,
        }
    }
}

impl From<AllocError> for ReadError {
    ghost from_gives = { λ _ e. e ≡ refusal.NoMemory };

    fn from(_: AllocError) -> ReadError {
        ReadError::NoMemory
    }
}
