ghost use Rattle.std.specs.Prelude.{◌≡◌};
ghost use Rattle.first_form.specs.declared.fault.FormError.TheVariants.{NoMemory};

use std::alloc::{AllocError, AllocFailed};

/// Why a tree has no design.
#[derive(Clone, Copy, Debug, PartialEq, Eq, Drop)]
pub enum FormError {
    /// The tree is not of the first form.
    NotBuilt,
    /// Memory ran out.
    NoMemory,
}

impl From<AllocError> for FormError {
    ghost from_gives = { λ _ e. e ≡ NoMemory };

    fn from(_e: AllocError) -> FormError {
        FormError::NoMemory
    }
}

impl<T: Drop> From<AllocFailed<T>> for FormError {
    ghost from_gives = { λ _ e. e ≡ NoMemory };

    fn from(_e: AllocFailed<T>) -> FormError {
        FormError::NoMemory
    }
}
