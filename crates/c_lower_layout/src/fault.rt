//! Why a text has no layout.
ghost use Rattle.std.specs.Prelude.{◌≡◌};
ghost use Rattle.c_lower_layout.specs.declared.fault.CoreError.TheVariants.{OutOfMemory};

use std::alloc::{AllocError, AllocFailed};

/// Why a text has no layout.
#[derive(Debug, Clone, Copy, PartialEq, Eq, Drop)]
pub enum CoreError {
    /// Its core has more cells or points, or a higher expression, than a program may have.
    TooLarge,
    OutOfMemory,
}

impl From<AllocError> for CoreError {
    ghost from_gives = { λ _ error. error ≡ OutOfMemory };

    fn from(_error: AllocError) -> CoreError {
        CoreError::OutOfMemory
    }
}

impl<T: Drop> From<AllocFailed<T>> for CoreError {
    ghost from_gives = { λ _ error. error ≡ OutOfMemory };

    fn from(_failed: AllocFailed<T>) -> CoreError {
        CoreError::OutOfMemory
    }
}
