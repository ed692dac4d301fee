//! Why a file gives no inputs: it is no list of numbers in range, or memory was short.
//! Proved by the checker alone.
ghost use Rattle.std.specs.Prelude.{◌≡◌};
ghost use Rattle.cpa_top_jobs.specs.declared.inputs_error.InputsError.TheVariants.{OutOfMemory};

use std::alloc::{AllocError, AllocFailed};
use thiserror::Error;

/// Why no inputs were read.
#[derive(Clone, Copy, Debug, PartialEq, Eq, Error)]
pub(crate) enum InputsError {
    /// The bytes are no JSON list of whole numbers from -2^63 to 2^64 - 1.
    #[error("no list of whole numbers")]
    NoList,
    /// Memory ran out. This says nothing of the bytes.
    #[error("out of memory")]
    OutOfMemory,
}

impl From<AllocError> for InputsError {
    ghost from_gives = { λ _ error. error ≡ OutOfMemory };

    fn from(_error: AllocError) -> InputsError {
        InputsError::OutOfMemory
    }
}

impl<T: Drop> From<AllocFailed<T>> for InputsError {
    ghost from_gives = { λ _ error. error ≡ OutOfMemory };

    fn from(_failed: AllocFailed<T>) -> InputsError {
        InputsError::OutOfMemory
    }
}
