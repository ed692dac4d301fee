//! Why a part was not read. What each answer says is `Faults` of `specs/Reading.antt`.
//! Proved by the checker alone.

ghost use Rattle.std.specs.Prelude.{◌≡◌};
ghost use Rattle.c_grammar_forms.specs.declared.fault.ReadError.TheVariants.{OutOfMemory};

use std::alloc::{AllocError, AllocFailed};

/// Why a part was not read. Places are numbers of tokens.
#[derive(Clone, Copy, PartialEq, Eq)]
pub enum ReadError {
    /// No part goes on through this token.
    Unexpected { at: usize },
    /// A part that begins at this token stands deeper than the limit.
    TooDeep { at: usize },
    /// Memory ran out. This says nothing of the text.
    OutOfMemory,
}

impl From<AllocError> for ReadError {
    ghost from_gives = { λ _ error. error ≡ OutOfMemory };

    fn from(_error: AllocError) -> ReadError {
        ReadError::OutOfMemory
    }
}

impl<T: Drop> From<AllocFailed<T>> for ReadError {
    ghost from_gives = { λ _ error. error ≡ OutOfMemory };

    fn from(_failed: AllocFailed<T>) -> ReadError {
        ReadError::OutOfMemory
    }
}
