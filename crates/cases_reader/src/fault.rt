//! Why a row has no answer: it says nothing that can be asked, or memory ran out. No definition
//! stands behind it.

use std::alloc::{AllocError, AllocFailed};
use std::num::ParseIntError;

/// Why a row has no answer.
#[derive(Clone, Copy, PartialEq, Eq)]
pub enum RowFault {
    /// It names no call, or does not have the words that its call takes.
    Unreadable,
    /// Memory ran out. This says nothing of the row.
    OutOfMemory,
}

impl From<AllocError> for RowFault {
    fn from(_error: AllocError) -> RowFault {
        RowFault::OutOfMemory
    }
}

impl<T: Drop> From<AllocFailed<T>> for RowFault {
    fn from(_failed: AllocFailed<T>) -> RowFault {
        RowFault::OutOfMemory
    }
}

impl From<ParseIntError> for RowFault {
    fn from(_error: ParseIntError) -> RowFault {
        RowFault::Unreadable
    }
}
