//! A row as it is printed. Nothing is proved of it but that it comes.

use crate::fault::RowFault;
use std::alloc::{AllocError, Global};

/// A row with its answer, or `unreadable` where none was told. What a row that cannot be read has
/// added to its answer is left out.
pub fn printed(
    alloc: Global,
    line: &str,
    answer: &str,
    told: Result<(), RowFault>,
) -> Result<String, AllocError> {
    let text = match told {
        Ok(()) => answer,
        Err(RowFault::Unreadable) => " = unreadable",
        Err(RowFault::OutOfMemory) => return Err(AllocError),
    };
    format!(in alloc; "{line}{text}")
}
