//! How rows name the fault of a text.
//! Proved safe by the checker alone.

use crate::Place;
use c_lexer::TextFault;
use std::alloc::{AllocError, Global};

/// The rule that a text breaks, and the place.
pub fn fault_line(alloc: Global, text: &[u8], fault: TextFault) -> Result<String, AllocError> {
    let place = Place::of(text, fault.place as usize);
    format!(in alloc; "{:?} at {place}", fault.rule)
}
