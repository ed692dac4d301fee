//! The words of a call, as both kinds of rows spell them.

use std::alloc::{AllocError, Global};

/// The parts of a text between blanks.
pub fn words_of(alloc: Global, text: &str) -> Result<Vec<String>, AllocError> {
    let mut parts = Vec::new(alloc);
    for part in text.split_whitespace() {
        parts.push(String::from_str(alloc, part)?)?;
    }
    Ok(parts)
}
