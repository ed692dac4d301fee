//! A row, taken apart at its colons. Nothing is proved of what is read but that reading is safe and
//! ends.

use std::alloc::{AllocError, Global};

/// A row, by which a program goes with one `match`: its words and parts own nothing, so that what
/// is read of them is all that waits where a later step fails.
#[derive(Drop)]
pub struct Row<'a> {
    /// The words in front of the first colon.
    pub words: Vec<&'a str>,
    /// The texts behind colons.
    pub parts: Vec<&'a str>,
}

impl<'a> Row<'a> {
    /// The row of a line.
    pub fn of(alloc: Global, line: &'a str) -> Result<Row<'a>, AllocError> {
        let mut texts = line.split(':');
        let words = words_of(alloc, texts.next().unwrap_or(""))?;
        let mut parts = Vec::new(alloc);
        for part in texts {
            parts.push(part)?;
        }
        Ok(Row { words, parts })
    }
}

/// The words of a text.
pub fn words_of<'a>(alloc: Global, text: &'a str) -> Result<Vec<&'a str>, AllocError> {
    let mut words = Vec::new(alloc);
    for word in text.split_whitespace() {
        words.push(word)?;
    }
    Ok(words)
}
