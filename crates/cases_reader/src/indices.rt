//! The indices of a row, as a text or as words. Nothing is proved of what is read but that reading
//! is safe and ends.

use crate::fault::RowFault;
use crate::row::words_of;
use crate::words::index_of_word;
use cpa_ints::Seq;
use std::alloc::Global;

/// The indices that a text spells.
pub fn indices_of(alloc: Global, text: &str) -> Result<Seq<u32>, RowFault> {
    let words = words_of(alloc, text)?;
    indices_of_words(alloc, &words)
}

/// The indices of words.
pub fn indices_of_words(alloc: Global, words: &[&str]) -> Result<Seq<u32>, RowFault> {
    let mut indices = Seq::new(alloc);
    for word in words {
        indices.push(index_of_word(word)?)?;
    }
    Ok(indices)
}
