//! The numbers of a row. Nothing is proved of what is read but that reading is safe and ends.

use cases_reader::{RowFault, number_of_word};
use cpa_model::Seq;
use std::alloc::Global;

/// The numbers that words spell.
pub fn numbers_of(alloc: Global, words: &[&str]) -> Result<Seq<i128>, RowFault> {
    let mut numbers = Seq::new(alloc);
    for word in words {
        numbers.push(number_of_word(word)?)?;
    }
    Ok(numbers)
}
