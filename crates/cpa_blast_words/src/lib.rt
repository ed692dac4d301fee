//! Words of literals, the low bit first, and the circuits of sums, masks, comparisons and casts.
//! The definitions stand in specs/Rows, specs/Walks and specs/Words.
#![tactic(auto)]

mod laws;
mod rows;
mod walks;
mod words;

pub use laws::{
    comparisons_compare, masks_are_bitwise, sums_are_sums, walks_mean_their_rows, words_are_long,
    words_are_numbers, words_mean_their_operators, words_wrap_at_types,
};
pub use rows::Row;
pub use walks::{Walked, walk};
pub use words::{
    and_word, cast_word, choose_word, constant_word, difference_word, equal, filling, joined, less,
    less_signed, negated_word, opposites, or_word, push_all, push_repeated, repeated, some_bit,
    sum_word, xor_word,
};
