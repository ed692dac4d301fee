//! What a check of a text answers: a checked text, with the trees of its core; or the first broken
//! rule, the size of the core among the rules. The definitions are in `specs/`.
#![tactic(auto)]

mod laws;
mod text;

pub use laws::{limits, sound_texts_are_within_limits, there_is_one_checked_text};
pub use text::CheckedText;
