//! Rows that call a composite, turns over it and whole analyses, with lawful analyses of their own
//! (`specs/Samples.antt`). README.md says how the wanted answers were made.

mod analysing;
mod asking;
mod blind;
mod counter;
mod eager;
mod exploring;
mod guess;
mod picking;
mod questions;
mod rows;

pub use blind::Blind;
pub use counter::Counter;
pub use eager::Eager;
pub use guess::Guess;
pub use picking::picks_of;
pub use questions::{Question, question_of};
pub use rows::push_asked;
