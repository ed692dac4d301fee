//! Rows that call `Location`, `Callstack`, `Value` and `Interval`, through the trait's bound and
//! through a box. README.md says how the wanted answers were made.

mod asking;
mod boxes;
mod questions;
mod rows;

pub use asking::push_called;
pub use boxes::Boxes;
pub use questions::{Call, Question, call_of, path_of, question_of};
pub use rows::push_answer;
