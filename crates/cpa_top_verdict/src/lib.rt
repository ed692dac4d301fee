//! From a program and the handed analyses to the verdict and the text of its report:
//! `specs/Verdicts.antt`. What follows of a verdict is `specs/Reports.antt`, as laws.
#![tactic(auto)]

mod analysing;
mod bodies;
mod laws;
mod reporting;
mod telling;

pub use analysing::answer_on;
pub use laws::{false_calls_the_error, picks_are_places, true_is_safe};
pub use reporting::{Told, told_of};
pub use telling::tell;
