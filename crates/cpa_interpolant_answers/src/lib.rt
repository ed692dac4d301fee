//! One cut of a path, answered: the expression behind it, or why there is none. The definition
//! stands in specs/Answers.
#![tactic(auto)]

mod answer;
mod answering;
mod asking;
mod expressing;
mod joints;
mod modelling;

pub use answer::Answer;
pub use answering::{answer_cut, answer_cut_par};
pub use modelling::model_of;
