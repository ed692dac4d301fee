//! The algorithm of configurable program analysis with refinement (CAV 2007, section 2, and ASE
//! 2008): rounds of turns, paths to entries that may be errors, and the verdict. What an answer
//! says is `specs/Answers.antt`, and when it comes `specs/Decided.antt`.
#![tactic(auto)]

mod analysing;
mod answers;
mod judging;
mod laws;
mod refining;
mod round;
mod search;

pub use analysing::analyse;
pub use answers::{Answer, Why};
pub use cpa_engine_turn::turn;
