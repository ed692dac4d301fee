//! Paths of an automaton judged: whether there is a run along a path, which its inputs are, and
//! what is needed along it. The definitions stand in specs/Paths and specs/Judgements.
#![tactic(auto)]

mod asking;
mod chaining;
mod judging;
mod walking;
mod weighing;

pub use cpa_folds::{carried, needed};
pub use judging::{Judged, judge};
pub use weighing::path_weight;
