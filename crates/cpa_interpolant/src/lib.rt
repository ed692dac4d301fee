//! Interpolants along a path of an automaton: an expression at each cut, by which the path has no
//! run, or why there is none. The definition stands in specs/Along.
#![tactic(auto)]

mod outcome;
mod walking;

pub use outcome::Along;
pub use walking::{along, along_par};
