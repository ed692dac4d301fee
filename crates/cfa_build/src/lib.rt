//! The control-flow automaton of a program: its edges are exactly the moves of `cpa_model`,
//! in order (`specs/Edges.antt`, `IsAutomatonOf` of `cpa_model`). Proved in `proofs/Whole.antt`.
#![tactic(auto)]

mod automaton;
mod edges;
mod errors;
mod places;
mod sites;

pub use automaton::build;
