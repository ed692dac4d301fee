//! The analysis of predicates that come of interpolants along paths: what it means stands in
//! specs/Craigs, its refinement in specs/Refining, a walk along a path in specs/Walks.
#![tactic(auto)]

mod craig;
mod reading;
mod refining;
mod walking;

pub use craig::Craig;
