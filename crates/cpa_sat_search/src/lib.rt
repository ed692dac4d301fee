//! The turns of a clause search: conflict-driven clause learning, whose every learned clause comes
//! with the chain of resolutions that gives it.
#![tactic(auto)]

mod analysis;
mod conflict;
mod engine;
mod found;
mod quality;
mod redundancy;
mod start;

pub use found::Found;
pub use start::solve;
