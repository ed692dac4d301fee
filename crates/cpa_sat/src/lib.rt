//! Clause search with resolution lines: conflict-driven clause learning, whose every learned clause
//! comes with the chain of resolutions that gives it.
#![tactic(auto)]

mod start;

pub use cpa_sat_search::Found;
pub use start::search;
