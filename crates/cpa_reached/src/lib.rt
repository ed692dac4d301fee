//! The reached set of an exploration: entries by number, which of them wait, and the journal of the
//! turns. Each call does exactly what `Calls`, `Removal` and `Paths` of `specs/` say.
#![tactic(auto)]

mod finding;
mod index;
mod laws;
mod levels;
mod links;
mod lists;
mod marks;
mod opening;
mod pruning;
mod reached;
mod renaming;
mod sharing;
mod table;
mod tracing;

pub use cpa_reached_key::Key;
pub use laws::calls_keep_cover;
pub use marks::{Mark, watch};
pub use reached::Reached;
pub use table::NUMBERS;
