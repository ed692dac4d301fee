//! Queries: questions on stores that a solver answers. The definitions of a query and of its models
//! stand in specs/Queries.
#![tactic(auto)]

mod query;
mod reads;

pub use query::{MAX_HEIGHT, Query};
pub use reads::{mark_cells, mark_reads, read_cells};
