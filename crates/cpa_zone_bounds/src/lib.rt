//! Bounds of the differences of numbers: a square of rows and columns, its closure, and what
//! becomes of it where a number changes. The definitions stand in `specs/`.
#![tactic(auto)]

mod bounds;
mod changes;
mod closing;
mod laws;
mod limits;
mod places;
mod ranges;

pub use bounds::Bounds;
pub use changes::Change;
pub use laws::{bounds_stay_kept, changes_are_met, closures_are_exact, widening_ends};
pub use limits::{joined, widened};
pub use ranges::Range;
