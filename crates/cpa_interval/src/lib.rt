//! The analysis of intervals: an element says within which bounds the values of some cells lie
//! (`specs/Intervals.antt`). That it keeps the laws of an analysis is shown in `proofs/`.
#![tactic(auto)]

mod cells;
mod covers;
mod interval;
mod merging;
mod numbers;
mod strengthening;
mod transfer;
mod widening;

pub use interval::Interval;
pub use numbers::near_numbers;
