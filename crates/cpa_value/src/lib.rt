//! The analysis of explicit values: it keeps the values of tracked cells. What each call gives
//! stands in `specs/`; that it keeps the laws is proved over these definitions.
#![tactic(auto)]

mod cells;
mod limits;
mod merging;
mod strengthening;
mod transfer;
mod value;

pub use cpa_value_changes::{Gap, KnownCells, ScalarValue, known_value};
pub use value::Value;
