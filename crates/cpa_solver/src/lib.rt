//! Decides queries: their formula is searched for a model or a refutation. The definition stands in
//! specs/Decisions.
#![tactic(auto)]

mod decisions;
mod stores;

pub use decisions::{Decided, decide};
