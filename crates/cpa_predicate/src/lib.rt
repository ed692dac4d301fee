//! The analysis of Cartesian predicates: an element gives the truths of some expressions, each
//! found by itself by questions to the solver (`specs/Transfer.antt`). That it keeps the laws of an
//! analysis is shown in `proofs/`.
#![tactic(auto)]

mod asking;
mod before;
mod findings;
mod fingerprints;
mod guessing;
mod known;
mod leading;
mod nearness;
mod predicate;
mod refining;
mod resting;
mod standing;
mod steps;
mod table;
mod transfer;
mod witnesses;

pub use asking::Budgets;
pub use predicate::Predicate;
pub use refining::{with_carried, with_preds};
