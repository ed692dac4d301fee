//! Two formulas as one, in which some variables of the second are variables of the first and all
//! others are apart. The definition stands in specs/Joining.
#![tactic(auto)]

mod joining;
mod laws;

pub use joining::{Joined, join};
pub use laws::parts_have_models;
