//! Partial interpolants of a refutation of two sides, A and B: what they are and what the last one
//! is good for stands in `specs/Partials.antt` and `specs/Interpolants.antt`.
#![tactic(auto)]

mod clauses;
mod folding;
mod laws;
mod parallel;
mod partial;
mod sides;
mod values;

pub use clauses::leaves;
pub use folding::partials;
pub use laws::two_lists_are_sides;
pub use parallel::partials_par;
pub use partial::{Joint, Leaf, Partial};
pub use values::last_value;
