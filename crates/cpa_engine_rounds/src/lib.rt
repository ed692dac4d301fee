//! What a round of the algorithm is made of beside its turns: which entry may be an error, from
//! where a new round begins, and what it leaves of the entries.
#![tactic(auto)]

mod clearing;
mod errors;
mod marks;
mod pivots;
mod precisions;

pub use clearing::begin_round;
pub use errors::{beyond, least_error, may_err};
pub use pivots::pivot_place;
pub use precisions::some_other;
