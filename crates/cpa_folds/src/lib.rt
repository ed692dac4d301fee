//! Folds over a path of an automaton, from its last edge to its first: which cells are needed
//! along it, by `specs/Needed.antt`, and which expressions it carries, by `specs/Carried.antt`.
//! Proved in `proofs/NeededLemmas.antt` and `proofs/CarriedLemmas.antt`.
#![tactic(auto)]

mod carrying;
mod laws;
mod marks;
mod needed_cells;
mod reading;
mod scalars;
mod stops;
mod tracking;

pub use carrying::{MAX_CARRIED_HEIGHT, MAX_CARRIED_SIZE, carried};
pub use laws::carried_are_expressions;
pub use marks::is_marked;
pub use needed_cells::needed;
pub use scalars::{Scalar, read_of, scalar_of};
pub use tracking::{first_tracking, refined, tracked_marks, with_cells};
