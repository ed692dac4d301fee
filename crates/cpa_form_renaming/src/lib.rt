//! Expressions over a program's cells, renamed to the places where the cells stand, and tests of
//! whether an expression traps. The definitions stand in specs/Renaming and specs/TrapTests.
#![tactic(auto)]

mod laws;
mod places;
mod renaming;
mod traps;

pub use laws::{cells_behind_change_nothing, renaming_keeps_meanings, trap_tests_tell};
pub use places::{Place, number_at, stand_together};
pub use renaming::{is_whole, rename};
pub use traps::trap_test;
