//! Checks of expressions: expressions that never trap, and tell where the evaluation traps, or
//! overflows. The definitions stand in specs/Checks, their laws in specs/Laws.
#![tactic(auto)]

mod checks;
mod joining;
mod laws;
mod numbers;
mod traps_here;
mod wraps_here;

pub use checks::{over_check, trap_check, write_over, write_trap};
pub use laws::{checks_stand, checks_tell, write_checks_tell};
