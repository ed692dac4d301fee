//! A log of lines checked by several threads. What it answers, the least bad line, stands in
//! `specs/LeastBad.antt`, and where the lines are cut in `specs/Cuts.antt`.
#![tactic(auto)]

mod gate;
mod laws;
mod parallel;
mod runs;

pub use gate::{Gate, NoGate};
pub use laws::{a_log_has_one_least_bad_line, runs_are_even};
pub use parallel::first_bad;
