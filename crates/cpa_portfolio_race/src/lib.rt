//! Several analyses on one automaton at the same time, each by a configuration of its own, and
//! which of their answers counts: `specs/Races.antt`.
#![tactic(auto)]

mod deciding;
mod laws;
mod racing;

pub use deciding::first_decided;
pub use racing::race;
