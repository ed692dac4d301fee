//! From the bytes of a whole C text to its program, or to its fault (`specs/Programs.antt`).
//! Proved with `proofs/Refusals.antt`.
#![tactic(auto)]

mod laws;
mod text;

pub use laws::{no_program_has_a_fault, one_program, programs_are_well_formed};
pub use text::{program, traced_program};
