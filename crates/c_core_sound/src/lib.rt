//! The laws that the core of a sound text is well formed, `IsWellFormed` of `cpa_model`.
//! Stated in `specs/Laws.antt`, and proved in `proofs/`.
#![tactic(auto)]

mod laws;

pub use laws::{cores_are_well_formed, texts_are_whole, whole_cores_are_well_formed};
