//! The values of constant expressions (C11 6.6), by `constant` of `c_types_rules`,
//! `specs/Constants.antt`. Proved with the lemmas of `proofs/Variants.antt`.
#![tactic(auto)]

mod evaluate;
mod operators;

pub use evaluate::constant;
