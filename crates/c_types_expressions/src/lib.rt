//! Reading expressions: what the rules see of each, its typed tree, its faults and its calls
//! (`specs/Read.antt`, by `specs/Expressions.antt` of `c_types_rules`). Proved with `proofs/`.
#![tactic(auto)]

mod atoms;
mod calls;
mod chains;
mod combine;
mod notes;
mod operators;
mod postfix;
mod read;

pub use notes::Notes;
pub use read::{Read, Reader};
