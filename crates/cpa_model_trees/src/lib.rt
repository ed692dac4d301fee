//! Trees of core statements, and the numbers of their statements in the order of the trees
//! (`specs/Numbering.antt`).
#![tactic(auto)]

mod laws;
mod numbering;
mod tree;

pub use laws::trees_are_numbered;
pub use numbering::{Numbered, numbered_bodies};
pub use tree::{CoreTree, Head};
