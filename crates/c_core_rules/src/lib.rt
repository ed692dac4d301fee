//! The rules by which a typed tree becomes trees of core statements (`specs/`), and the values
//! and places that they speak of.
#![tactic(auto)]

mod tree;

pub use tree::{Location, Place, Usage, Valued};
