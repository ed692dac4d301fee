//! Numbers, places and statements of the core, and the choices of `&&`, `||` and `? :` into a cell
//! that is taken already, each its rule of `c_core_rules`.
#![tactic(auto)]

mod choices;
mod trees;
mod values;

pub use choices::{
    both_into, both_purely, chosen_into, chosen_purely, held_in, one_into, one_purely,
};
pub use trees::{
    block, choice, input, joined, labeled, leaf, list_of, pure, repeated, set, with, write,
};
pub use values::{cell_at, element, int, number, scalar};
