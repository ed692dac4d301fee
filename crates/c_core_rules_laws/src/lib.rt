//! Laws of the rules of the core (`c_core_rules`): what a rule takes and how large what it makes is
//! do not depend on where the cells of the functions begin. Definitions and proofs are in `specs/`.
#![tactic(auto)]

mod laws;

pub use laws::{
    expressions_are_alike, frames_are_alike, functions_are_alike, functions_begin_alike,
    items_are_alike, texts_are_alike, texts_are_as_large, texts_take_the_same_cells,
    there_is_one_layout,
};
