//! Laws of the core of a checked text (`IsCore` of `c_core_checked`): there is one, it is numbered,
//! and what it has of a sound text. Proved in `proofs/`.
#![tactic(auto)]

mod laws;

pub use laws::{
    cells_start_in_range, cores_are_numbered, cores_are_small, cores_have_a_main, frames_are_there,
    gotos_go_to_labels, jumps_are_kept, jumps_are_sound, labels_are_blocks, labels_are_in_order,
    statements_are_of_trees, there_is_one_core,
};
