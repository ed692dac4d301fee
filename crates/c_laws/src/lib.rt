//! Laws of C texts and of programs that no call needs: the grammar written plainly, what a tree
//! spells, and the trees of a numbered program. Each is defined in the module of `specs/` with the
//! name of its own.
#![tactic(auto)]

mod plain;
mod spelling;
mod trees_back;

pub use plain::{plain_agreement_is_agreement, plain_trees_are_trees};
pub use spelling::a_tree_spells_its_texts;
pub use trees_back::programs_have_trees;
