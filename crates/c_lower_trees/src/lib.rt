//! The trees of core statements that a typed tree becomes. The rules are those of `c_core_rules`,
//! one function for each.
#![tactic(auto)]

mod functions;
mod statements;
mod switches;

pub use functions::{TextTrees, function_tree, receiving_globals, text_trees};
