//! The labels and gotos of a function with the objects in whose scopes they stand, and their faults
//! (rules N7 and N9; `specs/StatementRules.antt` of `c_types_rules`).
#![tactic(auto)]

mod jumps;
mod noting;
mod tree;

pub use jumps::Jumps;
