//! The analysis of call stacks: it keeps the stack of a state, and is exact on it. What each call
//! gives stands in `specs/Stacks.antt`; that it keeps the laws is proved over these definitions.
#![tactic(auto)]

mod callstack;
mod stacks;

pub use callstack::Callstack;
