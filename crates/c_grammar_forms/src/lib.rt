//! Grammars as relations between the places of a text, and what a reader of such a grammar
//! promises.
#![tactic(auto)]

mod fault;

pub use fault::ReadError;
