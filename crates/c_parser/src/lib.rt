//! The reader of whole C texts: from the tokens of a text to its tree (C11 6.9), or to its fault.
//! `Tree` and `IsTreeFault` are definitions of `c_grammar_tree`. Proved with `proofs/Whole.antt`.
#![tactic(auto)]

mod functions;
mod items;
mod texts;

pub use texts::parse;
