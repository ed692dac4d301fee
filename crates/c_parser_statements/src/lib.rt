//! Readers of statements and blocks (C11 6.8). Each meets the form of its name in `Statements.antt`
//! of `c_grammar_tree`.
#![tactic(auto)]

mod blocks;
mod jumps;
mod kinds;
mod labels;
mod loops;
mod parts;
mod switches;

pub use blocks::closed_items;
