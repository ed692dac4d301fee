//! Interpolants along a path in the program's own words: expressions for its cuts, made from its
//! tests and writes, each step found out by one query of one edge. The definitions stand in
//! specs/Words.
#![tactic(auto)]

mod asking;
mod atoms;
mod bounds;
mod carrying;
mod checking;
mod choosing;
mod forms;
mod holding;
mod looking;
mod nodes;
mod reading;
mod selecting;
mod slicing;
mod storing;

pub use forms::{part_before, part_behind, weight_of};
pub use looking::{Words, look};
