//! The condition of the last partial interpolant of a refutation, over the bits of cells, and its
//! expression. What is made stands in specs/Making, what it is good for in specs/Laws.
#![tactic(auto)]

mod clauses;
mod expressing;
mod laws;
mod lines;

pub use expressing::interpolant;
pub use laws::conditions_of_partials_mean;
pub use lines::condition_of;
