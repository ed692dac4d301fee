//! Expressions as circuits over a net of gates: the bits of the value, and whether the evaluation
//! comes to no trap. The definitions stand in specs/Answers, specs/Reads and specs/Circuits.
#![tactic(auto)]

mod answer;
mod circuits;
mod laws;
mod operators;
mod reads;
mod selections;

pub use answer::{Answer, Word};
pub use circuits::circuit;
pub use laws::circuits_have_values;
