//! Queries as formulas, and the weight of an expression, by which a budget bounds the gates that it
//! may take. The definitions stand in specs/Formulas and specs/Weights.
#![tactic(auto)]

mod formulas;
mod laws;
mod places;
mod weights;

pub use formulas::{Bits, blast};
pub use laws::{formulas_are_below, formulas_are_queries};
pub use weights::weight;
