//! Gates over Boolean variables, with constants folded and equal gates made once, and the clauses
//! that say the same of the variables. The definitions stand in specs/Gates, specs/Nets.
#![tactic(auto)]

mod clauses;
mod folding;
mod gate;
mod laws;
mod net;
mod table;

pub use folding::{always, never};
pub use gate::Gate;
pub use laws::{
    gates_mean_their_operators, inputs_are_free, literals_have_values, models_are_assignments,
    nets_grow,
};
pub use net::Net;
