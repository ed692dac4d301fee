//! Quotients and remainders of words of literals, as circuits over a net of gates. Each has its
//! definition in the module of specs/ that is named for it.
#![tactic(auto)]

mod dividers;
mod laws;
mod quotients;

pub use dividers::{Divided, divide};
pub use laws::{dividers_divide, quotients_divide_at_types, signs_turn_words};
pub use quotients::{quotient, remainder};
