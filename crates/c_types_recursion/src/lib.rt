//! Which calls of a text lead back to the function in which they stand (`specs/Recursion.antt` of
//! `c_types_rules`), and the least place of one.
#![tactic(auto)]

mod call;
mod least;
mod links;
mod ranks;
mod reach;

pub use call::Call;
pub use least::least_leading_back;
