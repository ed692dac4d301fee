//! The variables on which the formulas of two parts of a path meet: the bits of the program's
//! cells. The definitions stand in specs/Meetings.
#![tactic(auto)]

mod gathering;
mod laws;
mod naming;

pub use gathering::{Meeting, Seen, meetings};
pub use laws::names_are_bits;
pub use naming::{bits_of, names_of};
