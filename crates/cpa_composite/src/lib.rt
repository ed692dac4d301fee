//! Several analyses as one (CAV 2007, section 4): each call asks every picked analysis, in the
//! order of the picks. `specs/Laws.antt` lifts the laws of the interface to rows of elements.
#![tactic(auto)]

mod asking;
mod calls;
mod choosing;
mod comparing;
mod composite;
mod handed;
mod keys;
mod laws;
mod rows;

pub use choosing::copy_row;
pub use composite::Composite;
pub use handed::Handed;
pub use laws::{control_is_followed, merging_ends, pins_are_followed, ranks_are_bounded};
