//! What tests and acts make of the bounds of cells. The definitions stand in `specs/`, what they
//! mean in `laws`.
#![tactic(auto)]

mod acts;
mod cuts;
mod laws;

pub use acts::do_act;
pub use cuts::cut_cell;
pub use laws::bounds_follow_acts;
