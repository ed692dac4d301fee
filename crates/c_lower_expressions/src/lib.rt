//! The core of typed expressions, their value used or not. The rules are those of `c_core_rules`,
//! one function for each.
#![tactic(auto)]

mod calls;
mod expressions;
mod frames;
mod names;
mod passing;
mod usage;

pub use expressions::{unused, used};
pub use frames::Frames;
pub use passing::cell_behind;
pub use usage::chosen_unused;
