//! The layout of a typed tree: which cells its core has, and where those of each function begin; or
//! that its core is larger than a program may be. The rules are those of `c_core_rules`.
#![tactic(auto)]

mod declared;
mod fault;
mod hints;
mod placing;
mod sizes;

pub use fault::CoreError;
pub use placing::{TextLayout, layout};
