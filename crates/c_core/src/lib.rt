//! The program of core statements that a checked text is, and where it comes from. What each form
//! of C becomes is said by the rules of `c_core_rules`.
#![tactic(auto)]

mod program;

pub use program::{Traced, core, trace};
