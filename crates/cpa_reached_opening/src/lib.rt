//! Which entries of a reached set wait again once others are gone, and what becomes of them
//! (`specs/Opening.antt`). That the test of an entry is right is shown in `proofs/Waiting.antt`.
#![tactic(auto)]

mod opening;

pub use opening::{is_gone, open_entry, waits_again};
