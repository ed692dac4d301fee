//! The trail of a clause search and what goes on it: decisions, what clauses force, and jumps back;
//! with the watches and the order that serve its speed.
#![tactic(auto)]

mod assertion;
mod finding;
mod order;
mod propagation;
mod trail;
mod watches;

pub use assertion::{Jump, decide, jump_back};
pub use finding::{is_open, open_literal, unsatisfied, values};
pub use order::{Order, Restarts};
pub use propagation::{force_units, propagate};
pub use trail::{Level, NO_PLACE, Trail, VARS_LIMIT};
pub use watches::{Watches, watch_all, watch_clause};
