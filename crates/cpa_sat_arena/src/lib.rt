//! The clauses of a search in one flat array of literals, and the look-up of a clause among them by
//! its hash.
#![tactic(auto)]

mod arena;
mod index;
mod literal;
mod store;

pub use arena::Arena;
pub use literal::{ClauseRef, LitPair, NO_CLAUSE, NO_LITERAL, PackedLit, Var, literal_count};
