//! Facts on states, and lists of them in blocks that copies share. Contracts see lists of facts;
//! what a block tells besides is defined in `specs/Runs.antt`.
#![tactic(auto)]

mod block;
mod fact;
mod facts;
mod filling;
mod iter;
mod pieces;
mod place;
mod run;
mod shared;

pub use block::Block;
pub use fact::{Fact, copy_fact};
pub use facts::Facts;
pub use iter::Iter;
pub use pieces::Pieces;
pub use run::{Run, mixed};
pub use shared::Shared;
