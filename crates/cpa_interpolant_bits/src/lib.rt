//! Truths over the bits of cells, shared as nodes, and the expressions that ask for them. The
//! definitions stand in specs/Bits and specs/Nodes.
#![tactic(auto)]

mod bits;
mod building;
mod conditions;
mod extents;
mod laws;
mod nodes;
mod table;

pub use bits::{Bit, bit_is};
pub use building::{MAX_HEIGHT, MAX_SIZE};
pub use conditions::Conditions;
pub use laws::{bits_are_read, conditions_mean, expressions_ask};
pub use nodes::{Condition, Node};
