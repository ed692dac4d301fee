//! Control keys: the elements of a row at some places, by which entries are told apart. What they
//! are stands in `specs/Rows.antt`; what a hash is fed of one, in `specs/Writes.antt`.
#![tactic(auto)]

mod comparing;
mod keys;
mod laws;
mod picking;

pub use comparing::{same_elem, same_facts, same_row};
pub use keys::Key;
pub use laws::same_rows_are_equal;
pub use picking::key_of;
