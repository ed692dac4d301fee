//! What an act changes of the known values of cells. The definitions stand in `specs/`.
#![tactic(auto)]

mod acts;
mod changes;
mod known;
mod table;

pub use acts::{ScalarValue, change_by};
pub use changes::Change;
pub use known::{Gap, known_value};
pub use table::{KnownCells, are_ordered, place_of};
