//! The rules of the core that take no tree of the text: values, statements, fresh cells, operands,
//! places. The definitions are those of `c_core_rules`.
#![tactic(auto)]

mod acts;
mod cells;
mod operands;
mod places;

pub use acts::{cast_to, chosen, dropped_value, held_promoted, linked, signed};
pub use c_lower_choices::{
    block, cell_at, choice, element, input, int, joined, labeled, leaf, list_of, number, pure,
    repeated, scalar, set, with,
};
pub use cells::{Cells, TakenCells};
pub use operands::{divided, hold_all};
pub use places::{changed, fixed_if, incremented, stepped};
