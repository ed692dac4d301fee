//! Products and shifts of words of literals, as circuits over a net of gates. Each has its
//! definition in the module of specs/ that is named for it.
#![tactic(auto)]

mod laws;
mod moves;
mod products;
mod shifts;

pub use laws::{
    constant_amounts_make_no_gates, moves_are_shifts, products_are_products, shifts_move_words,
    shifts_shift_at_types,
};
pub use moves::Direction;
pub use products::product;
pub use shifts::{is_amount, shifted_left, shifted_right};
