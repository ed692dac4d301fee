//! The integer types of C in two data models, wrapping and the usual conversions; lists and boxes
//! that contracts see as what they hold.
#![tactic(auto)]

mod boxed;
mod conversions;
mod data_model;
mod integers;
mod laws;
mod seq;
mod wrapping;

pub use boxed::Boxed;
pub use conversions::{common, promote};
pub use data_model::DataModel;
pub use integers::IntType;
pub use laws::{
    bits_are_the_congruent_number, bits_keep_the_number, congruent_numbers_wrap_alike,
    floors_round_down, quotients_round_toward_zero, wrap_commutes, wrap_is_the_congruent_number,
    wrap_keeps_the_range, wrap_narrows,
};
pub use seq::Seq;
pub use wrapping::wrap;
