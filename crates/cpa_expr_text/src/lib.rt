//! The texts of expressions, read back: `expr_text` of `cpa_expr` is what is read. What a reader
//! promises is in `specs/Reading.antt`.
#![tactic(auto)]

mod due;
mod fault;
mod heads;
mod kinds;
mod laws;
mod numbers;
mod reading;
mod trees;

pub use due::is_expr_text;
pub use laws::a_text_is_of_one_expression;
pub use numbers::{integer, large, small};
pub use reading::read;
