//! Conversions and operators of the core on pure values, each its rule of `c_core_rules`.
//! Values are consumed, and boxed.
#![tactic(auto)]

mod operators;

pub use operators::{
    chosen_value, conv, is_constant, operator_value, promote, signed_value, truth_of,
};
