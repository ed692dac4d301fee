//! What a declarator declares, in a function and in file scope: its object, its length, its typed
//! initializer and the rules that they break (definitions of `c_types_rules`). Proved with
//! `proofs/`.
#![tactic(auto)]

mod constants;
mod enumerators;
mod initializers;
mod lengths;
mod noting;
mod objects;
mod parameters;
mod specifiers;

pub use constants::{Fixed, read_fixed};
pub use enumerators::read_enumeration;
pub use initializers::{read_initializer, read_starts};
pub use noting::{note_found, note_if};
pub use objects::{read_local, read_object};
pub use parameters::{note_void_parameter, parameter_object, parameter_type};
pub use specifiers::{Qualified, read_specifiers};
