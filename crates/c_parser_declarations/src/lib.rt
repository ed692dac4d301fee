//! Readers of declarations of objects (C11 6.7). Each meets the form of its name in
//! `Declarations.antt` of `c_grammar_tree`.
#![tactic(auto)]

mod classes;
mod declarations;
mod declarators;
mod enumerations;
mod initializers;
mod specification;

pub use classes::{begins_declaration, no_level};
pub use declarations::{block_declaration, inner_declaration};
pub use declarators::{declarator_behind, declarators_behind};
pub use specification::{is_listed, specifiers};
