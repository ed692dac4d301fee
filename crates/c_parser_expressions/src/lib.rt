//! Readers of expressions (C11 6.5): one descent over the tokens, one function a production. Each
//! meets the form of its name in `c_grammar_tree`.

#![tactic(auto)]

mod arguments;
mod assignments;
mod chains;
mod nested;
mod parts;
mod postfix;
mod unary;

pub use assignments::comma;
pub use nested::{begins_expression, inner_assignment, inner_comma, inner_conditional};
