//! The bodies of functions: their typed trees, the first of their faults, their calls, and how many
//! objects they declare (`specs/Statements.antt` and `StatementRules.antt` of `c_types_rules`).
#![tactic(auto)]

mod acts;
mod body;
mod cases;
mod declarations;
mod jumps;
mod labels;
mod loops;
mod parameters;
mod statements;
mod switches;
mod walker;

pub use body::{FunctionDefinition, ReadBody, read_body};
