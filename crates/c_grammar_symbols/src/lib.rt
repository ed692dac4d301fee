//! Terminal symbols of C's grammar: what a token stands for in it, and the tokens of a text as a
//! reader sees them.
#![tactic(auto)]

mod kind;
mod laws;
mod lookup;
mod named;
mod operators;
mod source;
mod spelled;
mod symbol;
mod tokens;
mod typedefs;
mod words;

pub use laws::{
    keywords_stand_for_themselves, marks_are_no_text, marks_stand_for_themselves,
    terminals_stand_for_themselves, tokens_are_a_source,
};
pub use named::{NamedType, Size};
pub use operators::{AssignmentOperator, BinaryOperator, StepOperator};
pub use source::Source;
pub use symbol::{MARKS, Symbol, WORDS, classify, spelling};
pub use words::{OutsideWord, SpecifierWord, StorageWord, StrayMark, Terminal, TypeWord};
