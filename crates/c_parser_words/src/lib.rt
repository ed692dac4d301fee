//! Readers of the parts of C's grammar that hold no other part of their kind: names, words of
//! types, specifiers, what is skipped, and parameters. Each meets the form of its name in
//! `c_grammar_tree`.
#![tactic(auto)]

mod brackets;
mod classes;
mod lists;
mod named;
mod names;
mod parameters;
mod types;
mod words;

pub use brackets::{attributes, round_brackets, skipped_body};
pub use classes::is_name;
pub use lists::trimmed;
pub use named::named_type;
pub use names::{identifier, name, optional_identifier, typedef_names};
pub use parameters::{function_rest, parameter, parameter_list};
pub use types::type_name;
pub use words::{
    AllowedStorage, Words, declared_type, enum_words, have_word, keywords, qualifiers, specifiers,
    specifiers_of,
};
