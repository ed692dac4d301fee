//! What names stand for in a C text, the types of its expressions, the typed tree, and the rules of
//! names and types that a text can break (C11 6.2.1, 6.5 to 6.9). The definitions are in `specs/`.
#![tactic(auto)]

mod first;
mod kinds;
mod known;
mod laws;
mod meaning;
mod named;
mod parts;
mod tables;
mod typed;
mod uses;

pub use first::{note, note_place};
pub use kinds::{
    as_kind, binary_type, cast_kind, ends_kind, kind_of_type_name, kind_of_words, type_of_named,
    unary_type, value_kind,
};
pub use known::{KNOWN, KnownFunction, KnownName, known_function};
pub use laws::{known_functions_are_found, limits};
pub use meaning::{
    Constant, Declared, Entry, Form, Function, Kind, Meaning, Object, ParameterType, Part, Role,
};
pub use named::Named;
pub use parts::{cast_role, named_kind, with_value};
pub use tables::{cells_of, is_shift, operator_of};
pub use typed::{
    Choice, Global, TypedDeclarator, TypedExpression, TypedForStart, TypedFunction,
    TypedInitializer, TypedItem, TypedStatement, TypedSuffix,
};
pub use uses::{note_given, note_named, note_paired, note_tagged, note_taken};

/// How many elements an array has at most, this project's own limit.
pub const MAX_ELEMENTS: u32 = 4096;
