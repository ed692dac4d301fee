//! Reads the rows of the `cases_` programs: numbers, types, operators and expressions from their
//! words; and writes texts of bytes, places in them and their faults as rows have them. Nothing is
//! proved of what is read; whether a query may be asked is proved.
#![tactic(auto)]

mod expressions;
mod fault;
mod indices;
mod operators;
mod place;
mod printing;
mod queries;
mod row;
mod text_faults;
mod words;
mod written;

pub use expressions::{expr_of, whole_expr};
pub use fault::RowFault;
pub use indices::{indices_of, indices_of_words};
pub use operators::{Operand, OperatorRow, operators_of};
pub use place::Place;
pub use printing::printed;
pub use queries::is_query;
pub use row::{Row, words_of};
pub use text_faults::fault_line;
pub use words::{
    BINARY, COMPARISONS, TYPES, UNARY, binary_of_word, comparison_of_word, index_of_word,
    next_index, next_word, number_of_word, push_number, push_word, type_of_word, unary_of_word,
    yes_or_no,
};
pub use written::bytes_of;
