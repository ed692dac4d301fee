//! Rows that call `cpa_ints`, `cpa_expr` and `cpa_expr_text`: the word of a call, what the call
//! takes, and behind colons the expressions that it is asked of, or behind a bar a text. README.md
//! says how the wanted answers were made.

mod expression_rows;
mod number_rows;
mod operator_rows;
mod text_rows;

use cases_reader::{Row, RowFault};
use std::alloc::Global;

/// Adds the answer of a row, its words each behind a space.
pub fn push_answer(alloc: Global, out: &mut String, line: &str) -> Result<(), RowFault> {
    match line.split_once(" |") {
        Some((front, text)) => text_rows::push_answer(alloc, out, front, text),
        None => push_without_text(alloc, out, line),
    }
}

/// Adds the answer of a row without a text.
fn push_without_text(alloc: Global, out: &mut String, line: &str) -> Result<(), RowFault> {
    let row = Row::of(alloc, line)?;
    push_named(alloc, out, &row.words, &row.parts)
}

/// Adds the answer of a row by how many expressions stand behind its words.
fn push_named(
    alloc: Global,
    out: &mut String,
    words: &[&str],
    parts: &[&str],
) -> Result<(), RowFault> {
    match parts {
        [] => number_rows::push_answer(alloc, out, words),
        [text] => expression_rows::push_on_one(alloc, out, words, text),
        [first, second] => expression_rows::push_on_two(alloc, out, words, first, second),
        _ => Err(RowFault::Unreadable),
    }
}
