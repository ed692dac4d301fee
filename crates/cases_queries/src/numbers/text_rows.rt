//! Rows on the texts of expressions: what `read` and `is_expr_text` of `cpa_expr_text` answer.
//! Proved safe by the checker alone.

use cases_reader::{RowFault, bytes_of, index_of_word, push_number, push_word, yes_or_no};
use cpa_expr::{height, push_expr};
use cpa_expr_text::{is_expr_text, read};
use std::alloc::{AllocError, Global};

/// Adds the answer of a row on a text: `read |TEXT`, `nested N |TEXT`, `text |TEXT` and
/// `text nested N |TEXT`. The text is all that stands behind the bar, each blank counts.
pub fn push_answer(
    alloc: Global,
    out: &mut String,
    front: &str,
    written: &str,
) -> Result<(), RowFault> {
    let text = text_of(alloc, written)?;
    push_called(alloc, out, front, text.as_str())
}

/// The text that a row writes.
fn text_of(alloc: Global, written: &str) -> Result<String, RowFault> {
    let bytes = bytes_of(alloc, written)?.ok_or(RowFault::Unreadable)?;
    String::from_utf8(bytes).map_err(|_| RowFault::Unreadable)
}

/// The answer to a call on a text.
fn push_called(alloc: Global, out: &mut String, front: &str, text: &str) -> Result<(), RowFault> {
    match front {
        "read" => push_read(alloc, out, text),
        "text" => push_is_text(alloc, out, text),
        _ => push_negated(alloc, out, front, text),
    }
}

/// `read`: how the expression is spelled whose text it is; `none` where it is no expression's.
fn push_read(alloc: Global, out: &mut String, text: &str) -> Result<(), RowFault> {
    match read(alloc, text)? {
        Some(expr) => {
            out.push_str(" ")?;
            push_expr(out, expr.get())?;
        }
        None => push_word(out, "none")?,
    }
    Ok(())
}

/// `text`: whether it is the text of an expression of any height.
fn push_is_text(alloc: Global, out: &mut String, text: &str) -> Result<(), RowFault> {
    Ok(push_word(out, yes_or_no(is_expr_text(alloc, text)?))?)
}

/// `nested N`: how high the expression behind so many negations is; `text nested N`: whether the
/// text behind so many is that of an expression.
fn push_negated(alloc: Global, out: &mut String, front: &str, text: &str) -> Result<(), RowFault> {
    let (front, count) = front.rsplit_once(' ').ok_or(RowFault::Unreadable)?;
    let whole = negated(alloc, count, text)?;
    match front {
        "nested" => push_height(alloc, out, whole.as_str()),
        "text nested" => push_is_text(alloc, out, whole.as_str()),
        _ => Err(RowFault::Unreadable),
    }
}

/// The text behind so many negations.
fn negated(alloc: Global, count: &str, text: &str) -> Result<String, RowFault> {
    let count = index_of_word(count)?;
    let mut whole = String::new(alloc);
    for _ in 0..count {
        whole.push_str("not ")?;
    }
    whole.push_str(text)?;
    Ok(whole)
}

/// How high the expression is whose text it is; `none` where it is no expression's.
fn push_height(alloc: Global, out: &mut String, text: &str) -> Result<(), RowFault> {
    match read(alloc, text)? {
        Some(expr) => push_number(out, i128::from(height(expr.get())))?,
        None => push_word(out, "none")?,
    }
    Ok(())
}
