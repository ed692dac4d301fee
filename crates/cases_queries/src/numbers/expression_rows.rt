//! Rows on expressions, which stand behind colons: what the public calls of `cpa_expr` answer.
//! Proved safe by the checker alone.

use crate::numbers::operator_rows::push_value;
use crate::words::types_of;
use cases_reader::{
    RowFault, index_of_word, number_of_word, push_number, push_word, whole_expr, yes_or_no,
};
use cpa_expr::{
    Expr, Store, copy, height, is_expr, may_read, push_expr, replace_cell, same_expr, size,
    type_of, type_word, value,
};
use cpa_ints::{Boxed, Seq};
use std::alloc::{AllocError, Global};

/// Adds the answer of a row on the expression of a text.
pub fn push_on_one(
    alloc: Global,
    out: &mut String,
    words: &[&str],
    text: &str,
) -> Result<(), RowFault> {
    let expr = boxed_expr(alloc, text)?;
    push_called(alloc, out, words, expr.get())
}

/// The expression that a text spells. It is boxed where it is read, so that what is dropped where a
/// later step fails is a box.
fn boxed_expr(alloc: Global, text: &str) -> Result<Boxed<Expr>, RowFault> {
    Ok(Boxed::new(alloc, whole_expr(alloc, text)?)?)
}

/// The answer to a call on the expression.
fn push_called(
    alloc: Global,
    out: &mut String,
    words: &[&str],
    expr: &Expr,
) -> Result<(), RowFault> {
    match words {
        ["value", numbers @ ..] => push_value_of(alloc, out, numbers, expr),
        ["is_expr", types @ ..] => push_is_expr(alloc, out, types, expr),
        ["may_read", cell] => push_may_read(out, cell, expr),
        [asked] => push_alone(alloc, out, asked, expr),
        _ => Err(RowFault::Unreadable),
    }
}

/// `value V ..`: the value where the cells have the values V; `trap` where there is none.
fn push_value_of(
    alloc: Global,
    out: &mut String,
    numbers: &[&str],
    expr: &Expr,
) -> Result<(), RowFault> {
    let store = store_of(alloc, numbers)?;
    Ok(push_value(out, value(expr, &store))?)
}

/// The store of the numbers.
fn store_of(alloc: Global, numbers: &[&str]) -> Result<Store, RowFault> {
    let mut values = Seq::new(alloc);
    for word in numbers {
        values.push(number_of_word(word)?)?;
    }
    Ok(Store { values })
}

/// `is_expr T ..`: whether it is well typed over cells of the types T.
fn push_is_expr(
    alloc: Global,
    out: &mut String,
    types: &[&str],
    expr: &Expr,
) -> Result<(), RowFault> {
    let cells = types_of(alloc, types)?;
    Ok(push_word(out, yes_or_no(is_expr(expr, cells.as_slice())))?)
}

/// `may_read CELL`: whether some node may read the cell.
fn push_may_read(out: &mut String, cell: &str, expr: &Expr) -> Result<(), RowFault> {
    let cell = index_of_word(cell)?;
    Ok(push_word(out, yes_or_no(may_read(expr, cell)))?)
}

/// `type_of`: the word of the type; `size`: how many nodes it has; `height`: how many of them lie
/// on the longest way down; `copy`: how the copy is spelled.
fn push_alone(alloc: Global, out: &mut String, asked: &str, expr: &Expr) -> Result<(), RowFault> {
    let pushed = match asked {
        "type_of" => push_word(out, type_word(type_of(expr))),
        "size" => push_number(out, i128::from(size(expr))),
        "height" => push_number(out, i128::from(height(expr))),
        "copy" => push_copy(alloc, out, expr),
        _ => return Err(RowFault::Unreadable),
    };
    Ok(pushed?)
}

/// How the copy is spelled.
fn push_copy(alloc: Global, out: &mut String, expr: &Expr) -> Result<(), AllocError> {
    let copied = Boxed::new(alloc, copy(alloc, expr)?)?;
    push_spelled(out, copied.get())
}

/// Adds the answer of a row on the expressions of two texts: `same_expr : E : F`, or
/// `replace_cell CELL : E : BY` for the text of E with BY in the cell's place.
pub fn push_on_two(
    alloc: Global,
    out: &mut String,
    words: &[&str],
    first: &str,
    second: &str,
) -> Result<(), RowFault> {
    let first = boxed_expr(alloc, first)?;
    let second = boxed_expr(alloc, second)?;
    match words {
        ["same_expr"] => push_same(out, first.get(), second.get()),
        ["replace_cell", cell] => push_replaced(alloc, out, first.get(), cell, second.get()),
        _ => Err(RowFault::Unreadable),
    }
}

/// Whether the expressions are the same.
fn push_same(out: &mut String, first: &Expr, second: &Expr) -> Result<(), RowFault> {
    Ok(push_word(out, yes_or_no(same_expr(first, second)))?)
}

/// How the first expression is spelled with the second in the cell's place.
fn push_replaced(
    alloc: Global,
    out: &mut String,
    e: &Expr,
    cell: &str,
    by: &Expr,
) -> Result<(), RowFault> {
    let cell = index_of_word(cell)?;
    let replaced = Boxed::new(alloc, replace_cell(alloc, e, cell, by)?)?;
    Ok(push_spelled(out, replaced.get())?)
}

/// Adds an expression as reports spell it.
fn push_spelled(out: &mut String, expr: &Expr) -> Result<(), AllocError> {
    out.push_str(" ")?;
    push_expr(out, expr)
}
