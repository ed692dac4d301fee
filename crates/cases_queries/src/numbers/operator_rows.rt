//! Rows on operators: what `value` of `cpa_expr` answers where they are applied to cells that have
//! the row's numbers. Proved safe by the checker alone.

use cases_reader::{OperatorRow, RowFault, operators_of, push_number, push_word};
use cpa_expr::{Store, value};
use cpa_ints::Seq;
use std::alloc::{AllocError, Global};

/// Adds the answer of a row on operators.
pub fn push_answer(alloc: Global, out: &mut String, words: &[&str]) -> Result<(), RowFault> {
    Ok(push_values(alloc, out, &operators_of(alloc, words)?)?)
}

/// Appends the value of each operator.
fn push_values(alloc: Global, out: &mut String, row: &OperatorRow) -> Result<(), AllocError> {
    let store = store_of(alloc, row)?;
    for expr in &row.exprs {
        push_value(out, value(expr, &store))?;
    }
    Ok(())
}

/// The cells that have the row's numbers.
fn store_of(alloc: Global, row: &OperatorRow) -> Result<Store, AllocError> {
    let mut values = Seq::new(alloc);
    values.push(row.first.value)?;
    if let Some(second) = row.second {
        values.push(second.value)?;
    }
    Ok(Store { values })
}

/// Appends a value: a number, or `trap`.
pub fn push_value(out: &mut String, value: Option<i128>) -> Result<(), AllocError> {
    match value {
        Some(number) => push_number(out, number),
        None => push_word(out, "trap"),
    }
}
