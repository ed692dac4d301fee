//! Rows on operators: cells wanted equal to numbers, and one wanted equal to the operator on them.
//! Its value in the model is the answer where no other model is; with no model the operator traps.

use crate::queries::ask;
use cases_reader::{Operand, OperatorRow, RowFault, operators_of, push_number, push_word};
use cpa_expr::{CmpOp, Expr, copy, read_scalar, type_of};
use cpa_ints::{Boxed, IntType, Seq};
use cpa_query::Query;
use cpa_solver::Decided;
use std::alloc::{AllocError, Global};

/// How many lines each answer may take.
const LEARNT: u32 = 20000;

/// Adds the answer of a row on operators, which has no parts.
pub fn push_answer(
    alloc: Global,
    out: &mut String,
    words: &[&str],
    parts: &[&str],
) -> Result<(), RowFault> {
    if !parts.is_empty() {
        return Err(RowFault::Unreadable);
    }
    push_row(alloc, out, &operators_of(alloc, words)?)
}

/// Appends the value of each operator.
fn push_row(alloc: Global, out: &mut String, row: &OperatorRow) -> Result<(), RowFault> {
    for expr in &row.exprs {
        push_operator(alloc, out, row, expr)?;
    }
    Ok(())
}

/// Appends the value of an operator of the row.
fn push_operator(
    alloc: Global,
    out: &mut String,
    row: &OperatorRow,
    expr: &Expr,
) -> Result<(), RowFault> {
    let mut query = Query {
        cells: Seq::new(alloc),
        wanted: Seq::new(alloc),
    };
    fix(alloc, &mut query, 0, row.first)?;
    let number = match row.second {
        Some(second) => {
            fix(alloc, &mut query, 1, second)?;
            2
        }
        None => 1,
    };
    push_result(alloc, out, &mut query, number, expr)
}

/// That a cell equals an expression, which is boxed before the cell's read is made.
fn equals(alloc: Global, ty: IntType, number: u32, e: Expr) -> Result<Expr, AllocError> {
    let right = Boxed::new(alloc, e)?;
    let left = Boxed::new(alloc, read_scalar(alloc, ty, number)?)?;
    Ok(Expr::Cmp {
        op: CmpOp::Eq,
        ty,
        left,
        right,
    })
}

/// That a cell has a number.
fn has_number(alloc: Global, number: u32, fixed: Operand) -> Result<Expr, AllocError> {
    let e = Expr::Const {
        ty: fixed.ty,
        value: fixed.value,
    };
    equals(alloc, fixed.ty, number, e)
}

/// Adds the cell of this number, which has a number of its type.
fn fix(alloc: Global, query: &mut Query, number: u32, fixed: Operand) -> Result<(), AllocError> {
    query.cells.push(fixed.ty)?;
    want(query, has_number(alloc, number, fixed)?, true)
}

/// Adds an expression that is wanted true, or false.
fn want(query: &mut Query, e: Expr, holds: bool) -> Result<(), AllocError> {
    query.wanted.push((e, holds))
}

/// Appends the value of one more cell, the one of this number, where it equals the expression, or
/// `trap`.
fn push_result(
    alloc: Global,
    out: &mut String,
    query: &mut Query,
    number: u32,
    expr: &Expr,
) -> Result<(), RowFault> {
    let ty = type_of(expr);
    add_result(alloc, query, ty, number, expr)?;
    match found_of(ty, number, &ask(alloc, query, LEARNT)?) {
        Found::Value(found) => push_only(alloc, out, query, number, found),
        Found::Word(word) => Ok(push_word(out, word)?),
    }
}

/// Adds a cell of the type, which equals the expression.
fn add_result(
    alloc: Global,
    query: &mut Query,
    ty: IntType,
    number: u32,
    expr: &Expr,
) -> Result<(), AllocError> {
    query.cells.push(ty)?;
    let e = copy(alloc, expr)?;
    want(query, equals(alloc, ty, number, e)?, true)
}

/// What a query says of a cell: its value in the model, or a word where there is none.
#[derive(Clone, Copy)]
enum Found {
    Value(Operand),
    Word(&'static str),
}

/// What is found out of the cell of this number, which has the type.
fn found_of(ty: IntType, number: u32, decided: &Decided) -> Found {
    match decided {
        Decided::Model(store) => match store.values.get(number as usize) {
            Some(value) => Found::Value(Operand { ty, value: *value }),
            None => Found::Word("wrong"),
        },
        Decided::NoModel(_) => Found::Word("trap"),
        Decided::Learnt(_) => Found::Word("learnt"),
    }
}

/// Appends the value of the cell of this number, or `wrong` where the cell may have another value.
fn push_only(
    alloc: Global,
    out: &mut String,
    query: &mut Query,
    number: u32,
    found: Operand,
) -> Result<(), RowFault> {
    want(query, has_number(alloc, number, found)?, false)?;
    let is_only = is_without_model(&ask(alloc, query, LEARNT)?);
    let pushed = if is_only {
        push_number(out, found.value)
    } else {
        push_word(out, "wrong")
    };
    Ok(pushed?)
}

/// Whether the query has no model.
fn is_without_model(decided: &Decided) -> bool {
    match decided {
        Decided::NoModel(_) => true,
        _ => false,
    }
}
