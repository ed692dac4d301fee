//! Rows on operators: a row's numbers, and each operator on them. Nothing is proved of what is read
//! but that reading is safe and ends.

use crate::fault::RowFault;
use crate::words::{BINARY, COMPARISONS, TYPES, UNARY, number_of_word, type_of_word};
use cpa_expr::{BinOp, Expr, read_scalar};
use cpa_ints::{Boxed, IntType};
use std::alloc::{AllocError, Global};

/// A number of a type.
#[derive(Clone, Copy)]
pub struct Operand {
    pub ty: IntType,
    pub value: i128,
}

/// A row on operators: what they are applied to, and for each column the operator on the cells.
#[derive(Drop)]
pub struct OperatorRow {
    /// What the cell 0 has.
    pub first: Operand,
    /// What the cell 1 has, where the operators take two operands.
    pub second: Option<Operand>,
    pub exprs: Vec<Expr>,
}

/// The columns that a row asks for.
#[derive(Clone, Copy)]
enum Columns {
    /// A + B, and so on for - * / % & | ^.
    Arithmetic,
    /// A << B and A >> B.
    Shifts,
    /// -A and ~A.
    Unary,
    /// Whether A == B, and so on for != < <= > >=.
    Comparisons,
    /// What A becomes in each type.
    Casts,
}

/// The row of these words: `arithmetic T A B`, `shifts T U A B`, where the amount B has the type U,
/// `unary T A`, `comparisons T A B` or `casts T A`.
pub fn operators_of(alloc: Global, words: &[&str]) -> Result<OperatorRow, RowFault> {
    match words {
        ["arithmetic", ty, a, b] => on_two(alloc, Columns::Arithmetic, (ty, a), (ty, b)),
        ["shifts", ty, amount, a, b] => on_two(alloc, Columns::Shifts, (ty, a), (amount, b)),
        ["unary", ty, a] => on_one(alloc, Columns::Unary, (ty, a)),
        ["comparisons", ty, a, b] => on_two(alloc, Columns::Comparisons, (ty, a), (ty, b)),
        ["casts", ty, a] => on_one(alloc, Columns::Casts, (ty, a)),
        _ => Err(RowFault::Unreadable),
    }
}

/// The row of columns on one operand.
fn on_one(alloc: Global, columns: Columns, words: (&str, &str)) -> Result<OperatorRow, RowFault> {
    let first = operand_of(words)?;
    let exprs = exprs_of(alloc, columns, first.ty, first.ty)?;
    Ok(OperatorRow {
        first,
        second: None,
        exprs,
    })
}

/// The row of columns on two operands.
fn on_two(
    alloc: Global,
    columns: Columns,
    left: (&str, &str),
    right: (&str, &str),
) -> Result<OperatorRow, RowFault> {
    let first = operand_of(left)?;
    let second = operand_of(right)?;
    let exprs = exprs_of(alloc, columns, first.ty, second.ty)?;
    Ok(OperatorRow {
        first,
        second: Some(second),
        exprs,
    })
}

/// The operand of its type's word and its number's.
fn operand_of(words: (&str, &str)) -> Result<Operand, RowFault> {
    let ty = type_of_word(words.0)?;
    let value = number_of_word(words.1)?;
    Ok(Operand { ty, value })
}

/// The operators of these columns on cells of the two types.
fn exprs_of(
    alloc: Global,
    columns: Columns,
    left: IntType,
    right: IntType,
) -> Result<Vec<Expr>, AllocError> {
    let mut exprs = Vec::new(alloc);
    push_columns(alloc, &mut exprs, columns, left, right)?;
    Ok(exprs)
}

/// Adds the operators of these columns.
fn push_columns(
    alloc: Global,
    exprs: &mut Vec<Expr>,
    columns: Columns,
    left: IntType,
    right: IntType,
) -> Result<(), AllocError> {
    match columns {
        Columns::Arithmetic => push_binary(alloc, exprs, &BINARY[..8], left, right),
        Columns::Shifts => push_binary(alloc, exprs, &BINARY[8..], left, right),
        Columns::Unary => push_unary(alloc, exprs, left),
        Columns::Comparisons => push_comparisons(alloc, exprs, left),
        Columns::Casts => push_casts(alloc, exprs, left),
    }
}

/// Adds binary operators on the two cells.
fn push_binary(
    alloc: Global,
    exprs: &mut Vec<Expr>,
    ops: &[BinOp],
    left: IntType,
    right: IntType,
) -> Result<(), AllocError> {
    for op in ops {
        exprs.push(Expr::Bin {
            op: *op,
            ty: left,
            left: cell(alloc, left, 0)?,
            right: cell(alloc, right, 1)?,
        })?;
    }
    Ok(())
}

/// Adds the unary operators on the first cell.
fn push_unary(alloc: Global, exprs: &mut Vec<Expr>, ty: IntType) -> Result<(), AllocError> {
    for op in UNARY {
        let arg = cell(alloc, ty, 0)?;
        exprs.push(Expr::Un { op, ty, arg })?;
    }
    Ok(())
}

/// Adds the comparisons of the two cells.
fn push_comparisons(alloc: Global, exprs: &mut Vec<Expr>, ty: IntType) -> Result<(), AllocError> {
    for op in COMPARISONS {
        exprs.push(Expr::Cmp {
            op,
            ty,
            left: cell(alloc, ty, 0)?,
            right: cell(alloc, ty, 1)?,
        })?;
    }
    Ok(())
}

/// Adds the conversions of the first cell to each type.
fn push_casts(alloc: Global, exprs: &mut Vec<Expr>, from: IntType) -> Result<(), AllocError> {
    for ty in TYPES {
        let arg = cell(alloc, from, 0)?;
        exprs.push(Expr::Cast { ty, arg })?;
    }
    Ok(())
}

/// The read of a cell, as a part.
fn cell(alloc: Global, ty: IntType, number: u32) -> Result<Boxed<Expr>, AllocError> {
    Boxed::new(alloc, read_scalar(alloc, ty, number)?)
}
