//! Comparisons of cells with numbers and with one another, which may stand in an interpolant.
//! Nothing is promised of them.

use crate::nodes::push_new;
use cpa_expr::{CmpOp, Expr, comparison, constant, read_scalar};
use cpa_ints::{Boxed, IntType};
use cpa_model::Cfa;
use std::alloc::{AllocError, Global};

/// The most comparisons with numbers of one cell.
const MAX_BOUNDS: usize = 64;

/// Adds a comparison of the cell with the number, where the type has it.
fn push_bound(
    alloc: Global,
    bounds: &mut Vec<Expr>,
    op: CmpOp,
    ty: IntType,
    cell: u32,
    number: i128,
) -> Result<(), AllocError> {
    if number <= ty.least() || ty.greatest() < number {
        return Ok(());
    }
    let left = Boxed::new(alloc, read_scalar(alloc, ty, cell)?)?;
    let right = constant(alloc, ty, number)?;
    let bound = comparison(alloc, op, ty, left, right)?;
    push_new(alloc, bounds, bound)
}

/// Adds that the cell is less than each number, from the greatest on, and that it is not, from the
/// least on: so that what says less comes first. The numbers rise.
fn push_bounds_of(
    alloc: Global,
    bounds: &mut Vec<Expr>,
    ty: IntType,
    cell: u32,
    numbers: &[i128],
) -> Result<(), AllocError> {
    let count = numbers.len().min(MAX_BOUNDS);
    let mut place = count;
    while 0 < place {
        place -= 1;
        push_bound(alloc, bounds, CmpOp::Lt, ty, cell, numbers[place])?;
    }
    for number in numbers {
        push_bound(alloc, bounds, CmpOp::Ge, ty, cell, *number)?;
    }
    Ok(())
}

/// The type of the cell.
fn type_at(cfa: &Cfa, cell: u32) -> IntType {
    match cfa.cells.as_slice().get(cell as usize) {
        Some(cell) => cell.ty,
        None => IntType::I32,
    }
}

/// Adds the number and the next one.
fn push_with_next(numbers: &mut Vec<i128>, number: i128) -> Result<(), AllocError> {
    let next = number.saturating_add(1);
    if !numbers.contains(&number) {
        numbers.push(number)?;
    }
    if !numbers.contains(&next) {
        numbers.push(next)?;
    }
    Ok(())
}

/// The numbers and the next of each, and so of this one, rising.
fn rising(alloc: Global, numbers: &[i128], own: Option<i128>) -> Result<Vec<i128>, AllocError> {
    let mut all = Vec::new(alloc);
    for number in numbers {
        push_with_next(&mut all, *number)?;
    }
    if let Some(own) = own {
        push_with_next(&mut all, own)?;
    }
    all.sort()?;
    Ok(all)
}

/// Comparisons of each of the cells with the numbers, and with its own value on the store.
pub(crate) fn bounds(
    alloc: Global,
    cfa: &Cfa,
    cells: &[u32],
    numbers: &[i128],
    values: &[i128],
) -> Result<Vec<Expr>, AllocError> {
    let mut bounds = Vec::new(alloc);
    for cell in cells {
        let own = values.get(*cell as usize).copied();
        let numbers = rising(alloc, numbers, own)?;
        push_bounds_of(alloc, &mut bounds, type_at(cfa, *cell), *cell, &numbers)?;
    }
    Ok(bounds)
}

/// Adds a comparison of the two cells.
fn push_relation(
    alloc: Global,
    relations: &mut Vec<Expr>,
    op: CmpOp,
    ty: IntType,
    x: u32,
    y: u32,
) -> Result<(), AllocError> {
    let left = Boxed::new(alloc, read_scalar(alloc, ty, x)?)?;
    let right = Boxed::new(alloc, read_scalar(alloc, ty, y)?)?;
    let relation = comparison(alloc, op, ty, left, right)?;
    push_new(alloc, relations, relation)
}

/// Comparisons of each two cells that have one type, those that say less first.
pub(crate) fn relations(alloc: Global, cfa: &Cfa, cells: &[u32]) -> Result<Vec<Expr>, AllocError> {
    let mut relations = Vec::new(alloc);
    for x in cells {
        for y in cells {
            let ty = type_at(cfa, *x);
            if *x < *y && ty == type_at(cfa, *y) {
                push_relation(alloc, &mut relations, CmpOp::Le, ty, *x, *y)?;
                push_relation(alloc, &mut relations, CmpOp::Ge, ty, *x, *y)?;
                push_relation(alloc, &mut relations, CmpOp::Lt, ty, *x, *y)?;
                push_relation(alloc, &mut relations, CmpOp::Gt, ty, *x, *y)?;
            }
        }
    }
    Ok(relations)
}
