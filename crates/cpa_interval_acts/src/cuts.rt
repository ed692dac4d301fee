//! What a test leaves of the bounds of cells, by `specs/Cuts.antt`. Each function changes the
//! bounds in place and says whether some number is left; it fails only where memory runs out.

ghost use Rattle.std.specs.Prelude.{◌≡◌, None, Some, if◌then◌else◌, IfOk};
ghost use Rattle.cpa_expr.specs.declared.tree.Expr.{out-Expr};
ghost use Rattle.cpa_interval_bounds.specs.ExpressionBounds.{bounds_of};
ghost use Rattle.cpa_interval_acts.specs.Cuts.{cut_at, cut_cell, fits, fitting, side_of, cut_side};
ghost use Rattle.cpa_interval_acts.specs.Cuts.{cut_both, where_holds, compared_node, decided};
ghost use Rattle.cpa_interval_acts.specs.Cuts.{assumed};

use cpa_expr::{CmpOp, Expr};
use cpa_folds::{Scalar, scalar_of};
use cpa_interval_bounds::{Bounds, KnownBounds, bounds_of, cut, exchanged, opposite, truths_of};
use cpa_ints::IntType;
use std::alloc::AllocError;

/// The bounds where the test has this truth, and whether it can.
#[cycle(assuming)]
pub(crate) fn assume(test: &Expr, holds: bool, all: &mut KnownBounds) -> Result<bool, AllocError>
    ensures cells { all.new.cells ≡ all.old.cells }
    ensures each { IfOk result (λ is. (if is then Some all.new.each else None)
        ≡ assumed test.now holds all.old.each) }
{
    match test {
        Expr::And { left, right } => {
            if holds {
                if assume(left.get(), true, all)? {
                    assume(right.get(), true, all)
                } else {
                    Ok(false)
                }
            } else {
                decide(test, holds, all)
            }
        }
        Expr::Or { left, right } => {
            if holds {
                decide(test, holds, all)
            } else {
                if assume(left.get(), false, all)? {
                    assume(right.get(), false, all)
                } else {
                    Ok(false)
                }
            }
        }
        Expr::Not { arg } => assume(arg.get(), !holds, all),
        _ => decide(test, holds, all),
    }
}

/// The same of a test that is asked as a whole.
fn decide(test: &Expr, holds: bool, all: &mut KnownBounds) -> Result<bool, AllocError>
    ensures cells { all.new.cells ≡ all.old.cells }
    ensures each { IfOk result (λ is. (if is then Some all.new.each else None)
        ≡ decided test.now holds all.old.each) }
{
    if truths_of(bounds_of(test, all)).may_be(holds) {
        compare(test, holds, all)
    } else {
        Ok(false)
    }
}

/// What a comparison says of the cells where it holds, or does not.
fn compare(test: &Expr, holds: bool, all: &mut KnownBounds) -> Result<bool, AllocError>
    ensures cells { all.new.cells ≡ all.old.cells }
    ensures each { IfOk result (λ is. (if is then Some all.new.each else None)
        ≡ compared_node (out-Expr test.now) holds all.old.each) }
{
    match test {
        Expr::Cmp {
            op,
            left,
            right,
            ..
        } => cut_both(where_holds(holds, *op), left.get(), right.get(), all),
        _ => Ok(true),
    }
}

/// The comparison that holds where this one does, or does not.
fn where_holds(holds: bool, op: CmpOp) -> CmpOp
    ensures { result ≡ where_holds holds op }
{
    if holds { op } else { opposite(op) }
}

/// Cuts both sides, by the bounds that the other side had before.
fn cut_both(op: CmpOp, left: &Expr, right: &Expr, all: &mut KnownBounds) -> Result<bool, AllocError>
    ensures cells { all.new.cells ≡ all.old.cells }
    ensures each { IfOk result (λ is. (if is then Some all.new.each else None)
        ≡ cut_both op left.now right.now (bounds_of left.now all.old.each)
        (bounds_of right.now all.old.each) all.old.each) }
{
    match (bounds_of(left, all), bounds_of(right, all)) {
        (Some(a), Some(b)) => {
            if cut_side(op, left, b, all)? {
                cut_side(exchanged(op), right, a, all)
            } else {
                Ok(false)
            }
        }
        _ => Ok(false),
    }
}

/// Cuts the cell whose value the expression has, if there is one.
pub(crate) fn cut_side(
    op: CmpOp,
    e: &Expr,
    other: Bounds,
    all: &mut KnownBounds,
) -> Result<bool, AllocError>
    ensures cells { all.new.cells ≡ all.old.cells }
    ensures each { IfOk result (λ is. (if is then Some all.new.each else None)
        ≡ cut_side op e.now other all.old.each) }
{
    match side_of(e, all) {
        None => Ok(true),
        Some(cell) => cut_cell(op, cell, other, all),
    }
}

/// Cuts the bounds of a cell.
pub fn cut_cell(
    op: CmpOp,
    cell: u32,
    other: Bounds,
    all: &mut KnownBounds,
) -> Result<bool, AllocError>
    ensures cells { all.new.cells ≡ all.old.cells }
    ensures each { IfOk result (λ is. (if is then Some all.new.each else None)
        ≡ cut_cell op cell other all.old.each) }
{
    match all.at(cell as usize) {
        None => Ok(true),
        Some(own) => match cut(op, own, other) {
            None => Ok(false),
            Some(left) => {
                all.put(cell as usize, left)?;
                Ok(true)
            }
        },
    }
}

/// The cell whose value the expression has: it reads it as a scalar, or converts it once to a type
/// that has all numbers of its bounds.
fn side_of(e: &Expr, all: &KnownBounds) -> Option<u32>
    ensures { result ≡ side_of (out-Expr e.now) all.now.each }
{
    match e {
        Expr::Cast { ty, arg } => fitting(*ty, scalar_of(arg.get()), all),
        _ => match scalar_of(e) {
            Some(read) => Some(read.cell),
            None => None,
        },
    }
}

/// The cell of the scalar, where the type has all numbers of its bounds.
fn fitting(ty: IntType, read: Option<Scalar>, all: &KnownBounds) -> Option<u32>
    ensures { result ≡ fitting ty read all.now.each }
{
    match read {
        None => None,
        Some(read) => {
            if fits(ty, all.at(read.cell as usize)) {
                Some(read.cell)
            } else {
                None
            }
        }
    }
}

/// Whether the type has all numbers of the bounds.
fn fits(ty: IntType, own: Option<Bounds>) -> bool
    ensures { result ≡ fits ty own }
{
    match own {
        None => false,
        Some(own) => own.is_inside(Bounds::range_of(ty)),
    }
}
