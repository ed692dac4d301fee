//! The bounds of the value of an expression, by `specs/ExpressionBounds.antt`.

ghost use Rattle.std.specs.Prelude.{◌≡◌, Some, option_map, option_and_then};
ghost use Rattle.cpa_interval_bounds.specs.Arithmetic.{un_bounds, bin_bounds};
ghost use Rattle.cpa_interval_bounds.specs.Bounds.{fitted};
ghost use Rattle.cpa_interval_bounds.specs.Elements.{read_bounds};
ghost use Rattle.cpa_interval_bounds.specs.ExpressionBounds.{of_both, either_end, bounds_of};
ghost use Rattle.cpa_interval_bounds.specs.Truths.{numbers_of, compared};

use crate::arithmetic::{bin_bounds, un_bounds};
use crate::bounds::{Bounds, fitted, hull_where_some};
use crate::elements::read_bounds;
use crate::table::KnownBounds;
use crate::truths::{both_hold, compared, it_fails, numbers_of, one_holds, truths_of};
use cpa_expr::{BinOp, CmpOp, Expr, UnOp};
use cpa_ints::IntType;

/// The bounds of the value of the expression, where those of each cell are given. `None` where
/// it has no value: its evaluation surely traps.
pub fn bounds_of(e: &Expr, cells: &KnownBounds) -> Option<Bounds>
    ensures { result ≡ bounds_of e.now cells.now.each }
{
    match e {
        Expr::Const { value, .. } => Some(Bounds::only(*value)),
        Expr::Read {
            base,
            len,
            index,
            ..
        } => of_read(cells, *base, *len, bounds_of(index.get(), cells)),
        Expr::Un { op, ty, arg } => of_un(*op, *ty, bounds_of(arg.get(), cells)),
        Expr::Bin {
            op,
            ty,
            left,
            right,
        } => of_bin(
            *op,
            *ty,
            bounds_of(left.get(), cells),
            bounds_of(right.get(), cells),
        ),
        Expr::Cmp {
            op,
            left,
            right,
            ..
        } => of_cmp(
            *op,
            bounds_of(left.get(), cells),
            bounds_of(right.get(), cells),
        ),
        Expr::Cast { ty, arg } => of_cast(*ty, bounds_of(arg.get(), cells)),
        Expr::And { left, right } => numbers_of(both_hold(
            truths_of(bounds_of(left.get(), cells)),
            truths_of(bounds_of(right.get(), cells)),
        )),
        Expr::Or { left, right } => numbers_of(one_holds(
            truths_of(bounds_of(left.get(), cells)),
            truths_of(bounds_of(right.get(), cells)),
        )),
        Expr::Not { arg } => numbers_of(it_fails(truths_of(bounds_of(arg.get(), cells)))),
        Expr::Cond { test, yes, no, .. } => either_end(
            bounds_of(test.get(), cells),
            bounds_of(yes.get(), cells),
            bounds_of(no.get(), cells),
        ),
    }
}

/// The hull of the elements that the index may name.
fn of_read(cells: &KnownBounds, base: u32, len: u32, index: Option<Bounds>) -> Option<Bounds>
    ensures { result ≡ option_and_then (read_bounds cells.now.each base len) index }
{
    read_bounds(cells, base, len, index?)
}

/// The bounds of what the operator gives for the argument.
fn of_un(op: UnOp, ty: IntType, arg: Option<Bounds>) -> Option<Bounds>
    ensures { result ≡ option_map (un_bounds op ty) arg }
{
    Some(un_bounds(op, ty, arg?))
}

/// The bounds of what the operator gives for both operands.
fn of_bin(op: BinOp, ty: IntType, left: Option<Bounds>, right: Option<Bounds>) -> Option<Bounds>
    ensures { result ≡ of_both (λ a b. Some (bin_bounds op ty a b)) left right }
{
    Some(bin_bounds(op, ty, left?, right?))
}

/// The numbers of the truths that the comparison has.
fn of_cmp(op: CmpOp, left: Option<Bounds>, right: Option<Bounds>) -> Option<Bounds>
    ensures { result ≡ of_both (λ a b. numbers_of (compared op a b)) left right }
{
    numbers_of(compared(op, left?, right?))
}

/// The bounds of the argument, where they fit the type.
fn of_cast(ty: IntType, arg: Option<Bounds>) -> Option<Bounds>
    ensures { result ≡ option_map (fitted ty) arg }
{
    Some(fitted(ty, arg?))
}

/// The hull of both ends, where the test has a value.
fn either_end(test: Option<Bounds>, yes: Option<Bounds>, no: Option<Bounds>) -> Option<Bounds>
    ensures { result ≡ either_end test yes no }
{
    match test {
        Some(_) => hull_where_some(yes, no),
        None => None,
    }
}
