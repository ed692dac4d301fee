//! The value of an expression, `value_of` of `specs/Values.antt`: one function for each form of
//! node. It proves itself; the measures are in `proofs/evaluation`.

ghost use Rattle.std.specs.Prelude.{◌≡◌, option_map, option_and_then};
ghost use Rattle.cpa_ints.specs.Wrapping.{wrapped};
ghost use Rattle.cpa_expr.specs.Values.{value_of, cell_at, un_value, bin_value, evaluated};
ghost use Rattle.cpa_expr.specs.Values.{comparison, logical_and, logical_or, logical_not};
ghost use Rattle.cpa_expr.specs.Values.{conditional};

use crate::operators::{bin_value, compares, is_nonzero, truth, un_value};
use crate::tree::{BinOp, CmpOp, Expr, Store, UnOp};
use cpa_ints::{Boxed, IntType, wrap};

/// The value of the expression on the store, or `None` where its evaluation traps. A read of a cell
/// that the store does not have traps.
// Each form of node has a function of its own, since a call clears all locals of its function.
#[cycle(evaluating)]
pub fn value(e: &Expr, store: &Store) -> Option<i128>
    ensures { result ≡ value_of e.now store.now.values }
{
    match e {
        Expr::Const { value, .. } => Some(*value),
        Expr::Read {
            base,
            len,
            index,
            ..
        } => value_of_read(*base, *len, index, store),
        Expr::Un { op, ty, arg } => value_of_un(*op, *ty, arg, store),
        Expr::Bin {
            op,
            ty,
            left,
            right,
        } => value_of_bin(*op, *ty, left, right, store),
        Expr::Cmp {
            op,
            left,
            right,
            ..
        } => value_of_cmp(*op, left, right, store),
        Expr::Cast { ty, arg } => value_of_cast(*ty, arg, store),
        Expr::And { left, right } => value_of_and(left, right, store),
        Expr::Or { left, right } => value_of_or(left, right, store),
        Expr::Not { arg } => value_of_not(arg, store),
        Expr::Cond { test, yes, no, .. } => value_of_cond(test, yes, no, store),
    }
}

/// The value of the cell that the index picks.
#[cycle(evaluating)]
fn value_of_read(base: u32, len: u32, index: &Boxed<Expr>, store: &Store) -> Option<i128>
    ensures { result ≡
        option_and_then (cell_at store.now.values base len) (value_of index.now store.now.values) }
{
    read(store, base, len, value(index.get(), store)?)
}

/// The value of the operator on the value of its argument; it traps only where that does.
#[cycle(evaluating)]
fn value_of_un(op: UnOp, ty: IntType, arg: &Boxed<Expr>, store: &Store) -> Option<i128>
    ensures { result ≡ option_map (un_value op ty) (value_of arg.now store.now.values) }
{
    Some(un_value(op, ty, value(arg.get(), store)?))
}

/// The value of the operator on both values. A division by zero and a shift by less than 0 or by
/// the width of the type or more trap as well.
#[cycle(evaluating)]
fn value_of_bin(
    op: BinOp,
    ty: IntType,
    left: &Boxed<Expr>,
    right: &Boxed<Expr>,
    store: &Store,
) -> Option<i128>
    ensures { result ≡ evaluated (bin_value op ty)
        (value_of left.now store.now.values) (value_of right.now store.now.values) }
{
    let a = value(left.get(), store)?;
    let b = value(right.get(), store)?;
    bin_value(op, ty, a, b)
}

/// 1 where the values compare so, else 0 (C11 6.5.8, 6.5.9).
#[cycle(evaluating)]
fn value_of_cmp(op: CmpOp, left: &Boxed<Expr>, right: &Boxed<Expr>, store: &Store) -> Option<i128>
    ensures { result ≡ comparison op
        (value_of left.now store.now.values) (value_of right.now store.now.values) }
{
    let a = value(left.get(), store)?;
    let b = value(right.get(), store)?;
    Some(truth(compares(op, a, b)))
}

/// The value of the argument, wrapped to the type.
#[cycle(evaluating)]
fn value_of_cast(ty: IntType, arg: &Boxed<Expr>, store: &Store) -> Option<i128>
    ensures { result ≡ option_map (wrapped ty) (value_of arg.now store.now.values) }
{
    Some(wrap(ty, value(arg.get(), store)?))
}

/// The right side is evaluated only where the left one is nonzero (C11 6.5.13).
#[cycle(evaluating)]
fn value_of_and(left: &Boxed<Expr>, right: &Boxed<Expr>, store: &Store) -> Option<i128>
    ensures { result ≡ logical_and
        (value_of left.now store.now.values) (value_of right.now store.now.values) }
{
    if is_nonzero(value(left.get(), store)?) {
        Some(truth(is_nonzero(value(right.get(), store)?)))
    } else {
        Some(0)
    }
}

/// The right side is evaluated only where the left one is zero (C11 6.5.14).
#[cycle(evaluating)]
fn value_of_or(left: &Boxed<Expr>, right: &Boxed<Expr>, store: &Store) -> Option<i128>
    ensures { result ≡ logical_or
        (value_of left.now store.now.values) (value_of right.now store.now.values) }
{
    if is_nonzero(value(left.get(), store)?) {
        Some(1)
    } else {
        Some(truth(is_nonzero(value(right.get(), store)?)))
    }
}

/// 1 where the value of the argument is zero, else 0 (C11 6.5.3.3).
#[cycle(evaluating)]
fn value_of_not(arg: &Boxed<Expr>, store: &Store) -> Option<i128>
    ensures { result ≡ logical_not (value_of arg.now store.now.values) }
{
    Some(truth(!is_nonzero(value(arg.get(), store)?)))
}

/// Only the side that the test picks is evaluated (C11 6.5.15).
#[cycle(evaluating)]
fn value_of_cond(
    test: &Boxed<Expr>,
    yes: &Boxed<Expr>,
    no: &Boxed<Expr>,
    store: &Store,
) -> Option<i128>
    ensures { result ≡ conditional (value_of test.now store.now.values)
        (value_of yes.now store.now.values) (value_of no.now store.now.values) }
{
    if is_nonzero(value(test.get(), store)?) {
        value(yes.get(), store)
    } else {
        value(no.get(), store)
    }
}

/// The value of the cell at this index of `len` cells from `base` on.
fn read(store: &Store, base: u32, len: u32, index: i128) -> Option<i128>
    ensures { result ≡ cell_at store.now.values base len index }
{
    if 0 <= index && index < len as i128 {
        let cell = base as usize + index as usize;
        store.values.get(cell).copied()
    } else {
        None
    }
}
