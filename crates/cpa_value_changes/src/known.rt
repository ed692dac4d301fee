//! What is known of the value of an expression, by `specs/KnownValues.antt`.
//! Proved with `proofs/known/`.

ghost use Rattle.std.specs.Prelude.{◌≡◌, pos, not, if◌then◌else◌, Ok};
ghost use Rattle.cpa_ints.specs.Wrapping.{wrapped};
ghost use Rattle.cpa_expr.specs.Values.{un_value, bin_value, compares, truth, is_nonzero};
ghost use Rattle.cpa_value_changes.specs.KnownValues.{known_then, known_pair, or_trap, known_at};
ghost use Rattle.cpa_value_changes.specs.KnownValues.{known_truth, known_value};

use crate::table::KnownCells;
use cpa_expr::{BinOp, CmpOp, Expr, UnOp, bin_value, compares, is_nonzero, truth, un_value};
use cpa_ints::{Boxed, IntType, wrap};

/// Why the value of an expression is not known.
#[derive(Clone, Copy, PartialEq, Eq)]
pub enum Gap {
    /// Its evaluation needs a cell that is not known.
    Unknown,
    /// Its evaluation traps.
    Trap,
}

/// The value of the expression, where its evaluation needs only cells whose values are known. Parts
/// are evaluated from left to right, and the first one without a value settles the whole:
/// `x + 1 / 0` is unknown where `x` is.
// Each form of node has a function of its own, since a call clears all locals of its function.
#[cycle(knowing)]
pub fn known_value(e: &Expr, cells: &KnownCells) -> Result<i128, Gap>
    ensures { result ≡ known_value e.now cells.now }
{
    match e {
        Expr::Const { value, .. } => Ok(*value),
        Expr::Read {
            base,
            len,
            index,
            ..
        } => known_read(*base, *len, index, cells),
        Expr::Un { op, ty, arg } => known_un(*op, *ty, arg, cells),
        Expr::Bin {
            op,
            ty,
            left,
            right,
        } => known_bin(*op, *ty, left, right, cells),
        Expr::Cmp {
            op,
            left,
            right,
            ..
        } => known_cmp(*op, left, right, cells),
        Expr::Cast { ty, arg } => known_cast(*ty, arg, cells),
        Expr::And { left, right } => known_and(left, right, cells),
        Expr::Or { left, right } => known_or(left, right, cells),
        Expr::Not { arg } => known_not(arg, cells),
        Expr::Cond { test, yes, no, .. } => known_cond(test, yes, no, cells),
    }
}

/// The value of the cell that the index picks, where the index is known.
#[cycle(knowing)]
fn known_read(base: u32, len: u32, index: &Boxed<Expr>, cells: &KnownCells) -> Result<i128, Gap>
    ensures { result ≡ known_then (known_at cells.now base len) (known_value index.now cells.now) }
{
    known_at(cells, base, len, known_value(index.get(), cells)?)
}

/// The value of the operator on the value of its argument, where that is known.
#[cycle(knowing)]
fn known_un(op: UnOp, ty: IntType, arg: &Boxed<Expr>, cells: &KnownCells) -> Result<i128, Gap>
    ensures { result ≡ known_then (λ a. Ok (un_value op ty a)) (known_value arg.now cells.now) }
{
    Ok(un_value(op, ty, known_value(arg.get(), cells)?))
}

/// The value of the operator on both values, where they are known.
#[cycle(knowing)]
fn known_bin(
    op: BinOp,
    ty: IntType,
    left: &Boxed<Expr>,
    right: &Boxed<Expr>,
    cells: &KnownCells,
) -> Result<i128, Gap>
    ensures { result ≡ known_pair (λ a b. or_trap (bin_value op ty a b))
        (known_value left.now cells.now) (known_value right.now cells.now) }
{
    let a = known_value(left.get(), cells)?;
    let b = known_value(right.get(), cells)?;
    or_trap(bin_value(op, ty, a, b))
}

/// 1 where the values compare so, else 0, where they are known.
#[cycle(knowing)]
fn known_cmp(
    op: CmpOp,
    left: &Boxed<Expr>,
    right: &Boxed<Expr>,
    cells: &KnownCells,
) -> Result<i128, Gap>
    ensures { result ≡ known_pair (λ a b. Ok (truth (compares op a b)))
        (known_value left.now cells.now) (known_value right.now cells.now) }
{
    let a = known_value(left.get(), cells)?;
    let b = known_value(right.get(), cells)?;
    Ok(truth(compares(op, a, b)))
}

/// The value of the argument wrapped to the type, where it is known.
#[cycle(knowing)]
fn known_cast(ty: IntType, arg: &Boxed<Expr>, cells: &KnownCells) -> Result<i128, Gap>
    ensures { result ≡ known_then (λ a. Ok (wrapped ty a)) (known_value arg.now cells.now) }
{
    Ok(wrap(ty, known_value(arg.get(), cells)?))
}

/// The right side counts only where the left one is known to be nonzero.
#[cycle(knowing)]
fn known_and(left: &Boxed<Expr>, right: &Boxed<Expr>, cells: &KnownCells) -> Result<i128, Gap>
    ensures { result ≡ known_then
        (λ a. if is_nonzero a then known_truth (known_value right.now cells.now) else Ok (pos 0))
        (known_value left.now cells.now) }
{
    if is_nonzero(known_value(left.get(), cells)?) {
        Ok(truth(is_nonzero(known_value(right.get(), cells)?)))
    } else {
        Ok(0)
    }
}

/// The right side counts only where the left one is known to be zero.
#[cycle(knowing)]
fn known_or(left: &Boxed<Expr>, right: &Boxed<Expr>, cells: &KnownCells) -> Result<i128, Gap>
    ensures { result ≡ known_then
        (λ a. if is_nonzero a then Ok (pos 1) else known_truth (known_value right.now cells.now))
        (known_value left.now cells.now) }
{
    if is_nonzero(known_value(left.get(), cells)?) {
        Ok(1)
    } else {
        Ok(truth(is_nonzero(known_value(right.get(), cells)?)))
    }
}

/// 1 where the argument is known to be zero, 0 where it is known not to be.
#[cycle(knowing)]
fn known_not(arg: &Boxed<Expr>, cells: &KnownCells) -> Result<i128, Gap>
    ensures { result ≡ known_then (λ a. Ok (truth (not (is_nonzero a))))
        (known_value arg.now cells.now) }
{
    Ok(truth(!is_nonzero(known_value(arg.get(), cells)?)))
}

/// Only the side that a known test picks counts.
#[cycle(knowing)]
fn known_cond(
    test: &Boxed<Expr>,
    yes: &Boxed<Expr>,
    no: &Boxed<Expr>,
    cells: &KnownCells,
) -> Result<i128, Gap>
    ensures { result ≡ known_then
        (λ a. if is_nonzero a then known_value yes.now cells.now else known_value no.now cells.now)
        (known_value test.now cells.now) }
{
    if is_nonzero(known_value(test.get(), cells)?) {
        known_value(yes.get(), cells)
    } else {
        known_value(no.get(), cells)
    }
}

/// No result is a trap.
fn or_trap(value: Option<i128>) -> Result<i128, Gap>
    ensures { result ≡ or_trap value }
{
    value.ok_or(Gap::Trap)
}

/// The value of the cell at this index of `len` cells from `base` on.
fn known_at(cells: &KnownCells, base: u32, len: u32, index: i128) -> Result<i128, Gap>
    ensures { result ≡ known_at cells.now base len index }
{
    if 0 <= index && index < len as i128 {
        cells
            .value_at(base as usize + index as usize)
            .ok_or(Gap::Unknown)
    } else {
        Err(Gap::Trap)
    }
}
