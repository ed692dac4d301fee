//! Whether a node traps by itself, as a test (specs/Checks), and whether it can (specs/Nodes).
//! Proved by the checker alone.

ghost use Rattle.std.specs.Prelude.{◌≡◌, IfOk, pos};
ghost use Rattle.cpa_ints.specs.Conversions.{promoted};
ghost use Rattle.cpa_expr.specs.declared.tree.Expr.{out-Expr};
ghost use Rattle.cpa_expr.specs.declared.tree.Expr.TheVariants.{Cmp};
ghost use Rattle.cpa_expr.specs.Shape.{type_of};
ghost use Rattle.cpa_trap_checks.specs.Nodes.{is_constant_zero, is_one_cell};
ghost use Rattle.cpa_trap_checks.specs.Checks.{compared, promotion, outside, own_trap, index_trap};

use crate::numbers::{count, with_zero};
use cpa_expr::{BinOp, CmpOp, Expr, cast, comparison, copied, either, type_of};
use cpa_ints::{Boxed, IntType, promote};
use std::alloc::{AllocError, Global};

/// The expression after the integer promotions.
fn promotion(alloc: Global, e: &Expr) -> Result<Boxed<Expr>, AllocError>
    ensures { IfOk result (λ r. r ≡ promotion e.now) }
{
    let whole = copied(alloc, e)?;
    if type_of(e).width() < IntType::I32.width() {
        cast(alloc, IntType::I32, whole)
    } else {
        Ok(whole)
    }
}

/// Whether the value of the expression, after the promotions, compares so with another one.
fn promotion_compared(
    alloc: Global,
    op: CmpOp,
    e: &Expr,
    other: Boxed<Expr>,
) -> Result<Boxed<Expr>, AllocError>
    ensures { IfOk result (λ r. r ≡ Cmp op (promoted (type_of e.now)) (promotion e.now) other) }
{
    let ty = promote(type_of(e));
    let whole = promotion(alloc, e)?;
    comparison(alloc, op, ty, whole, other)
}

/// Whether the value of the expression, after the promotions, compares so with a count.
fn with_count(alloc: Global, op: CmpOp, e: &Expr, number: u32) -> Result<Boxed<Expr>, AllocError>
    ensures { IfOk result (λ r.
        r ≡ compared op (promoted (type_of e.now)) (promotion e.now) (pos number)) }
{
    let other = count(alloc, promote(type_of(e)), number)?;
    promotion_compared(alloc, op, e, other)
}

/// Whether the value of the expression does not lie from 0 to `most`.
pub(crate) fn outside(alloc: Global, e: &Expr, most: u32) -> Result<Boxed<Expr>, AllocError>
    ensures { IfOk result (λ r. r ≡ outside e.now most) }
{
    let above = with_count(alloc, CmpOp::Gt, e, most)?;
    if promote(type_of(e)).signed() {
        let below = with_count(alloc, CmpOp::Lt, e, 0)?;
        either(alloc, below, above)
    } else {
        Ok(above)
    }
}

/// Whether the operator has no value where its right operand has the value of this one.
pub(crate) fn own_trap(
    alloc: Global,
    op: BinOp,
    ty: IntType,
    right: &Expr,
) -> Result<Option<Boxed<Expr>>, AllocError>
    ensures { IfOk result (λ r. r ≡ own_trap op ty right.now) }
{
    match op {
        BinOp::Div | BinOp::Rem => Ok(Some(with_zero(alloc, CmpOp::Eq, ty, right)?)),
        BinOp::Shl | BinOp::Shr => {
            Ok(Some(outside(alloc, right, ty.width().saturating_sub(1))?))
        }
        _ => Ok(None),
    }
}

/// Whether the expression is the number 0.
fn is_constant_zero(e: &Expr) -> bool
    ensures { result ≡ is_constant_zero (out-Expr e.now) }
{
    match e {
        Expr::Const { value, .. } => *value == 0,
        _ => false,
    }
}

/// Whether the index is the number 0 into an array of length 1.
fn is_one_cell(len: u32, index: &Expr) -> bool
    ensures { result ≡ is_one_cell len index.now }
{
    len == 1 && is_constant_zero(index)
}

/// Whether the index names none of `len` elements.
pub(crate) fn index_trap(
    alloc: Global,
    len: u32,
    index: &Expr,
) -> Result<Option<Boxed<Expr>>, AllocError>
    ensures { IfOk result (λ r. r ≡ index_trap len index.now) }
{
    if is_one_cell(len, index) {
        Ok(None)
    } else {
        Ok(Some(outside(alloc, index, len.saturating_sub(1))?))
    }
}
