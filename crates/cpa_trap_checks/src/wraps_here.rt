//! Whether a node overflows by itself, as a test (specs/Checks), with a function for each operator.
//! Proved by the checker alone.

ghost use Rattle.std.specs.Prelude.{◌≡◌, IfOk, pos, negsuc};
ghost use Rattle.cpa_ints.specs.Integers.{least, greatest};
ghost use Rattle.cpa_expr.specs.declared.tree.CmpOp.TheVariants as cmp;
ghost use Rattle.cpa_expr.specs.declared.tree.Expr.TheVariants.{Bin, Cmp, And};
ghost use Rattle.cpa_trap_checks.specs.Checks.{compared, outside, is_past, add_wraps, sub_wraps};
ghost use Rattle.cpa_trap_checks.specs.Checks.{is_lost, mul_wraps, div_wraps, shl_wraps};
ghost use Rattle.cpa_trap_checks.specs.Checks.{signed_wraps, bin_wraps, un_wraps};

use crate::numbers::{compare, greatest, is_least, least, with_minus_one, with_zero};
use crate::traps_here::outside;
use cpa_expr::{BinOp, CmpOp, Expr, UnOp, both, comparison, copied, either, negation};
use cpa_ints::{Boxed, IntType};
use std::alloc::{AllocError, Global};

/// An operator on two expressions.
fn operation(
    alloc: Global,
    op: BinOp,
    ty: IntType,
    left: Boxed<Expr>,
    right: &Expr,
) -> Result<Boxed<Expr>, AllocError>
    ensures { IfOk result (λ r. r ≡ Bin op ty left right.now) }
{
    let node = Expr::Bin {
        op,
        ty,
        left,
        right: copied(alloc, right)?,
    };
    Boxed::new(alloc, node)
}

/// Whether `a` compares so with an end of the type, less or plus `b`.
fn is_past(
    alloc: Global,
    past: CmpOp,
    op: BinOp,
    end: Boxed<Expr>,
    ty: IntType,
    a: &Expr,
    b: &Expr,
) -> Result<Boxed<Expr>, AllocError>
    ensures { IfOk result (λ r. r ≡ Cmp past ty a.now (Bin op ty end b.now)) }
{
    let limit = operation(alloc, op, ty, end, b)?;
    compare(alloc, past, ty, a, limit)
}

/// Whether `b` has this sign, and `a` is greater than the greatest value less or plus `b`.
fn is_above(
    alloc: Global,
    sign: CmpOp,
    op: BinOp,
    ty: IntType,
    a: &Expr,
    b: &Expr,
) -> Result<Boxed<Expr>, AllocError>
    ensures { IfOk result (λ r. r ≡ And (compared sign ty b.now (pos 0))
        (is_past cmp.Gt op (greatest ty) ty a.now b.now)) }
{
    let signed = with_zero(alloc, sign, ty, b)?;
    let end = greatest(alloc, ty)?;
    let past = is_past(alloc, CmpOp::Gt, op, end, ty, a, b)?;
    both(alloc, signed, past)
}

/// Whether `b` has this sign, and `a` is less than the least value less or plus `b`.
fn is_below(
    alloc: Global,
    sign: CmpOp,
    op: BinOp,
    ty: IntType,
    a: &Expr,
    b: &Expr,
) -> Result<Boxed<Expr>, AllocError>
    ensures { IfOk result (λ r. r ≡ And (compared sign ty b.now (pos 0))
        (is_past cmp.Lt op (least ty) ty a.now b.now)) }
{
    let signed = with_zero(alloc, sign, ty, b)?;
    let end = least(alloc, ty)?;
    let past = is_past(alloc, CmpOp::Lt, op, end, ty, a, b)?;
    both(alloc, signed, past)
}

/// Whether `a` + `b` is outside the type.
fn add_wraps(alloc: Global, ty: IntType, a: &Expr, b: &Expr) -> Result<Boxed<Expr>, AllocError>
    ensures { IfOk result (λ r. r ≡ add_wraps ty a.now b.now) }
{
    let above = is_above(alloc, CmpOp::Gt, BinOp::Sub, ty, a, b)?;
    let below = is_below(alloc, CmpOp::Lt, BinOp::Sub, ty, a, b)?;
    either(alloc, above, below)
}

/// Whether `a` - `b` is outside the type.
fn sub_wraps(alloc: Global, ty: IntType, a: &Expr, b: &Expr) -> Result<Boxed<Expr>, AllocError>
    ensures { IfOk result (λ r. r ≡ sub_wraps ty a.now b.now) }
{
    let above = is_above(alloc, CmpOp::Lt, BinOp::Add, ty, a, b)?;
    let below = is_below(alloc, CmpOp::Gt, BinOp::Add, ty, a, b)?;
    either(alloc, above, below)
}

/// Whether `a` is not had back where an operator is undone by another one.
fn is_lost(
    alloc: Global,
    op: BinOp,
    back: BinOp,
    ty: IntType,
    a: &Expr,
    b: &Expr,
) -> Result<Boxed<Expr>, AllocError>
    ensures { IfOk result (λ r. r ≡ is_lost op back ty a.now b.now) }
{
    let whole = copied(alloc, a)?;
    let done = operation(alloc, op, ty, whole, b)?;
    let undone = operation(alloc, back, ty, done, b)?;
    let whole = copied(alloc, a)?;
    comparison(alloc, CmpOp::Ne, ty, undone, whole)
}

/// Whether `b` is neither 0 nor -1.
fn is_other(alloc: Global, ty: IntType, b: &Expr) -> Result<Boxed<Expr>, AllocError>
    ensures { IfOk result (λ r. r ≡ And (compared cmp.Ne ty b.now (pos 0))
        (compared cmp.Ne ty b.now (negsuc 0))) }
{
    let nonzero = with_zero(alloc, CmpOp::Ne, ty, b)?;
    let not_minus = with_minus_one(alloc, CmpOp::Ne, ty, b)?;
    both(alloc, nonzero, not_minus)
}

/// Whether `b` is -1, and `a` is the least value.
fn is_flipped(alloc: Global, ty: IntType, a: &Expr, b: &Expr) -> Result<Boxed<Expr>, AllocError>
    ensures { IfOk result (λ r. r ≡ And (compared cmp.Eq ty b.now (negsuc 0))
        (compared cmp.Eq ty a.now (least ty))) }
{
    let minus = with_minus_one(alloc, CmpOp::Eq, ty, b)?;
    let lowest = is_least(alloc, ty, a)?;
    both(alloc, minus, lowest)
}

/// Whether `a` * `b` is outside the type.
fn mul_wraps(alloc: Global, ty: IntType, a: &Expr, b: &Expr) -> Result<Boxed<Expr>, AllocError>
    ensures { IfOk result (λ r. r ≡ mul_wraps ty a.now b.now) }
{
    let other = is_other(alloc, ty, b)?;
    let lost = is_lost(alloc, BinOp::Mul, BinOp::Div, ty, a, b)?;
    let wrapped = both(alloc, other, lost)?;
    let flipped = is_flipped(alloc, ty, a, b)?;
    either(alloc, flipped, wrapped)
}

/// Whether `a` / `b` is outside the type: the least value divided by -1.
fn div_wraps(alloc: Global, ty: IntType, a: &Expr, b: &Expr) -> Result<Boxed<Expr>, AllocError>
    ensures { IfOk result (λ r. r ≡ div_wraps ty a.now b.now) }
{
    let lowest = is_least(alloc, ty, a)?;
    let minus = with_minus_one(alloc, CmpOp::Eq, ty, b)?;
    both(alloc, lowest, minus)
}

/// Whether `a` << `b` is outside the type, where the amount is inside the width.
fn shl_wraps(alloc: Global, ty: IntType, a: &Expr, b: &Expr) -> Result<Boxed<Expr>, AllocError>
    ensures { IfOk result (λ r. r ≡ shl_wraps ty a.now b.now) }
{
    let too_far = outside(alloc, b, ty.width().saturating_sub(1))?;
    let inside = negation(alloc, too_far)?;
    let lost = is_lost(alloc, BinOp::Shl, BinOp::Shr, ty, a, b)?;
    both(alloc, inside, lost)
}

/// Whether the operator overflows at a signed type, where its operands have these values.
fn signed_wraps(
    alloc: Global,
    op: BinOp,
    ty: IntType,
    a: &Expr,
    b: &Expr,
) -> Result<Option<Boxed<Expr>>, AllocError>
    ensures { IfOk result (λ r. r ≡ signed_wraps op ty a.now b.now) }
{
    match op {
        BinOp::Add => Ok(Some(add_wraps(alloc, ty, a, b)?)),
        BinOp::Sub => Ok(Some(sub_wraps(alloc, ty, a, b)?)),
        BinOp::Mul => Ok(Some(mul_wraps(alloc, ty, a, b)?)),
        BinOp::Div => Ok(Some(div_wraps(alloc, ty, a, b)?)),
        BinOp::Shl => Ok(Some(shl_wraps(alloc, ty, a, b)?)),
        _ => Ok(None),
    }
}

/// Whether the operator overflows, where its operands have these values: never at an unsigned type.
pub(crate) fn bin_wraps(
    alloc: Global,
    op: BinOp,
    ty: IntType,
    a: &Expr,
    b: &Expr,
) -> Result<Option<Boxed<Expr>>, AllocError>
    ensures { IfOk result (λ r. r ≡ bin_wraps op ty a.now b.now) }
{
    if !ty.signed() {
        return Ok(None);
    }
    signed_wraps(alloc, op, ty, a, b)
}

/// Whether the operator overflows, where its argument has this value: the least value is negated.
pub(crate) fn un_wraps(
    alloc: Global,
    op: UnOp,
    ty: IntType,
    a: &Expr,
) -> Result<Option<Boxed<Expr>>, AllocError>
    ensures { IfOk result (λ r. r ≡ un_wraps op ty a.now) }
{
    match op {
        UnOp::Neg => {
            if ty.signed() {
                Ok(Some(is_least(alloc, ty, a)?))
            } else {
                Ok(None)
            }
        }
        UnOp::Flip => Ok(None),
    }
}
