//! Numbers as expressions, and what is compared with one (specs/Checks). Proved by the checker
//! alone.

ghost use Rattle.std.specs.Prelude.{◌≡◌, IfOk, pos, negsuc};
ghost use Rattle.cpa_ints.specs.Integers.{least, greatest};
ghost use Rattle.cpa_expr.specs.declared.tree.CmpOp.TheVariants as cmp;
ghost use Rattle.cpa_expr.specs.declared.tree.Expr.TheVariants.{Const, Cmp};
ghost use Rattle.cpa_trap_checks.specs.Checks.{compared};

use cpa_expr::{CmpOp, Expr, comparison, constant, copied};
use cpa_ints::{Boxed, IntType};
use std::alloc::{AllocError, Global};

/// The number 0 of the type.
fn zero(alloc: Global, ty: IntType) -> Result<Boxed<Expr>, AllocError>
    ensures { IfOk result (λ r. r ≡ Const ty (pos 0)) }
{
    constant(alloc, ty, 0)
}

/// The number -1 of the type.
fn minus_one(alloc: Global, ty: IntType) -> Result<Boxed<Expr>, AllocError>
    ensures { IfOk result (λ r. r ≡ Const ty (negsuc 0)) }
{
    constant(alloc, ty, -1)
}

/// A count as a number of the type.
pub(crate) fn count(alloc: Global, ty: IntType, number: u32) -> Result<Boxed<Expr>, AllocError>
    ensures { IfOk result (λ r. r ≡ Const ty (pos number)) }
{
    constant(alloc, ty, number as i128)
}

/// The least number of the type.
pub(crate) fn least(alloc: Global, ty: IntType) -> Result<Boxed<Expr>, AllocError>
    ensures { IfOk result (λ r. r ≡ Const ty (least ty)) }
{
    let value = ty.least();
    Boxed::new(alloc, Expr::Const { ty, value })
}

/// The greatest number of the type.
pub(crate) fn greatest(alloc: Global, ty: IntType) -> Result<Boxed<Expr>, AllocError>
    ensures { IfOk result (λ r. r ≡ Const ty (greatest ty)) }
{
    let value = ty.greatest();
    Boxed::new(alloc, Expr::Const { ty, value })
}

/// Whether the value of the expression compares so with another one.
pub(crate) fn compare(
    alloc: Global,
    op: CmpOp,
    ty: IntType,
    e: &Expr,
    other: Boxed<Expr>,
) -> Result<Boxed<Expr>, AllocError>
    ensures { IfOk result (λ r. r ≡ Cmp op ty e.now other) }
{
    let whole = copied(alloc, e)?;
    comparison(alloc, op, ty, whole, other)
}

/// Whether the value of the expression compares so with 0.
pub(crate) fn with_zero(
    alloc: Global,
    op: CmpOp,
    ty: IntType,
    e: &Expr,
) -> Result<Boxed<Expr>, AllocError>
    ensures { IfOk result (λ r. r ≡ compared op ty e.now (pos 0)) }
{
    let number = zero(alloc, ty)?;
    compare(alloc, op, ty, e, number)
}

/// Whether the value of the expression compares so with -1.
pub(crate) fn with_minus_one(
    alloc: Global,
    op: CmpOp,
    ty: IntType,
    e: &Expr,
) -> Result<Boxed<Expr>, AllocError>
    ensures { IfOk result (λ r. r ≡ compared op ty e.now (negsuc 0)) }
{
    let number = minus_one(alloc, ty)?;
    compare(alloc, op, ty, e, number)
}

/// Whether the value of the expression is the least of the type.
pub(crate) fn is_least(alloc: Global, ty: IntType, e: &Expr) -> Result<Boxed<Expr>, AllocError>
    ensures { IfOk result (λ r. r ≡ compared cmp.Eq ty e.now (least ty)) }
{
    let number = least(alloc, ty)?;
    compare(alloc, CmpOp::Eq, ty, e, number)
}
