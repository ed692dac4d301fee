//! Nodes of expressions in boxes, made of parts in boxes: what is held while memory is asked for is
//! given back by one call. Proved by the checker alone.

ghost use Rattle.std.specs.Prelude.{◌≡◌, IfOk};
ghost use Rattle.cpa_expr.specs.declared.tree.Expr.TheVariants.{Const, Cmp, Cast, And, Or, Not};

use crate::replacing::copy;
use crate::tree::{CmpOp, Expr};
use cpa_ints::{Boxed, IntType};
use std::alloc::{AllocError, Global};

/// An equal expression.
pub fn copied(alloc: Global, e: &Expr) -> Result<Boxed<Expr>, AllocError>
    ensures { IfOk result (λ r. r ≡ e.now) }
{
    Boxed::new(alloc, copy(alloc, e)?)
}

/// A number of the type.
pub fn constant(alloc: Global, ty: IntType, value: i128) -> Result<Boxed<Expr>, AllocError>
    ensures { IfOk result (λ r. r ≡ Const ty value) }
{
    Boxed::new(alloc, Expr::Const { ty, value })
}

/// Whether two values of the type compare so.
pub fn comparison(
    alloc: Global,
    op: CmpOp,
    ty: IntType,
    left: Boxed<Expr>,
    right: Boxed<Expr>,
) -> Result<Boxed<Expr>, AllocError>
    ensures { IfOk result (λ r. r ≡ Cmp op ty left right) }
{
    let node = Expr::Cmp {
        op,
        ty,
        left,
        right,
    };
    Boxed::new(alloc, node)
}

/// The expression's value converted to the type.
pub fn cast(alloc: Global, ty: IntType, arg: Boxed<Expr>) -> Result<Boxed<Expr>, AllocError>
    ensures { IfOk result (λ r. r ≡ Cast ty arg) }
{
    Boxed::new(alloc, Expr::Cast { ty, arg })
}

/// Whether both are nonzero.
pub fn both(alloc: Global, left: Boxed<Expr>, right: Boxed<Expr>) -> Result<Boxed<Expr>, AllocError>
    ensures { IfOk result (λ r. r ≡ And left right) }
{
    Boxed::new(alloc, Expr::And { left, right })
}

/// Whether one is nonzero.
pub fn either(
    alloc: Global,
    left: Boxed<Expr>,
    right: Boxed<Expr>,
) -> Result<Boxed<Expr>, AllocError>
    ensures { IfOk result (λ r. r ≡ Or left right) }
{
    Boxed::new(alloc, Expr::Or { left, right })
}

/// Whether the expression is zero.
pub fn negation(alloc: Global, arg: Boxed<Expr>) -> Result<Boxed<Expr>, AllocError>
    ensures { IfOk result (λ r. r ≡ Not arg) }
{
    Boxed::new(alloc, Expr::Not { arg })
}
