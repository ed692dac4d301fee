//! Expressions at places and values of cells, in boxes, by the nodes of `cpa_form_renaming`.
//! Proved by the checker alone.

ghost use Rattle.std.specs.Prelude.{◌≡◌, IfOk};
ghost use Rattle.cpa_expr.specs.Cells.{scalar_read};
ghost use Rattle.cpa_expr.specs.declared.tree.CmpOp.TheVariants as cmp;
ghost use Rattle.cpa_expr.specs.declared.tree.Expr.TheVariants.{Cmp};
ghost use Rattle.cpa_form_renaming.specs.Renaming.{renamed};

use cpa_expr::{CmpOp, Expr, comparison, read_scalar};
use cpa_form_renaming::{Place, rename};
use cpa_ints::{Boxed, IntType};
use std::alloc::{AllocError, Global};

/// The expression at the places of its cells.
pub(crate) fn renamed(alloc: Global, e: &Expr, places: &[Place]) -> Result<Boxed<Expr>, AllocError>
    ensures { IfOk result (λ r. r ≡ renamed places.now e.now) }
{
    Boxed::new(alloc, rename(alloc, e, places)?)
}

/// The cell's value.
pub(crate) fn scalar(alloc: Global, ty: IntType, cell: u32) -> Result<Boxed<Expr>, AllocError>
    ensures { IfOk result (λ e. e ≡ scalar_read ty cell) }
{
    Boxed::new(alloc, read_scalar(alloc, ty, cell)?)
}

/// Whether a cell of the type has the value of the expression.
pub(crate) fn has_value(
    alloc: Global,
    ty: IntType,
    cell: u32,
    value: Boxed<Expr>,
) -> Result<Boxed<Expr>, AllocError>
    ensures { IfOk result (λ e. e ≡ Cmp cmp.Eq ty (scalar_read ty cell) value) }
{
    let read = scalar(alloc, ty, cell)?;
    comparison(alloc, CmpOp::Eq, ty, read, value)
}
