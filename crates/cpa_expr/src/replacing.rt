//! Copies of expressions, as they are and with a cell replaced (`replaced` of `specs/Cells.antt`),
//! by one rewriting of a node's parts. It proves itself; its measure is in `proofs/replacing`.

ghost use Rattle.std.specs.Prelude.{◌≡◌, IfOk};
ghost use Rattle.cpa_expr.specs.declared.tree.Expr.{out-Expr};
ghost use Rattle.cpa_expr.specs.Rewriting.{image};
ghost use Rattle.cpa_expr.specs.Cells.{is_zero, is_scalar_read, replaced, with_parts};

use crate::tree::Expr;
use cpa_ints::{Boxed, IntType};
use std::alloc::{AllocError, Global};

/// What becomes of an expression.
#[derive(Clone, Copy)]
pub(crate) enum Rewriting<'a> {
    /// It stays as it is.
    Keep,
    /// Each scalar read of the cell becomes the other expression.
    Replace { cell: u32, by: &'a Expr },
}

/// An equal expression.
pub fn copy(alloc: Global, e: &Expr) -> Result<Expr, AllocError>
    ensures { IfOk result (λ r. r ≡ e.now) }
{
    rewrite(alloc, e, Rewriting::Keep)
}

/// The expression with `by` in place of each scalar read of the cell. Reads of arrays stay, but for
/// their indices.
pub fn replace_cell(alloc: Global, e: &Expr, cell: u32, by: &Expr) -> Result<Expr, AllocError>
    ensures { IfOk result (λ r. r ≡ replaced e.now cell by.now) }
{
    rewrite(alloc, e, Rewriting::Replace { cell, by })
}

/// What becomes of the expression.
#[cycle(rewriting)]
fn rewrite(alloc: Global, e: &Expr, with: Rewriting<'_>) -> Result<Expr, AllocError>
    ensures { IfOk result (λ r. r ≡ image with.entry e.now) }
{
    match with {
        Rewriting::Keep => rewrite_parts(alloc, e, with),
        Rewriting::Replace { cell, by } => {
            if is_scalar_read(e, cell) {
                rewrite(alloc, by, Rewriting::Keep)
            } else {
                rewrite_parts(alloc, e, with)
            }
        }
    }
}

/// The node with what becomes of each part in the part's place.
#[cycle(rewriting)]
fn rewrite_parts(alloc: Global, e: &Expr, with: Rewriting<'_>) -> Result<Expr, AllocError>
    ensures { IfOk result (λ r. r ≡ with_parts (image with.entry) e.now) }
{
    match e {
        Expr::Const { ty, value } => Ok(Expr::Const {
            ty: *ty,
            value: *value,
        }),
        Expr::Read {
            ty,
            base,
            len,
            index,
        } => Ok(Expr::Read {
            ty: *ty,
            base: *base,
            len: *len,
            index: rewrite_part(alloc, index, with)?,
        }),
        Expr::Un { op, ty, arg } => Ok(Expr::Un {
            op: *op,
            ty: *ty,
            arg: rewrite_part(alloc, arg, with)?,
        }),
        Expr::Bin {
            op,
            ty,
            left,
            right,
        } => {
            let (left, right) = rewrite_pair(alloc, left, right, with)?;
            Ok(Expr::Bin {
                op: *op,
                ty: *ty,
                left,
                right,
            })
        }
        Expr::Cmp {
            op,
            ty,
            left,
            right,
        } => {
            let (left, right) = rewrite_pair(alloc, left, right, with)?;
            Ok(Expr::Cmp {
                op: *op,
                ty: *ty,
                left,
                right,
            })
        }
        Expr::Cast { ty, arg } => Ok(Expr::Cast {
            ty: *ty,
            arg: rewrite_part(alloc, arg, with)?,
        }),
        Expr::And { left, right } => {
            let (left, right) = rewrite_pair(alloc, left, right, with)?;
            Ok(Expr::And { left, right })
        }
        Expr::Or { left, right } => {
            let (left, right) = rewrite_pair(alloc, left, right, with)?;
            Ok(Expr::Or { left, right })
        }
        Expr::Not { arg } => Ok(Expr::Not {
            arg: rewrite_part(alloc, arg, with)?,
        }),
        Expr::Cond { ty, test, yes, no } => {
            let test = rewrite_part(alloc, test, with)?;
            let (yes, no) = rewrite_pair(alloc, yes, no, with)?;
            Ok(Expr::Cond {
                ty: *ty,
                test,
                yes,
                no,
            })
        }
    }
}

/// What becomes of two parts.
#[cycle(rewriting)]
fn rewrite_pair(
    alloc: Global,
    left: &Boxed<Expr>,
    right: &Boxed<Expr>,
    with: Rewriting<'_>,
) -> Result<(Boxed<Expr>, Boxed<Expr>), AllocError>
    ensures { IfOk result (λ r.
        (r.0 ≡ image with.entry left.now) × (r.1 ≡ image with.entry right.now)) }
{
    let left = rewrite_part(alloc, left, with)?;
    Ok((left, rewrite_part(alloc, right, with)?))
}

/// What becomes of a part.
#[cycle(rewriting)]
fn rewrite_part(
    alloc: Global,
    part: &Boxed<Expr>,
    with: Rewriting<'_>,
) -> Result<Boxed<Expr>, AllocError>
    ensures { IfOk result (λ r. r ≡ image with.entry part.now) }
{
    Boxed::new(alloc, rewrite(alloc, part.get(), with)?)
}

/// Whether the expression is the number 0 of type `int`.
fn is_zero(e: &Expr) -> bool
    ensures { result ≡ is_zero (out-Expr e.now) }
{
    match e {
        Expr::Const { ty, value } => *ty == IntType::I32 && *value == 0,
        _ => false,
    }
}

/// Whether the expression reads the cell as a scalar.
fn is_scalar_read(e: &Expr, cell: u32) -> bool
    ensures { result ≡ is_scalar_read cell (out-Expr e.now) }
{
    match e {
        Expr::Read {
            base,
            len,
            index,
            ..
        } => *base == cell && *len == 1 && is_zero(index.get()),
        _ => false,
    }
}
