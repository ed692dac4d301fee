//! Expressions carried over a write into an array: where an expression reads the cell that is
//! written, it has the value that is written. Nothing is promised of them.

use cpa_expr::{BinOp, CmpOp, Expr, cast, comparison, constant, copied};
use cpa_ints::{Boxed, IntType};
use std::alloc::{AllocError, Global};

/// A write of a value into one of `len` cells from `base` on.
#[derive(Clone, Copy)]
pub(crate) struct Write<'a> {
    pub(crate) base: u32,
    pub(crate) len: u32,
    pub(crate) index: &'a Expr,
    pub(crate) value: &'a Expr,
}

/// The number of the cell that is one of those from `base` on, by its index.
fn address(alloc: Global, base: u32, index: Boxed<Expr>) -> Result<Boxed<Expr>, AllocError> {
    let left = cast(alloc, IntType::I64, index)?;
    let right = constant(alloc, IntType::I64, base as i128)?;
    Boxed::new(
        alloc,
        Expr::Bin {
            op: BinOp::Add,
            ty: IntType::I64,
            left,
            right,
        },
    )
}

/// Whether the two arrays have a cell in common.
fn do_overlap(base: u32, len: u32, write: Write<'_>) -> bool {
    base < write.base.saturating_add(write.len) && write.base < base.saturating_add(len)
}

/// The read of the cell after the write.
fn read_after(
    alloc: Global,
    ty: IntType,
    base: u32,
    len: u32,
    index: Boxed<Expr>,
    write: Write<'_>,
) -> Result<Boxed<Expr>, AllocError> {
    if !do_overlap(base, len, write) {
        return Boxed::new(
            alloc,
            Expr::Read {
                ty,
                base,
                len,
                index,
            },
        );
    }
    let read_index = copied(alloc, index.get())?;
    let read_at = address(alloc, base, read_index)?;
    let write_index = copied(alloc, write.index)?;
    let written_at = address(alloc, write.base, write_index)?;
    let test = comparison(alloc, CmpOp::Eq, IntType::I64, read_at, written_at)?;
    let yes = copied(alloc, write.value)?;
    let no = Boxed::new(
        alloc,
        Expr::Read {
            ty,
            base,
            len,
            index,
        },
    )?;
    Boxed::new(alloc, Expr::Cond { ty, test, yes, no })
}

/// What the expression is before the write where this one is after it.
pub(crate) fn before_write(
    alloc: Global,
    e: &Expr,
    write: Write<'_>,
) -> Result<Boxed<Expr>, AllocError> {
    match e {
        Expr::Const { .. } => copied(alloc, e),
        Expr::Read {
            ty,
            base,
            len,
            index,
        } => {
            let index = before_write(alloc, index.get(), write)?;
            read_after(alloc, *ty, *base, *len, index, write)
        }
        Expr::Un { op, ty, arg } => {
            let (op, ty) = (*op, *ty);
            let arg = before_write(alloc, arg.get(), write)?;
            Boxed::new(alloc, Expr::Un { op, ty, arg })
        }
        Expr::Cast { ty, arg } => {
            let ty = *ty;
            let arg = before_write(alloc, arg.get(), write)?;
            Boxed::new(alloc, Expr::Cast { ty, arg })
        }
        Expr::Not { arg } => {
            let arg = before_write(alloc, arg.get(), write)?;
            Boxed::new(alloc, Expr::Not { arg })
        }
        Expr::Bin {
            op,
            ty,
            left,
            right,
        } => {
            let (op, ty) = (*op, *ty);
            let left = before_write(alloc, left.get(), write)?;
            let right = before_write(alloc, right.get(), write)?;
            Boxed::new(
                alloc,
                Expr::Bin {
                    op,
                    ty,
                    left,
                    right,
                },
            )
        }
        Expr::Cmp {
            op,
            ty,
            left,
            right,
        } => {
            let (op, ty) = (*op, *ty);
            let left = before_write(alloc, left.get(), write)?;
            let right = before_write(alloc, right.get(), write)?;
            comparison(alloc, op, ty, left, right)
        }
        Expr::And { left, right } => {
            let left = before_write(alloc, left.get(), write)?;
            let right = before_write(alloc, right.get(), write)?;
            Boxed::new(alloc, Expr::And { left, right })
        }
        Expr::Or { left, right } => {
            let left = before_write(alloc, left.get(), write)?;
            let right = before_write(alloc, right.get(), write)?;
            Boxed::new(alloc, Expr::Or { left, right })
        }
        Expr::Cond { ty, test, yes, no } => {
            let ty = *ty;
            let test = before_write(alloc, test.get(), write)?;
            let yes = before_write(alloc, yes.get(), write)?;
            let no = before_write(alloc, no.get(), write)?;
            Boxed::new(alloc, Expr::Cond { ty, test, yes, no })
        }
    }
}
