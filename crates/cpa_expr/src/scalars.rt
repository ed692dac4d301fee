//! The read of a scalar (`scalar_read` of `specs/Cells.antt`); its law is `a_scalar_is_its_cell`.
//! Proved by the checker alone.

ghost use Rattle.std.specs.Prelude.{◌≡◌, IfOk};
ghost use Rattle.cpa_expr.specs.Cells.{scalar_read};

use crate::tree::Expr;
use cpa_ints::{Boxed, IntType};
use std::alloc::{AllocError, Global};

/// The read of a scalar: of the one cell at index 0.
pub fn read_scalar(alloc: Global, ty: IntType, cell: u32) -> Result<Expr, AllocError>
    ensures { IfOk result (λ e. e ≡ scalar_read ty cell) }
{
    let zero = Expr::Const {
        ty: IntType::I32,
        value: 0,
    };
    Ok(Expr::Read {
        ty,
        base: cell,
        len: 1,
        index: Boxed::new(alloc, zero)?,
    })
}
