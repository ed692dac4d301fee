//! Expressions carried over an edge, from after it to before it (weakest preconditions: Dijkstra
//! 1975). Nothing is promised of them.

use crate::checking::is_zero;
use crate::nodes::{assumed, may_trap};
use crate::storing::{Write, before_write};
use cpa_expr::{Expr, copied, either, replace_cell};
use cpa_form_renaming::trap_test;
use cpa_ints::Boxed;
use cpa_model::Act;
use std::alloc::{AllocError, Global};

/// An expression that never traps: where the given one traps it is 1, else it is nonzero where that
/// is.
fn total(alloc: Global, e: Boxed<Expr>) -> Result<Boxed<Expr>, AllocError> {
    if !may_trap(e.get()) {
        return Ok(e);
    }
    let traps = Boxed::new(alloc, trap_test(alloc, e.get())?)?;
    either(alloc, traps, e)
}

/// That the test has not the truth, or that the expression is nonzero.
fn unless(alloc: Global, test: &Expr, holds: bool, e: &Expr) -> Result<Boxed<Expr>, AllocError> {
    let other = assumed(alloc, test, !holds)?;
    let other = total(alloc, other)?;
    if is_zero(e) {
        return Ok(other);
    }
    let own = copied(alloc, e)?;
    either(alloc, other, own)
}

/// What has to be nonzero before an edge with the act for the expression to be nonzero after it, or
/// None where no expression says it.
pub(crate) fn carried(
    alloc: Global,
    act: &Act,
    e: &Expr,
) -> Result<Option<Boxed<Expr>>, AllocError> {
    match act {
        Act::Assume { test, holds } => Ok(Some(unless(alloc, test, *holds, e)?)),
        Act::Assign {
            base,
            len: 1,
            value,
            ..
        } => {
            let replaced = Boxed::new(alloc, replace_cell(alloc, e, *base, value)?)?;
            Ok(Some(total(alloc, replaced)?))
        }
        Act::Assign {
            base,
            len,
            index,
            value,
        } => {
            let write = Write {
                base: *base,
                len: *len,
                index,
                value,
            };
            let before = before_write(alloc, e, write)?;
            Ok(Some(total(alloc, before)?))
        }
        Act::Input { .. } | Act::Skip | Act::Call { .. } | Act::Return { .. } => Ok(None),
    }
}
