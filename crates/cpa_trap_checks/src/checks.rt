//! The checks of an expression, and of a write, by those of their parts (`trap_check`, `over_check`
//! of specs/Checks). That a node's check is the expression's: proofs/checks.

ghost use Rattle.std.specs.Prelude.{◌≡◌, IfOk};
ghost use Rattle.cpa_expr.specs.declared.tree.Expr.{Expr, out-Expr};
ghost use Rattle.cpa_expr.specs.declared.tree.Expr.TheFolds.{map-Expr};
ghost use Rattle.cpa_trap_checks.specs.Checks.{either, picked, trap_node, over_then, over_node};
ghost use Rattle.cpa_trap_checks.specs.Checks.{Checked, checked, trap_check, over_check};
ghost use Rattle.cpa_trap_checks.specs.Checks.{write_trap, write_over};

use crate::joining::{one_or_other, picked, unless, where_nonzero, where_zero};
use crate::traps_here::{index_trap, own_trap};
use crate::wraps_here::{bin_wraps, un_wraps};
use cpa_expr::{BinOp, Expr, UnOp};
use cpa_ints::{Boxed, IntType};
use std::alloc::{AllocError, Global};

/// An expression that never traps: it is 1 where the expression traps, and else 0. None where no
/// node of it can trap. It may have the square of the expression's size.
#[cycle(trapping)]
pub fn trap_check(alloc: Global, e: &Expr) -> Result<Option<Boxed<Expr>>, AllocError>
    ensures { IfOk result (λ r. r ≡ trap_check e.now) }
{
    trap_node(alloc, e)
}

/// The check of a node, by those of its parts.
#[cycle(trapping)]
fn trap_node(alloc: Global, e: &Expr) -> Result<Option<Boxed<Expr>>, AllocError>
    ensures { IfOk result (λ r. r ≡ trap_node (map-Expr Expr Checked checked (out-Expr e.now))) }
{
    match e {
        Expr::Const { .. } => Ok(None),
        Expr::Read { len, index, .. } => {
            let own = index_trap(alloc, *len, index.get())?;
            or_trap(alloc, index.get(), own)
        }
        Expr::Un { arg, .. } | Expr::Cast { arg, .. } | Expr::Not { arg } => {
            trap_check(alloc, arg.get())
        }
        Expr::Bin {
            op,
            ty,
            left,
            right,
        } => {
            let own = own_trap(alloc, *op, *ty, right.get())?;
            let later = or_trap(alloc, right.get(), own)?;
            or_trap(alloc, left.get(), later)
        }
        Expr::Cmp { left, right, .. } => {
            let later = trap_check(alloc, right.get())?;
            or_trap(alloc, left.get(), later)
        }
        Expr::And { left, right } => {
            let later = trap_check(alloc, right.get())?;
            let evaluated = where_nonzero(alloc, left.get(), later)?;
            or_trap(alloc, left.get(), evaluated)
        }
        Expr::Or { left, right } => {
            let later = trap_check(alloc, right.get())?;
            let evaluated = where_zero(alloc, left.get(), later)?;
            or_trap(alloc, left.get(), evaluated)
        }
        Expr::Cond { test, yes, no, .. } => {
            let first = trap_check(alloc, yes.get())?;
            let second = trap_check(alloc, no.get())?;
            let later = picked(alloc, test.get(), first, second)?;
            or_trap(alloc, test.get(), later)
        }
    }
}

/// Whether the expression traps, or else the other check is nonzero.
#[cycle(trapping)]
fn or_trap(
    alloc: Global,
    e: &Expr,
    other: Option<Boxed<Expr>>,
) -> Result<Option<Boxed<Expr>>, AllocError>
    ensures { IfOk result (λ r. r ≡ either (trap_check e.now) other) }
{
    let first = trap_check(alloc, e)?;
    one_or_other(alloc, first, other)
}

/// An expression that never traps: it is 1 where the evaluation of the expression, up to its trap
/// if it traps, meets an operator of signed type whose exact result is outside the type, and else
/// 0. None where no node of it can overflow.
#[cycle(overflowing)]
pub fn over_check(alloc: Global, e: &Expr) -> Result<Option<Boxed<Expr>>, AllocError>
    ensures { IfOk result (λ r. r ≡ over_check e.now) }
{
    over_node(alloc, e)
}

/// The check of a node, by those of its parts.
#[cycle(overflowing)]
fn over_node(alloc: Global, e: &Expr) -> Result<Option<Boxed<Expr>>, AllocError>
    ensures { IfOk result (λ r. r ≡ over_node (map-Expr Expr Checked checked (out-Expr e.now))) }
{
    match e {
        Expr::Const { .. } => Ok(None),
        Expr::Read { index: part, .. } | Expr::Cast { arg: part, .. } | Expr::Not { arg: part } => {
            over_check(alloc, part.get())
        }
        Expr::Un { op, ty, arg } => {
            let own = un_wraps(alloc, *op, *ty, arg.get())?;
            over_then(alloc, arg.get(), own)
        }
        Expr::Bin {
            op,
            ty,
            left,
            right,
        } => {
            let own = bin_wraps(alloc, *op, *ty, left.get(), right.get())?;
            let later = over_then(alloc, right.get(), own)?;
            over_then(alloc, left.get(), later)
        }
        Expr::Cmp { left, right, .. } => {
            let later = over_check(alloc, right.get())?;
            over_then(alloc, left.get(), later)
        }
        Expr::And { left, right } => {
            let later = over_check(alloc, right.get())?;
            let later = where_nonzero(alloc, left.get(), later)?;
            over_then(alloc, left.get(), later)
        }
        Expr::Or { left, right } => {
            let later = over_check(alloc, right.get())?;
            let later = where_zero(alloc, left.get(), later)?;
            over_then(alloc, left.get(), later)
        }
        Expr::Cond { test, yes, no, .. } => {
            let first = over_check(alloc, yes.get())?;
            let second = over_check(alloc, no.get())?;
            let later = picked(alloc, test.get(), first, second)?;
            over_then(alloc, test.get(), later)
        }
    }
}

/// Whether the expression overflows, or else, where it does not trap, the later check is nonzero.
#[cycle(overflowing)]
#[tactic(auto, using(crate::specs::lemmas::Shapes::then_none))]
fn over_then(
    alloc: Global,
    e: &Expr,
    later: Option<Boxed<Expr>>,
) -> Result<Option<Boxed<Expr>>, AllocError>
    ensures { IfOk result (λ r. r ≡ over_then (checked e.now) later) }
{
    match later {
        None => over_check(alloc, e),
        Some(later) => {
            let trap = trap_check(alloc, e)?;
            let later = unless(alloc, trap, Some(later))?;
            let first = over_check(alloc, e)?;
            one_or_other(alloc, first, later)
        }
    }
}

/// Whether a write of the value traps, into one of `len` elements that the index names: the index
/// comes first.
pub fn write_trap(
    alloc: Global,
    len: u32,
    index: &Expr,
    value: &Expr,
) -> Result<Option<Boxed<Expr>>, AllocError>
    ensures { IfOk result (λ r. r ≡ write_trap len index.now value.now) }
{
    let own = index_trap(alloc, len, index)?;
    let first = or_trap(alloc, index, own)?;
    let later = trap_check(alloc, value)?;
    one_or_other(alloc, first, later)
}

/// Whether a write of the value overflows: in the index, or else, where that has a value, in the
/// value.
pub fn write_over(
    alloc: Global,
    index: &Expr,
    value: &Expr,
) -> Result<Option<Boxed<Expr>>, AllocError>
    ensures { IfOk result (λ r. r ≡ write_over index.now value.now) }
{
    let later = over_check(alloc, value)?;
    over_then(alloc, index, later)
}
