//! The type, the size and the height of an expression (`specs/Shape.antt`), and which cells it may
//! read (`specs/Cells.antt`), by its parts; `proofs/shape` has what they leave.

ghost use Rattle.std.specs.Prelude.{◌≡◌, ◌+◌, min};
ghost use Rattle.std.specs.List.{list_any};
ghost use Rattle.cpa_expr.specs.declared.tree.Expr.{out-Expr};
ghost use Rattle.cpa_expr.specs.Cells.{is_within, reads_here, may_read};
ghost use Rattle.cpa_expr.specs.Shape.{parts, type_of, size, height};

use crate::parts::{Parts, parts_of};
use crate::tree::Expr;
use cpa_ints::IntType;

/// The greatest height of an expression that `is_expr` takes.
pub const MAX_HEIGHT: u32 = 500;

/// The type of the expression's value.
pub fn type_of(e: &Expr) -> IntType
    ensures { result ≡ type_of e.now }
{
    match e {
        Expr::Const { ty, .. }
        | Expr::Read { ty, .. }
        | Expr::Un { ty, .. }
        | Expr::Bin { ty, .. }
        | Expr::Cast { ty, .. }
        | Expr::Cond { ty, .. } => *ty,
        Expr::Cmp { .. } | Expr::And { .. } | Expr::Or { .. } | Expr::Not { .. } => IntType::I32,
    }
}

/// How many nodes the expression has, or the greatest `u64` where there are more.
pub fn size(e: &Expr) -> u64
    ensures { result ≡ min (size e.now) u64.MAX }
{
    match parts_of(e) {
        Parts::None => 1,
        Parts::One(part) => one_more(size(part)),
        Parts::Two(left, right) => one_more(size(left).saturating_add(size(right))),
        Parts::Three(test, yes, no) => {
            let ends = size(yes).saturating_add(size(no));
            one_more(size(test).saturating_add(ends))
        }
    }
}

/// One node and these.
fn one_more(nodes: u64) -> u64
    ensures { result ≡ min (1 + nodes) u64.MAX }
{
    nodes.saturating_add(1)
}

/// How many nodes lie on the longest way from the root to a node without parts, or the greatest
/// `u32` where there are more. The index of a read is its part.
pub fn height(e: &Expr) -> u32
    ensures { result ≡ min (height e.now) u32.MAX }
{
    match parts_of(e) {
        Parts::None => 1,
        Parts::One(part) => one_above(height(part)),
        Parts::Two(left, right) => one_above(height(left).max(height(right))),
        Parts::Three(test, yes, no) => {
            let ends = height(yes).max(height(no));
            one_above(height(test).max(ends))
        }
    }
}

/// The height of a node whose highest part has this height.
fn one_above(greatest: u32) -> u32
    ensures { result ≡ min (1 + greatest) u32.MAX }
{
    greatest.saturating_add(1)
}

/// Whether the expression may read the cell: whether some node, evaluated or not, reads the cell as
/// a scalar or in an array.
#[cycle(reading)]
pub fn may_read(e: &Expr, cell: u32) -> bool
    ensures { result ≡ may_read e.now cell }
{
    reads_here(e, cell) || do_parts_read(e, cell)
}

/// Whether some part may read the cell.
#[cycle(reading)]
fn do_parts_read(e: &Expr, cell: u32) -> bool
    ensures { result ≡ list_any (λ part. may_read part cell) (parts (out-Expr e.now)) }
{
    match parts_of(e) {
        Parts::None => false,
        Parts::One(part) => may_read(part, cell),
        Parts::Two(left, right) => may_read(left, cell) || may_read(right, cell),
        Parts::Three(test, yes, no) => {
            may_read(test, cell) || may_read(yes, cell) || may_read(no, cell)
        }
    }
}

/// Whether the node itself reads the cell.
fn reads_here(e: &Expr, cell: u32) -> bool
    ensures { result ≡ reads_here cell (out-Expr e.now) }
{
    match e {
        Expr::Read { base, len, .. } => is_within(*base, *len, cell),
        _ => false,
    }
}

/// Whether the cell is one of `len` cells from `base` on.
fn is_within(base: u32, len: u32, cell: u32) -> bool
    ensures { result ≡ is_within base len cell }
{
    base <= cell && cell - base < len
}
