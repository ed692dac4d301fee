//! Expressions renamed to places, `renamed` of specs/Renaming, and whether the arrays that they
//! read stand in one piece, by the checker alone.

ghost use Rattle.std.specs.Prelude.{◌≡◌, IfOk};
ghost use Rattle.std.specs.List.{list_all};
ghost use Rattle.cpa_expr.specs.declared.tree.Expr.{out-Expr, roll-Expr};
ghost use Rattle.cpa_expr.specs.declared.tree.Expr.TheFolds.{map-Expr};
ghost use Rattle.cpa_expr.specs.declared.tree.Expr.{Expr};
ghost use Rattle.cpa_expr.specs.Shape.{parts};
ghost use Rattle.cpa_form_renaming.specs.Renaming.{moved_node, renamed, is_whole_here};
ghost use Rattle.cpa_form_renaming.specs.Renaming.{is_whole};

use crate::places::{Place, number_at, stand_together};
use cpa_expr::{Expr, Parts, parts_of};
use cpa_ints::Boxed;
use std::alloc::{AllocError, Global};

/// The expression with each read at the place of its first cell.
#[cycle(renaming)]
pub fn rename(alloc: Global, e: &Expr, places: &[Place]) -> Result<Expr, AllocError>
    ensures { IfOk result (λ r. r ≡ renamed places.now e.now) }
{
    rename_node(alloc, e, places)
}

/// The node, with each part renamed in its place.
#[cycle(renaming)]
fn rename_node(alloc: Global, e: &Expr, places: &[Place]) -> Result<Expr, AllocError>
    ensures { IfOk result (λ r. r ≡ roll-Expr (moved_node places.now
        (map-Expr Expr Expr (renamed places.now) (out-Expr e.now)))) }
{
    match e {
        Expr::Const { ty, value } => Ok(Expr::Const {
            ty: *ty,
            value: *value,
        }),
        Expr::Read {
            ty,
            base,
            len,
            index,
        } => Ok(Expr::Read {
            ty: *ty,
            base: number_at(places, *base as usize),
            len: *len,
            index: rename_part(alloc, index, places)?,
        }),
        Expr::Un { op, ty, arg } => Ok(Expr::Un {
            op: *op,
            ty: *ty,
            arg: rename_part(alloc, arg, places)?,
        }),
        Expr::Bin {
            op,
            ty,
            left,
            right,
        } => Ok(Expr::Bin {
            op: *op,
            ty: *ty,
            left: rename_part(alloc, left, places)?,
            right: rename_part(alloc, right, places)?,
        }),
        Expr::Cmp {
            op,
            ty,
            left,
            right,
        } => Ok(Expr::Cmp {
            op: *op,
            ty: *ty,
            left: rename_part(alloc, left, places)?,
            right: rename_part(alloc, right, places)?,
        }),
        Expr::Cast { ty, arg } => Ok(Expr::Cast {
            ty: *ty,
            arg: rename_part(alloc, arg, places)?,
        }),
        Expr::And { left, right } => Ok(Expr::And {
            left: rename_part(alloc, left, places)?,
            right: rename_part(alloc, right, places)?,
        }),
        Expr::Or { left, right } => Ok(Expr::Or {
            left: rename_part(alloc, left, places)?,
            right: rename_part(alloc, right, places)?,
        }),
        Expr::Not { arg } => Ok(Expr::Not {
            arg: rename_part(alloc, arg, places)?,
        }),
        Expr::Cond { ty, test, yes, no } => Ok(Expr::Cond {
            ty: *ty,
            test: rename_part(alloc, test, places)?,
            yes: rename_part(alloc, yes, places)?,
            no: rename_part(alloc, no, places)?,
        }),
    }
}

/// A part, renamed.
#[cycle(renaming)]
fn rename_part(
    alloc: Global,
    part: &Boxed<Expr>,
    places: &[Place],
) -> Result<Boxed<Expr>, AllocError>
    ensures { IfOk result (λ r. r ≡ renamed places.now part.now) }
{
    Boxed::new(alloc, rename(alloc, part.get(), places)?)
}

/// Whether each array that the expression reads stands in one piece.
#[cycle(whole)]
pub fn is_whole(e: &Expr, places: &[Place]) -> bool
    ensures { result ≡ is_whole places.now e.now }
{
    is_whole_here(e, places) && are_whole(e, places)
}

/// Whether each part is whole.
#[cycle(whole)]
fn are_whole(e: &Expr, places: &[Place]) -> bool
    ensures { result ≡ list_all (is_whole places.now) (parts (out-Expr e.now)) }
{
    match parts_of(e) {
        Parts::None => true,
        Parts::One(part) => is_whole(part, places),
        Parts::Two(left, right) => is_whole(left, places) && is_whole(right, places),
        Parts::Three(test, yes, no) => {
            is_whole(test, places) && is_whole(yes, places) && is_whole(no, places)
        }
    }
}

/// Whether the cells that the node itself reads stand one behind the other.
fn is_whole_here(e: &Expr, places: &[Place]) -> bool
    ensures { result ≡ is_whole_here places.now (out-Expr e.now) }
{
    match e {
        Expr::Read { base, len, .. } => stand_together(places, *base, *len),
        _ => true,
    }
}
