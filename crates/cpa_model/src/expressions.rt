//! Expressions over the cells of a program: their truth on a store, by `HasTruth` of
//! `cpa_expr`, and their typing, by `specs/Expressions.antt`.
ghost use Rattle.std.specs.Prelude.{◌↔◌, IsTrue};
ghost use Rattle.cpa_expr.specs.Values.{HasTruth};
ghost use Rattle.cpa_model.specs.Expressions.{IsExpr};

use crate::program::Cell;
use cpa_expr::{Expr, Store, is_expr_over, value};

/// Whether the expression does not trap, and is nonzero exactly where `holds`.
pub fn has_truth(expr: &Expr, holds: bool, store: &Store) -> bool
    ensures { IsTrue result ↔ HasTruth store.now.values expr.now holds }
{
    match value(expr, store) {
        Some(v) => (v != 0) == holds,
        None => false,
    }
}

/// Whether the expression is well typed over the cells, and of a height of at most `MAX_HEIGHT` of
/// `cpa_expr`.
pub fn is_expr(expr: &Expr, cells: &[Cell]) -> bool
    ensures { IsTrue result ↔ IsExpr cells.now expr.now }
{
    is_expr_over(expr, cells)
}
