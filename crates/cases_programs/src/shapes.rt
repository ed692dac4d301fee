//! Whether elements, precisions and paths fit an automaton: `AreShaped`, `IsPrecision` and
//! `IsPathOf` of `cpa_iface`. Proved with `proofs/shapes/`.

ghost use Rattle.std.specs.Prelude.{◌<◌, IsTrue};
ghost use Rattle.std.specs.List.{AllByRecursion};
ghost use Rattle.cpa_model.specs.Expressions.{IsExpr};
ghost use Rattle.cpa_iface.specs.Meanings.{AreShaped, IsPathOf, IsPrecision};

use cpa_iface::Precision;
use cpa_model::{Cell, Cfa, Elem, Expr, Path, is_elem, is_expr};

/// Whether each element may be handed to an analysis of the automaton.
pub fn are_elems(elems: &[Elem], cfa: &Cfa) -> bool
    ensures { IsTrue result → AreShaped cfa.now elems.now }
{
    for elem in elems {
        if !is_elem(elem, cfa) {
            return false;
        }
    }
    true
}

/// Whether each cell is there, and each predicate is well typed. The limit is free.
pub fn is_precision(precision: &Precision, cfa: &Cfa) -> bool
    ensures { IsTrue result → IsPrecision cfa.now precision.now }
{
    are_below(precision.tracked.as_slice(), cfa.cells.len())
        && are_exprs(precision.preds.as_slice(), cfa.cells.as_slice())
}

/// Whether each precision may be handed to an analysis of the automaton.
pub fn are_precisions(precisions: &[Precision], cfa: &Cfa) -> bool
    ensures { IsTrue result → AllByRecursion (IsPrecision cfa.now) precisions.now }
{
    for precision in precisions {
        if !is_precision(precision, cfa) {
            return false;
        }
    }
    true
}

/// Whether each edge is there. That one begins where the last one ends is not asked.
pub fn is_path(path: &Path, cfa: &Cfa) -> bool
    ensures { IsTrue result → IsPathOf cfa.now path.now }
{
    are_below(path.edges.as_slice(), cfa.edges.len())
}

/// Whether each number is one of so many things, numbered from 0 on.
fn are_below(numbers: &[u32], limit: usize) -> bool
    ensures { IsTrue result → AllByRecursion (λ number. number < limit) numbers.now }
{
    for number in numbers {
        if limit <= *number as usize {
            return false;
        }
    }
    true
}

/// Whether each expression is well typed over the cells.
fn are_exprs(exprs: &[Expr], cells: &[Cell]) -> bool
    ensures { IsTrue result → AllByRecursion (IsExpr cells.now) exprs.now }
{
    for expr in exprs {
        if !is_expr(expr, cells) {
            return false;
        }
    }
    true
}
