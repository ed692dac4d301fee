//! Whether a report speaks of a program, by `specs/Ranges.antt`.
ghost use Rattle.std.specs.Prelude.{◌↔◌, ◌<◌, IsTrue};
ghost use Rattle.std.specs.List.{AllByRecursion};
ghost use Rattle.cpa_iface.specs.Meanings.{AreShaped, IsPathOf, IsPrecision};
ghost use Rattle.cpa_model.specs.Expressions.{IsExpr};
ghost use Rattle.cpa_report.specs.Ranges.{Counts, IsListedIn, IsRefinedIn, IsBodyIn};

use cpa_iface::{Precision, Refined};
use cpa_ints::{DataModel, Seq};
use cpa_model::{Cell, Cfa, Elem, Expr, Path, is_elem, is_expr};
use cpa_report_print::{Body, Listed, Report};

/// Whether the counts of the report are the program's, and its data model is this one.
pub(crate) fn has_counts(report: &Report, cfa: &Cfa, model: DataModel) -> bool
    ensures { IsTrue result ↔ Counts model cfa.now report.now }
{
    report.text == cfa.text_len
        && report.points == cfa.points
        && report.cells as usize == cfa.cells.len()
        && report.edges as usize == cfa.edges.len()
        && report.model == model
}

/// Whether each number is below the count.
fn are_below(numbers: &[u32], count: usize) -> bool
    ensures { IsTrue result ↔ AllByRecursion (λ number. number < count) numbers.now }
{
    for number in numbers {
        if *number as usize >= count {
            return false;
        }
    }
    true
}

/// Whether each predicate is an expression over the cells.
fn are_exprs(preds: &[Expr], cells: &[Cell]) -> bool
    ensures { IsTrue result ↔ AllByRecursion (IsExpr cells.now) preds.now }
{
    for pred in preds {
        if !is_expr(pred, cells) {
            return false;
        }
    }
    true
}

/// Whether the path's edges are there.
fn is_path(path: &Path, cfa: &Cfa) -> bool
    ensures { IsTrue result ↔ IsPathOf cfa.now path.now }
{
    are_below(path.edges.as_slice(), cfa.edges.len())
}

/// Whether the elements are shaped for the automaton.
fn are_elems(elems: &Seq<Elem>, cfa: &Cfa) -> bool
    ensures { IsTrue result ↔ AreShaped cfa.now elems.now }
{
    for elem in elems {
        if !is_elem(elem, cfa) {
            return false;
        }
    }
    true
}

/// Whether this is so of those of each entry.
fn are_listed(entries: &Seq<Listed>, cfa: &Cfa) -> bool
    ensures { IsTrue result ↔ AllByRecursion (IsListedIn cfa.now) entries.now }
{
    for entry in entries {
        if !are_elems(&entry.elems, cfa) {
            return false;
        }
    }
    true
}

/// Whether the precision's cells are there, and its predicates are expressions over them.
fn is_precision(precision: &Precision, cfa: &Cfa) -> bool
    ensures { IsTrue result ↔ IsPrecision cfa.now precision.now }
{
    are_below(precision.tracked.as_slice(), cfa.cells.len())
        && are_exprs(precision.preds.as_slice(), cfa.cells.as_slice())
}

/// Whether this is so of each precision.
fn are_precisions(precisions: &Seq<Precision>, cfa: &Cfa) -> bool
    ensures { IsTrue result ↔ AllByRecursion (IsPrecision cfa.now) precisions.now }
{
    for precision in precisions {
        if !is_precision(precision, cfa) {
            return false;
        }
    }
    true
}

/// Whether the path and the precisions of the refinement are so.
fn is_refined(refined: &Refined, cfa: &Cfa) -> bool
    ensures { IsTrue result ↔ IsRefinedIn cfa.now refined.now }
{
    is_path(&refined.path, cfa) && are_precisions(&refined.precisions, cfa)
}

/// Whether this is so of each refinement.
fn are_refined(history: &Seq<Refined>, cfa: &Cfa) -> bool
    ensures { IsTrue result ↔ AllByRecursion (IsRefinedIn cfa.now) history.now }
{
    for refined in history {
        if !is_refined(refined, cfa) {
            return false;
        }
    }
    true
}

/// Whether what the body names is there.
pub(crate) fn is_body_in(body: &Body, cfa: &Cfa) -> bool
    ensures { IsTrue result ↔ IsBodyIn cfa.now body.now }
{
    match body {
        Body::True { entries } => are_listed(entries, cfa),
        Body::False { .. } => true,
        Body::Turns { .. } => true,
        Body::Rounds { path, history } => is_path(path, cfa) && are_refined(history, cfa),
        Body::Learnt { path, .. } => is_path(path, cfa),
        Body::Gates { path, .. } => is_path(path, cfa),
        Body::NoNew { path, precisions } => {
            is_path(path, cfa) && are_precisions(precisions, cfa)
        }
        Body::Proof { entries, .. } => are_listed(entries, cfa),
    }
}
