//! How many edges of a path come before the pivot, by `specs/Pivots.antt`, in time linear in the
//! path, its expressions and the cells.

ghost use Rattle.std.specs.Prelude.{◌≡◌, ◌<◌, ◌≤◌, ◌&&◌, ◌||◌, ℕ, nat_lt, not, drop, length};
ghost use Rattle.std.specs.Prelude.{false, if◌then◌else◌, IfOk, OnOk};
ghost use Rattle.std.specs.List.{AllByRecursion, list_all, list_any, range_with_len};
ghost use Rattle.cpa_expr.specs.declared.tree.Expr.{out-Expr};
ghost use Rattle.cpa_expr.specs.Cells.{is_within, is_zero, may_read};
ghost use Rattle.cpa_iface.specs.Meanings.{IsPathOf};
ghost use Rattle.cpa_query.specs.Queries.{is_marked};
ghost use Rattle.cpa_reached.specs.Members.{is_in};
ghost use Rattle.cpa_folds.specs.Along.{acts_along};
ghost use Rattle.cpa_engine_rounds.specs.Pivots.{keeps_newly, new_of, reads, sets};
ghost use Rattle.cpa_engine_rounds.specs.Pivots.{is_set_first, writes_some, before_write};
ghost use Rattle.cpa_engine_rounds.specs.Pivots.{acts_before};

use crate::marks::{is_marked, mark_all, mark_all_unless, mark_unless};
use cpa_iface::Precision;
use cpa_model::{Act, Cfa, Expr, IntType, Path};
use cpa_query::{mark_cells, mark_reads};
use std::alloc::{AllocError, Global};

/// Marks the cells that the predicates may read.
fn mark_preds(marks: &mut [bool], preds: &[Expr])
    ensures length { length marks.new ≡ length marks.old }
    ensures marks { (c : ℕ) → is_marked marks.new c ≡ (is_marked marks.old c
        || (list_any (λ e. may_read e c) preds.now && nat_lt c (length marks.old))) }
{
    for pred in preds {
        mark_reads(marks, pred);
    }
}

/// The predicates behind so many.
fn behind(preds: &[Expr], count: usize) -> &[Expr]
    ensures { result.now ≡ drop count preds.now }
{
    if count < preds.len() {
        &preds[count..]
    } else {
        &[]
    }
}

/// A mark for each cell that the precision tracks.
fn tracked(alloc: Global, cells: usize, precision: &Precision) -> Result<Vec<bool>, AllocError>
    ensures marks { IfOk result (λ marks. (c : ℕ) → is_marked marks.items c
        ≡ (is_in c precision.now.tracked && nat_lt c cells)) }
{
    let mut marks = vec![in alloc; false; cells]?;
    mark_tracked(&mut marks, precision);
    Ok(marks)
}

/// Sets the marks, none of which is set, for the cells that the precision tracks.
fn mark_tracked(marks: &mut [bool], precision: &Precision)
    requires { (c : ℕ) → is_marked marks.old c ≡ false }
    ensures { (c : ℕ) → is_marked marks.new c
        ≡ (is_in c precision.now.tracked && nat_lt c (length marks.old)) }
{
    mark_all(marks, precision.tracked.as_slice());
}

/// Marks the cells that the one precision keeps and the other does not.
fn mark_newly(
    alloc: Global,
    marks: &mut [bool],
    before: &Precision,
    after: &Precision,
) -> Result<(), AllocError>
    ensures length { length marks.new ≡ length marks.old }
    ensures marks { (c : ℕ) → OnOk result (is_marked marks.new c ≡ (is_marked marks.old c
        || (keeps_newly before.now after.now c && nat_lt c (length marks.old)))) }
{
    let known = tracked(alloc, marks.len(), before)?;
    mark_all_unless(marks, &known, after.tracked.as_slice());
    mark_preds(marks, behind(after.preds.as_slice(), before.preds.len()));
    Ok(())
}

/// Sets the marks, none of which is set, for the cells that are newly kept.
fn mark_new(
    alloc: Global,
    marks: &mut [bool],
    old: &[Precision],
    new: &[Precision],
) -> Result<(), AllocError>
    requires { (c : ℕ) → is_marked marks.old c ≡ false }
    ensures length { length marks.new ≡ length marks.old }
    ensures marks { (c : ℕ) → OnOk result (is_marked marks.new c
        ≡ new_of (length marks.old) old.now new.now c) }
{
    for place in 0..old.len().min(new.len()) {
        mark_newly(alloc, marks, &old[place], &new[place])?;
    }
    Ok(())
}

/// A mark for each cell that is newly kept.
fn new_cells(
    alloc: Global,
    cells: usize,
    old: &[Precision],
    new: &[Precision],
) -> Result<Vec<bool>, AllocError>
    ensures length { IfOk result (λ marks. length marks.items ≡ cells) }
    ensures marks { IfOk result (λ marks. (c : ℕ) → is_marked marks.items c
        ≡ new_of cells old.now new.now c) }
{
    let mut marks = vec![in alloc; false; cells]?;
    mark_new(alloc, &mut marks, old, new)?;
    Ok(marks)
}

/// Marks the cells of an array of more than one, as far as they are there.
fn mark_array(marks: &mut [bool], base: u32, len: u32)
    ensures length { length marks.new ≡ length marks.old }
    ensures marks { (c : ℕ) → is_marked marks.new c ≡ (is_marked marks.old c
        || ((nat_lt 1 len && is_within base len c) && nat_lt c (length marks.old))) }
{
    if 1 < len {
        mark_cells(marks, base, len);
    }
}

/// Marks the cells that the act may read.
fn mark_act(marks: &mut [bool], act: &Act)
    ensures length { length marks.new ≡ length marks.old }
    ensures marks { (c : ℕ) → is_marked marks.new c
        ≡ (is_marked marks.old c || (reads act.now c && nat_lt c (length marks.old))) }
{
    match act {
        Act::Assign {
            base,
            len,
            index,
            value,
        } => {
            mark_reads(marks, index);
            mark_reads(marks, value);
            mark_array(marks, *base, *len);
        }
        Act::Assume { test, .. } => mark_reads(marks, test),
        _ => {}
    }
}

/// Whether the expression is the number 0 of type `int`, the index of a scalar.
fn is_zero(e: &Expr) -> bool
    ensures { result ≡ is_zero (out-Expr e.now) }
{
    match e {
        Expr::Const { ty, value } => *ty == IntType::I32 && *value == 0,
        _ => false,
    }
}

/// Marks the cell that the act sets, unless it was read.
fn mark_set(marks: &mut [bool], read: &[bool], act: &Act)
    ensures length { length marks.new ≡ length marks.old }
    ensures marks { (c : ℕ) → is_marked marks.new c ≡ (is_marked marks.old c
        || ((sets act.now c && not (is_marked read.now c)) && nat_lt c (length marks.old))) }
{
    match act {
        Act::Assign {
            base,
            len,
            index,
            ..
        } => {
            if *len == 1 && is_zero(index) {
                mark_unless(marks, read, *base);
            }
        }
        Act::Input { cell } => mark_unless(marks, read, *cell),
        _ => {}
    }
}

/// Sets the marks, none of which is set, for the cells that are read along the path, and for those
/// that are set before they are read.
fn mark_set_first(read: &mut [bool], set: &mut [bool], cfa: &Cfa, path: &[u32])
    requires path { AllByRecursion (λ edge. edge < length cfa.now.edges) path.now }
    requires read_long { length read.old ≡ length cfa.now.cells }
    requires set_long { length set.old ≡ length cfa.now.cells }
    requires none_read { (c : ℕ) → is_marked read.old c ≡ false }
    requires none_set { (c : ℕ) → is_marked set.old c ≡ false }
    ensures length { length set.new ≡ length set.old }
    ensures marks { (c : ℕ) → is_marked set.new c
        ≡ (is_set_first (acts_along cfa.now path.now) c && nat_lt c (length cfa.now.cells)) }
{
    for number in path {
        let act = &cfa.edge(*number).act;
        mark_act(read, act);
        mark_set(set, read, act);
    }
}

/// A mark for each cell that is set before it is read.
fn set_first(alloc: Global, cfa: &Cfa, path: &[u32]) -> Result<Vec<bool>, AllocError>
    requires { AllByRecursion (λ edge. edge < length cfa.now.edges) path.now }
    ensures { IfOk result (λ marks. (c : ℕ) → is_marked marks.items c
        ≡ (is_set_first (acts_along cfa.now path.now) c && nat_lt c (length cfa.now.cells))) }
{
    let mut read = vec![in alloc; false; cfa.cells.len()]?;
    let mut set = vec![in alloc; false; cfa.cells.len()]?;
    mark_set_first(&mut read, &mut set, cfa, path);
    Ok(set)
}

/// Whether each cell of the one set is one of the other.
fn are_all(marks: &[bool], others: &[bool]) -> bool
    ensures { result ≡ list_all (λ c. not (is_marked marks.now c) || is_marked others.now c)
        (range_with_len 0 (length marks.now)) }
{
    (0..marks.len()).all(|cell| !is_marked(marks, cell) || is_marked(others, cell))
}

/// Whether one of `len` cells from `base` on is marked.
fn some_marked(marks: &[bool], base: u32, len: u32) -> bool
    ensures { result ≡ list_any (is_marked marks.now) (range_with_len base len) }
{
    (base as usize..base as usize + len as usize).any(|cell| is_marked(marks, cell))
}

/// Whether the act may write a marked cell.
fn writes_some(marks: &[bool], act: &Act) -> bool
    ensures { result ≡ writes_some (is_marked marks.now) act.now }
{
    match act {
        Act::Assign { base, len, .. } => some_marked(marks, *base, *len),
        Act::Input { cell } => is_marked(marks, *cell as usize),
        _ => false,
    }
}

/// How many edges come before the first that may write a marked cell.
fn before_write(marks: &[bool], cfa: &Cfa, path: &[u32]) -> usize
    requires { AllByRecursion (λ edge. edge < length cfa.now.edges) path.now }
    ensures { result ≡ before_write (is_marked marks.now) (acts_along cfa.now path.now) }
{
    for place in 0..path.len() {
        if writes_some(marks, &cfa.edge(path[place]).act) {
            return place;
        }
    }
    path.len()
}

/// The place of the first write, or none where it is of no use.
fn chosen(is_set_first: bool, place: usize, edges: usize) -> usize
    ensures place { result ≡ if is_set_first && nat_lt place edges then place else 0 }
    ensures within { result ≤ edges }
{
    if is_set_first && place < edges {
        place
    } else {
        0
    }
}

/// How many edges of the path come before the pivot, where precisions have grown.
pub fn pivot_place(
    alloc: Global,
    cfa: &Cfa,
    path: &Path,
    old: &[Precision],
    new: &[Precision],
) -> Result<usize, AllocError>
    requires { IsPathOf cfa.now path.now }
    ensures pivot { IfOk result (λ place. place ≡ acts_before (length cfa.now.cells)
        (new_of (length cfa.now.cells) old.now new.now) (acts_along cfa.now path.now.edges)) }
    ensures within { IfOk result (λ place. place ≤ length path.now.edges) }
{
    let edges = path.edges.as_slice();
    let news = new_cells(alloc, cfa.cells.len(), old, new)?;
    let set = set_first(alloc, cfa, edges)?;
    let place = before_write(&news, cfa, edges);
    Ok(chosen(are_all(&news, &set), place, edges.len()))
}
