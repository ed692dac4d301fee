//! Which cells of a query its wanted expressions read, `reads` of specs/Queries.
//! Proved with `proofs/MarkLemmas.antt`.

ghost use Rattle.std.specs.Prelude.{◌≡◌, ◌||◌, ◌&&◌, ℕ, nat_lt, false, length, IfOk};
ghost use Rattle.std.specs.List.{list_any};
ghost use Rattle.cpa_expr.specs.declared.tree.Expr.{out-Expr};
ghost use Rattle.cpa_expr.specs.Cells.{is_within, reads_here, may_read};
ghost use Rattle.cpa_expr.specs.Shape.{parts};
ghost use Rattle.cpa_query.specs.Queries.{is_marked, wanted_reads, reads};

use crate::query::Query;
use cpa_expr::{Expr, Parts, parts_of};
use std::alloc::{AllocError, Global};

/// A mark for each cell, set where some wanted expression, evaluated or not, may read the cell. It
/// takes time in the sizes of the expressions and of the arrays that they read.
pub fn read_cells(alloc: Global, query: &Query) -> Result<Vec<bool>, AllocError>
    ensures { IfOk result (λ marks. marks.items ≡ reads query.now) }
{
    let mut marks = vec![in alloc; false; query.cells.len()]?;
    mark_query(&mut marks, query);
    Ok(marks)
}

/// Sets the marks, none of which is set, where a wanted expression reads the cell.
fn mark_query(marks: &mut [bool], query: &Query)
    requires long { length marks.old ≡ length query.now.cells }
    requires none { (cell : ℕ) → is_marked marks.old cell ≡ false }
    ensures { marks.new ≡ reads query.now }
{
    mark_wanted(marks, query.wanted.as_slice());
}

/// Marks the cells that these expressions may read.
fn mark_wanted(marks: &mut [bool], wanted: &[(Expr, bool)])
    ensures length { length marks.new ≡ length marks.old }
    ensures marks { (cell : ℕ) → is_marked marks.new cell
        ≡ (is_marked marks.old cell
        || (wanted_reads wanted.now cell && nat_lt cell (length marks.old))) }
{
    for one in wanted {
        mark_reads(marks, &one.0);
    }
}

/// Marks the cells that the expression may read, as far as they are there.
#[cycle(marking)]
pub fn mark_reads(marks: &mut [bool], e: &Expr)
    ensures length { length marks.new ≡ length marks.old }
    ensures marks { (cell : ℕ) → is_marked marks.new cell
        ≡ (is_marked marks.old cell || (may_read e.now cell && nat_lt cell (length marks.old))) }
{
    mark_node(marks, e);
    mark_parts(marks, e);
}

/// Marks the cells that the node itself may read.
fn mark_node(marks: &mut [bool], e: &Expr)
    ensures length { length marks.new ≡ length marks.old }
    ensures marks { (cell : ℕ) → is_marked marks.new cell
        ≡ (is_marked marks.old cell
        || (reads_here cell (out-Expr e.now) && nat_lt cell (length marks.old))) }
{
    if let Expr::Read { base, len, .. } = e {
        mark_cells(marks, *base, *len);
    }
}

/// Marks `len` cells from `base` on, as far as they are there.
pub fn mark_cells(marks: &mut [bool], base: u32, len: u32)
    ensures length { length marks.new ≡ length marks.old }
    ensures marks { (cell : ℕ) → is_marked marks.new cell
        ≡ (is_marked marks.old cell
        || (is_within base len cell && nat_lt cell (length marks.old))) }
{
    let first = (base as usize).min(marks.len());
    let end = (base as usize + len as usize).min(marks.len());
    marks[first..end].fill(true);
}

/// Marks the cells that the parts may read.
#[cycle(marking)]
fn mark_parts(marks: &mut [bool], e: &Expr)
    ensures length { length marks.new ≡ length marks.old }
    ensures marks { (cell : ℕ) → is_marked marks.new cell
        ≡ (is_marked marks.old cell
        || (list_any (λ part. may_read part cell) (parts (out-Expr e.now))
        && nat_lt cell (length marks.old))) }
{
    match parts_of(e) {
        Parts::None => {}
        Parts::One(part) => mark_reads(marks, part),
        Parts::Two(left, right) => {
            mark_reads(marks, left);
            mark_reads(marks, right);
        }
        Parts::Three(test, yes, no) => {
            mark_reads(marks, test);
            mark_reads(marks, yes);
            mark_reads(marks, no);
        }
    }
}
