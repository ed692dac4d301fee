//! The truths of an element that share a cell with a predicate, or with the act in front of it. A
//! predicate's truth that follows from these follows from the whole element, by a question that is
//! shorter, and the same for many elements.

ghost use Rattle.std.specs.Prelude.{ℕ, ℤ, List, IsTrue, IfOk};
ghost use Rattle.cpa_model.specs.declared.program.Cell.{Cell as ACell};
ghost use Rattle.cpa_model.specs.Facts.{IsElem};
ghost use Rattle.cpa_form_rules.specs.Runs.{StoreHolds};
ghost use Rattle.cpa_predicate.specs.Steps.{is_truth, truths};

use cpa_expr::{Parts, parts_of};
use cpa_model::{Act, Elem, Expr, Fact, Seq, copy_fact};
use cpa_query::mark_reads;
use std::alloc::{AllocError, Global};

/// Whether one of `len` cells from `base` on is marked.
fn some_marked(marks: &[bool], base: u32, len: u32) -> bool {
    for cell in base..base.saturating_add(len) {
        if let Some(true) = marks.get(cell as usize) {
            return true;
        }
    }
    false
}

/// Whether the node itself reads a marked cell.
fn reads_marked(e: &Expr, marks: &[bool]) -> bool {
    match e {
        Expr::Read { base, len, .. } => some_marked(marks, *base, *len),
        _ => false,
    }
}

/// Whether the expression reads a marked cell.
fn is_near(e: &Expr, marks: &[bool]) -> bool {
    if reads_marked(e, marks) {
        return true;
    }
    match parts_of(e) {
        Parts::None => false,
        Parts::One(part) => is_near(part, marks),
        Parts::Two(left, right) => is_near(left, marks) || is_near(right, marks),
        Parts::Three(test, yes, no) => {
            is_near(test, marks) || is_near(yes, marks) || is_near(no, marks)
        }
    }
}

/// Marks what the act reads, where it has to do with what is marked.
fn mark_act(marks: &mut [bool], act: &Act) {
    match act {
        Act::Assign {
            base,
            len,
            index,
            value,
        } => {
            if some_marked(marks, *base, *len) {
                mark_reads(marks, index);
                mark_reads(marks, value);
            }
        }
        Act::Assume { test, .. } => {
            if is_near(test, marks) {
                mark_reads(marks, test);
            }
        }
        _ => {}
    }
}

/// Whether the fact is a truth that shares a marked cell.
fn is_near_truth(fact: &Fact, marks: &[bool]) -> bool
    ensures { IsTrue result → IsTrue (is_truth fact.now) }
{
    match fact {
        Fact::Truth { expr, .. } => is_near(expr, marks),
        _ => false,
    }
}

/// The truths of the element that share a marked cell.
fn marked_truths(alloc: Global, elem: &Elem, marks: &[bool]) -> Result<Elem, AllocError>
    ensures shaped { IfOk result (λ near. (cells : List ACell) (points : ℕ)
        → IsElem cells points elem.now → IsElem cells points near) }
    ensures weaker { IfOk result (λ near. (values : List ℤ)
        → StoreHolds values (truths elem.now) → StoreHolds values near) }
{
    let mut facts = Seq::new(alloc);
    for fact in &elem.facts {
        if is_near_truth(fact, marks) {
            facts.push(copy_fact(alloc, fact)?)?;
        }
    }
    Elem::new(alloc, facts)
}

/// Marks for so many cells, set where the predicate reads them, or an act that may change it.
pub(crate) fn near_cells(
    alloc: Global,
    cells: usize,
    act: &Act,
    p: &Expr,
) -> Result<Vec<bool>, AllocError> {
    let mut marks = vec![in alloc; false; cells]?;
    mark_reads(&mut marks, p);
    mark_act(&mut marks, act);
    Ok(marks)
}

/// The truths of the element that share one of so many cells with the predicate, or with an act
/// that may change it.
pub(crate) fn near_truths(
    alloc: Global,
    cells: usize,
    elem: &Elem,
    act: &Act,
    p: &Expr,
) -> Result<Elem, AllocError>
    ensures shaped { IfOk result (λ near. (cells : List ACell) (points : ℕ)
        → IsElem cells points elem.now → IsElem cells points near) }
    ensures weaker { IfOk result (λ near. (values : List ℤ)
        → StoreHolds values (truths elem.now) → StoreHolds values near) }
{
    let marks = near_cells(alloc, cells, act, p)?;
    let near = marked_truths(alloc, elem, &marks)?;
    Ok(near)
}
