//! The expressions that a path carries from its tests back to its start, by specs/Carried.
//! Proved with `proofs/CarriedLemmas.antt`.

ghost use Rattle.std.specs.Prelude.{◌≡◌, ◌<◌, ◌==◌, ◌&&◌, not, if◌then◌else◌, length, IfOk, OnOk};
ghost use Rattle.std.specs.List.{AllByRecursion, filter, list_any};
ghost use Rattle.cpa_expr.specs.declared.tree.Expr.{out-Expr};
ghost use Rattle.cpa_expr.specs.Cells.{is_zero, replaced};
ghost use Rattle.cpa_expr.specs.Equality.{same_expr};
ghost use Rattle.cpa_folds.specs.Along.{acts_along};
ghost use Rattle.cpa_folds.specs.Carried.{carried, carried_along, carried_over, reads_among};
ghost use Rattle.cpa_folds.specs.Carried.{reading, without, with_new, with_both, with_small};
ghost use Rattle.cpa_folds.specs.Carried.{with_replaced, is_small, is_scalar};

use crate::reading::{reads_among, reads_some};
use cpa_expr::{copy, height, replace_cell, same_expr, size};
use cpa_ints::{Boxed, IntType};
use cpa_model::{Act, Cfa, Expr, Path, Seq};
use std::alloc::{AllocError, Global};
use std::mem;

/// The most nodes of what becomes of a carried expression.
pub const MAX_CARRIED_SIZE: u64 = 200;

/// The greatest height of what becomes of a carried expression.
pub const MAX_CARRIED_HEIGHT: u32 = 100;

/// The expressions that speak of the store at a place of a path, and all that came so far.
#[derive(Drop)]
pub(crate) struct CarriedLists {
    pub(crate) present: Seq<Expr>,
    pub(crate) all: Seq<Expr>,
}

/// The expressions that the path carries, in the order in which they come: from the last edge to
/// the first, each test, and what becomes of it where a cell that it reads has just been written.
/// An analysis that tracks their truth sees how the tests along the path hang together.
///
/// Each edge looks at the expressions that are present, and each that comes is compared with those
/// that are there: it takes time in the edges, times the expressions, times their sizes, and for
/// each that comes, in all of them.
pub fn carried(alloc: Global, cfa: &Cfa, path: &Path) -> Result<Vec<Expr>, AllocError>
    requires path { AllByRecursion (λ edge. edge < length cfa.now.edges) path.now.edges }
    ensures { IfOk result (λ es. es.items ≡ carried cfa.now path.now) }
{
    let carried = carried_along(alloc, cfa, path.edges.as_slice())?;
    let CarriedLists { all, .. } = carried;
    Ok(all.into_vec())
}

/// What is carried along the edges.
fn carried_along(alloc: Global, cfa: &Cfa, edges: &[u32]) -> Result<CarriedLists, AllocError>
    requires edges { AllByRecursion (λ edge. edge < length cfa.now.edges) edges.now }
    ensures { IfOk result (λ c. c ≡ carried_along (acts_along cfa.now edges.now)) }
{
    let mut lists = CarriedLists {
        present: Seq::new(alloc),
        all: Seq::new(alloc),
    };
    let mut place = edges.len();
    while 0 < place {
        place -= 1;
        let edge = cfa.edge(edges[place]);
        carry(alloc, &mut lists, &edge.act)?;
    }
    Ok(lists)
}

/// Carries what is there over the act.
fn carry(alloc: Global, lists: &mut CarriedLists, act: &Act) -> Result<(), AllocError>
    ensures { OnOk result (lists.new ≡ carried_over act.now lists.old) }
{
    match act {
        Act::Assume { test, .. } => add(alloc, lists, test),
        Act::Assign {
            base,
            len,
            index,
            value,
        } => carry_over_write(alloc, lists, *base, *len, index, value),
        Act::Input { cell } => {
            forget(alloc, lists, *cell, 1);
            Ok(())
        }
        Act::Skip | Act::Call { .. } | Act::Return { .. } => Ok(()),
    }
}

/// Carries what is there over a write.
fn carry_over_write(
    alloc: Global,
    lists: &mut CarriedLists,
    base: u32,
    len: u32,
    index: &Expr,
    value: &Expr,
) -> Result<(), AllocError>
    ensures { OnOk result
        (lists.new ≡ carried_over (Act.Assign base len index.now value.now) lists.old) }
{
    if is_scalar(len, index) {
        let reading = take_reading(alloc, lists, base)?;
        add_replaced(alloc, lists, base, value, reading.as_slice())
    } else {
        forget(alloc, lists, base, len);
        Ok(())
    }
}

/// Whether a write or a read is of a cell that stands for itself: of one cell, at the number 0 of
/// type int.
pub(crate) fn is_scalar(len: u32, index: &Expr) -> bool
    ensures { result ≡ is_scalar len index.now }
{
    match index {
        Expr::Const {
            ty: IntType::I32,
            value: 0,
        } => len == 1,
        _ => false,
    }
}

/// Takes the present expressions away that read one of `len` cells from `base` on. Takes no memory.
fn forget(alloc: Global, lists: &mut CarriedLists, base: u32, len: u32)
    ensures { lists.new ≡ without base len lists.old }
{
    let mut present = mem::replace(&mut lists.present, Seq::new(alloc)).into_vec();
    keep_others(&mut present, base, len);
    lists.present = Seq::from_vec(present);
}

/// Leaves those that read none of `len` cells from `base` on.
fn keep_others(es: &mut Vec<Expr>, base: u32, len: u32)
    ensures { es.new.items ≡ filter (λ e. not (reads_among base len e)) es.old.items }
{
    es.retain(|e| !reads_among(e, base, len));
}

/// Takes the present expressions out that read the cell.
fn take_reading(alloc: Global, lists: &mut CarriedLists, cell: u32) -> Result<Vec<Expr>, AllocError>
    ensures taken { IfOk result (λ es. es.items ≡ reading cell 1 lists.old) }
    ensures left { OnOk result (lists.new ≡ without cell 1 lists.old) }
{
    let present = mem::replace(&mut lists.present, Seq::new(alloc)).into_vec();
    let (reading, others) = parted(alloc, present, cell)?;
    lists.present = Seq::from_vec(others);
    Ok(reading)
}

/// The expressions that read the cell, and the others.
fn parted(alloc: Global, es: Vec<Expr>, cell: u32) -> Result<(Vec<Expr>, Vec<Expr>), AllocError>
    ensures reading { IfOk result (λ parts. parts.0.items ≡ filter (reads_among cell 1) es.items) }
    ensures others { IfOk result (λ parts. parts.1.items
        ≡ filter (λ e. not (reads_among cell 1 e)) es.items) }
{
    es.into_iter().partition(alloc, |e| reads_among(e, cell, 1))
}

/// Adds each expression with the value in place of the cell, one after the other.
fn add_replaced(
    alloc: Global,
    lists: &mut CarriedLists,
    cell: u32,
    value: &Expr,
    es: &[Expr],
) -> Result<(), AllocError>
    ensures { OnOk result (lists.new ≡ with_replaced cell value.now es.now lists.old) }
{
    for e in es {
        let became = Boxed::new(alloc, replace_cell(alloc, e, cell, value)?)?;
        add_small(alloc, lists, became.get())?;
    }
    Ok(())
}

/// Adds the expression, if it is within the bounds.
fn add_small(alloc: Global, lists: &mut CarriedLists, e: &Expr) -> Result<(), AllocError>
    ensures { OnOk result (lists.new ≡ with_small e.now lists.old) }
{
    if size(e) <= MAX_CARRIED_SIZE && height(e) <= MAX_CARRIED_HEIGHT {
        add(alloc, lists, e)?;
    }
    Ok(())
}

/// Adds the expression to both lists, if it reads a cell.
fn add(alloc: Global, lists: &mut CarriedLists, e: &Expr) -> Result<(), AllocError>
    ensures { OnOk result (lists.new ≡ with_both e.now lists.old) }
{
    if reads_some(e) {
        push_new(alloc, &mut lists.present, e)?;
        push_new(alloc, &mut lists.all, e)?;
    }
    Ok(())
}

/// Adds a copy of the expression at the end, if the list does not hold it.
fn push_new(alloc: Global, es: &mut Seq<Expr>, e: &Expr) -> Result<(), AllocError>
    ensures { OnOk result (es.new ≡ with_new e.now es.old) }
{
    if !holds(es.as_slice(), e) {
        es.push(copy(alloc, e)?)?;
    }
    Ok(())
}

/// Whether the list holds the expression.
fn holds(es: &[Expr], e: &Expr) -> bool
    ensures { result ≡ list_any (same_expr e.now) es.now }
{
    es.iter().any(|other| same_expr(e, other))
}
