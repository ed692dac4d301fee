//! The bounds that cells have behind an act, where an element holds before it. Proved with
//! `proofs/Followed.antt`.

ghost use Rattle.std.specs.Prelude.{◌≡◌, ◌<◌, None, Some, map, length, slice_get, IfOk, IsTrue};
ghost use Rattle.std.specs.Prelude.{if◌then◌else◌};
ghost use Rattle.cpa_model.specs.Acts.{IsActOf};
ghost use Rattle.cpa_model.specs.Facts.{IsElem};
ghost use Rattle.cpa_interval_acts.specs.Cells.{ranges_of};
ghost use Rattle.cpa_interval_bounds.specs.Bounds.{only};
ghost use Rattle.cpa_recheck_obligations.specs.Forms.{entry_at};
ghost use Rattle.cpa_recheck_bounds.specs.Cutting.{cut_by, cut_by_all, cut_by_test, cut_scalar};
ghost use Rattle.cpa_recheck_bounds.specs.Cutting.{stepped, tested};
ghost use Rattle.cpa_recheck_bounds.specs.Saying.{AreFoundBehind};

use crate::exact::{Written, cut_written, is_refuted, lows_of, written_by};
use crate::saying::are_said;
use crate::standing::{is_barred, standing};
use cpa_expr::CmpOp;
use cpa_folds::{Scalar, read_of};
use cpa_interval_acts::{bounds_follow_acts, cut_cell, do_act};
use cpa_interval_bounds::{Bounds, KnownBounds};
use cpa_ints::wrap_keeps_the_range;
use cpa_model::{Act, Cell, Cfa, Elem, Fact, Facts};
use std::alloc::{AllocError, Global};

/// Leaves of the bounds of a cell what the fact says of it, and says whether some number is left.
fn cut_by(all: &mut KnownBounds, fact: &Fact) -> Result<bool, AllocError>
    ensures cells { all.new.cells ≡ all.old.cells }
    ensures each { IfOk result (λ is. (if is then Some all.new.each else None)
        ≡ cut_by fact.now all.old.each) }
{
    match fact {
        Fact::Equals { cell, value } => cut_cell(CmpOp::Eq, *cell, Bounds::only(*value), all),
        Fact::Within { cell, lo, hi } => {
            cut_cell(CmpOp::Eq, *cell, Bounds { lo: *lo, hi: *hi }, all)
        }
        _ => Ok(true),
    }
}

/// The same of all facts.
fn cut_by_all(all: &mut KnownBounds, facts: &Facts) -> Result<bool, AllocError>
    ensures cells { all.new.cells ≡ all.old.cells }
    ensures each { IfOk result (λ is. (if is then Some all.new.each else None)
        ≡ cut_by_all facts.now all.old.each) }
{
    for fact in facts {
        if !cut_by(all, fact)? {
            return Ok(false);
        }
    }
    Ok(true)
}

/// Leaves of a scalar the numbers that are nonzero, or zero.
fn cut_scalar(all: &mut KnownBounds, read: Option<Scalar>, holds: bool) -> Result<bool, AllocError>
    ensures cells { all.new.cells ≡ all.old.cells }
    ensures each { IfOk result (λ is. (if is then Some all.new.each else None)
        ≡ cut_scalar holds read all.old.each) }
{
    match read {
        None => Ok(true),
        Some(read) => {
            if holds {
                cut_cell(CmpOp::Ne, read.cell, Bounds::only(0), all)
            } else {
                cut_cell(CmpOp::Eq, read.cell, Bounds::only(0), all)
            }
        }
    }
}

/// Leaves of the bounds what a test says that reads a scalar.
fn cut_by_test(all: &mut KnownBounds, act: &Act) -> Result<bool, AllocError>
    ensures cells { all.new.cells ≡ all.old.cells }
    ensures each { IfOk result (λ is. (if is then Some all.new.each else None)
        ≡ cut_by_test act.now all.old.each) }
{
    match act {
        Act::Assume { test, holds } => cut_scalar(all, read_of(test), *holds),
        _ => Ok(true),
    }
}

/// Leaves of the bounds what the facts say, and then what a test says; says whether some are left.
fn know(all: &mut KnownBounds, facts: &Facts, act: &Act) -> Result<bool, AllocError>
    ensures cells { all.new.cells ≡ all.old.cells }
    ensures each { IfOk result (λ is. (if is then Some all.new.each else None)
        ≡ tested facts.now act.now all.old.each) }
{
    if cut_by_all(all, facts)? {
        cut_by_test(all, act)
    } else {
        Ok(false)
    }
}

/// Makes of the bounds what the act does, and leaves the cell that is written its value.
fn step(act: &Act, written: Option<Written>, all: &mut KnownBounds) -> Result<bool, AllocError>
    ensures cells { all.new.cells ≡ all.old.cells }
    ensures each { IfOk result (λ is. (if is then Some all.new.each else None)
        ≡ stepped all.old.cells act.now written all.old.each) }
{
    if do_act(act, all)? {
        cut_written(all, written)
    } else {
        Ok(false)
    }
}

/// Whether the bounds show that each store to which the act leads from one on which the element
/// holds is one on which an entry of these numbers holds. At first they are those of the types.
pub(crate) fn are_found_behind(
    alloc: Global,
    cfa: &Cfa,
    elem: &Elem,
    act: &Act,
    all: &mut KnownBounds,
    entries: &[Elem],
    numbers: &[u32],
) -> Result<bool, AllocError>
    requires act { IsActOf cfa.now act.now }
    requires shaped { IsElem cfa.now.cells cfa.now.points elem.now }
    requires cells { all.old.cells ≡ cfa.now.cells }
    requires ranges { all.old.each ≡ ranges_of cfa.now.cells }
    ensures { IfOk result (λ is. IsTrue is → AreFoundBehind cfa.now elem.now act.now
        (map (entry_at entries.now) numbers.now)) }
{
    bounds_follow_acts();
    wrap_keeps_the_range();
    if is_barred(elem, act) {
        return Ok(true);
    }
    let is_known = know(all, &elem.facts, act)?;
    if !is_known {
        return Ok(true);
    }
    let lows = lows_of(alloc, all)?;
    if is_refuted(act, all, &lows) {
        return Ok(true);
    }
    let written = written_by(act, all, &lows);
    let is_done = step(act, written, all)?;
    if is_done {
        let left = standing(alloc, elem, act)?;
        let after = lows_of(alloc, all)?;
        Ok(are_said(all, &after, &left, entries, numbers))
    } else {
        Ok(true)
    }
}

/// The bounds of cells at the initial store: its values alone.
pub(crate) fn bounds_at_start<'a>(
    alloc: Global,
    cells: &'a [Cell],
) -> Result<KnownBounds<'a>, AllocError>
    ensures { IfOk result (λ all. all.each ≡ map (λ cell. only cell.start) cells.now) }
{
    let mut all = KnownBounds::of_types(alloc, cells);
    let mut place = cells.len();
    while 0 < place {
        place -= 1;
        all.put(place, start_of(cell_at(cells, place)))?;
    }
    Ok(all)
}

/// The cell at a place that is there.
fn cell_at(cells: &[Cell], place: usize) -> &Cell
    requires { place < length cells.now }
    ensures { slice_get cells.now place ≡ Some result.now }
{
    &cells[place]
}

/// The start alone.
fn start_of(cell: &Cell) -> Bounds
    ensures { result ≡ only cell.now.start }
{
    Bounds::only(cell.start)
}
