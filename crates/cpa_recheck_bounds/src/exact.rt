//! Values of expressions that bounds of cells determine, by `specs/Exact.antt`. Proved with
//! `proofs/Exactly.antt`.

ghost use Rattle.std.specs.Prelude.{◌≡◌, ℕ, ℤ, List, None, Some, IfOk, IfSome, IsTrue, pos, ◌+◌};
ghost use Rattle.std.specs.Prelude.{◌<◌, ◌++◌, ◌∷◌, [], slice_get, length, if◌then◌else◌, false};
ghost use Rattle.std.specs.Prelude.{OnOk};
ghost use Rattle.cpa_expr.specs.Values.{is_nonzero, value_of};
ghost use Rattle.cpa_model.specs.declared.program.Cell.{Cell as ACell};
ghost use Rattle.cpa_model.specs.Steps.{StepsStore};
ghost use Rattle.cpa_interval_bounds.specs.ExpressionBounds.{LieWithin};
ghost use Rattle.cpa_recheck_bounds.specs.Exact.{AreFixedBelow, HasIfThere, cut_written, has_one};
ghost use Rattle.cpa_recheck_bounds.specs.Exact.{is_fixed, lows_of};

use cpa_expr::{CmpOp, Expr, Store, may_read, value, value_depends_on_what_is_read};
use cpa_interval_acts::cut_cell;
use cpa_interval_bounds::{Bounds, KnownBounds};
use cpa_model::{Act, Seq};
use std::alloc::{AllocError, Global};

/// A cell, and the value that it has.
#[derive(Clone, Copy)]
pub(crate) struct Written {
    pub cell: u32,
    pub value: i128,
}

/// The bounds of a cell that is there.
fn own_at(all: &KnownBounds, place: usize) -> Bounds
    requires { place < length all.now.each }
    ensures { slice_get all.now.each place ≡ Some result }
{
    match all.at(place) {
        Some(own) => own,
        None => Bounds::only(0),
    }
}

/// Adds the lower end.
fn push_low(values: &mut Seq<i128>, own: &Bounds) -> Result<(), AllocError>
    ensures { OnOk result (values.new ≡ values.old ++ own.now.lo ∷ []) }
{
    values.push(own.lo)
}

/// The lower ends, as a store.
pub(crate) fn lows_of(alloc: Global, all: &KnownBounds) -> Result<Store, AllocError>
    ensures { IfOk result (λ store. store.values ≡ lows_of all.now.each) }
{
    let mut values = Seq::new(alloc);
    for place in 0..all.count() {
        let own = own_at(all, place);
        push_low(&mut values, &own)?;
    }
    Ok(Store { values })
}

/// Whether the cell has one number, if it is there.
fn has_one(all: &KnownBounds, cell: u32) -> bool
    ensures { result ≡ has_one (slice_get all.now.each cell) }
{
    match all.at(cell as usize) {
        None => true,
        Some(own) => own.lo == own.hi,
    }
}

/// Whether the expression does not read the cell, or it has one number.
fn is_fixed(e: &Expr, all: &KnownBounds, cell: u32) -> bool
    ensures { result ≡ is_fixed e.now all.now.each cell }
{
    !may_read(e, cell) || has_one(all, cell)
}

/// Whether each cell that the expression may read has one number.
pub(crate) fn are_fixed(e: &Expr, all: &KnownBounds) -> bool
    ensures { IsTrue result → AreFixedBelow e.now all.now.each (length all.now.each) }
{
    let count = all.count();
    if count > u32::MAX as usize {
        return false;
    }
    for cell in 0..count {
        if !is_fixed(e, all, cell as u32) {
            return false;
        }
    }
    true
}

/// The value that the expression has on each store within the bounds, where they determine it.
fn exact_value(e: &Expr, all: &KnownBounds, lows: &Store) -> Option<i128>
    ensures { (store : List ℤ) → LieWithin all.now.each store → lows.now.values ≡ lows_of all.now.each
        → IfSome result (λ v. value_of e.now store ≡ Some v) }
{
    value_depends_on_what_is_read();
    if are_fixed(e, all) {
        value(e, lows)
    } else {
        None
    }
}

/// The cell at this place behind the base, and its value.
fn written_at(base: u32, index: Option<i128>, own: Option<i128>) -> Option<Written>
    ensures { (place : ℕ) (w : ℤ) → IfSome index (λ i. i ≡ pos place) → IfSome own (λ v. v ≡ w)
        → IfSome result (λ x. (x.cell ≡ base + place) × (x.value ≡ w)) }
{
    match (index, own) {
        (Some(index), Some(own)) => {
            let place = u32::try_from(index).ok()?;
            let cell = base.checked_add(place)?;
            Some(Written { cell, value: own })
        }
        _ => None,
    }
}

/// The cell that the act writes, and the value that it gives it, where the bounds determine both.
pub(crate) fn written_by(act: &Act, all: &KnownBounds, lows: &Store) -> Option<Written>
    ensures { (cells : List ACell) (old new : List ℤ) → LieWithin all.now.each old
        → lows.now.values ≡ lows_of all.now.each → StepsStore cells act.now old new
        → IfSome result (HasIfThere new) }
{
    match act {
        Act::Assign {
            base,
            index,
            value,
            ..
        } => written_at(
            *base,
            exact_value(index, all, lows),
            exact_value(value, all, lows),
        ),
        _ => None,
    }
}

/// Whether this is the value of a test that does not come out so.
fn is_other(value: Option<i128>, holds: bool) -> bool
    ensures { (v : ℤ) → IfSome value (λ own. own ≡ v) → is_nonzero v ≡ holds → result ≡ false }
{
    match value {
        Some(value) => (value != 0) != holds,
        None => false,
    }
}

/// Whether the bounds determine that the test of the act does not come out so: then it leads
/// nowhere.
pub(crate) fn is_refuted(act: &Act, all: &KnownBounds, lows: &Store) -> bool
    ensures { (cells : List ACell) (old new : List ℤ) → LieWithin all.now.each old
        → lows.now.values ≡ lows_of all.now.each → StepsStore cells act.now old new
        → result ≡ false }
{
    match act {
        Act::Assume { test, holds } => is_other(exact_value(test, all, lows), *holds),
        _ => false,
    }
}

/// Leaves the cell the value that it has.
pub(crate) fn cut_written(
    all: &mut KnownBounds,
    written: Option<Written>,
) -> Result<bool, AllocError>
    ensures cells { all.new.cells ≡ all.old.cells }
    ensures each { IfOk result (λ is. (if is then Some all.new.each else None)
        ≡ cut_written written all.old.each) }
{
    match written {
        None => Ok(true),
        Some(own) => cut_cell(CmpOp::Eq, own.cell, Bounds::only(own.value), all),
    }
}
