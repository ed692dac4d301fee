//! What an act makes of the bounds of cells, by `specs/Acts.antt`. Each function changes the bounds
//! in place and says whether the act can be done; it fails only where memory runs out.

ghost use Rattle.std.specs.Prelude.{◌≡◌, ◌+◌, ◌<◌, ◌^◌, None, Some, slice_get, if◌then◌else◌};
ghost use Rattle.std.specs.Prelude.{IfOk, OnOk, option_map};
ghost use Rattle.cpa_interval_bounds.specs.Bounds.{range_of};
ghost use Rattle.cpa_interval_bounds.specs.ExpressionBounds.{bounds_of};
ghost use Rattle.cpa_interval_acts.specs.Acts.{joined_at, joined_from, stored, placed, written};
ghost use Rattle.cpa_interval_acts.specs.Acts.{indexed};
ghost use Rattle.cpa_interval_acts.specs.Acts.{assigned, freed, after_act};

use crate::cuts::{assume, cut_side};
use cpa_expr::{CmpOp, Expr};
use cpa_interval_bounds::{Bounds, KnownBounds, Places, bounds_of, named, places_of};
use cpa_model::{Act, Cell};
use std::alloc::AllocError;

/// What the act makes of the bounds, and whether it can be done.
pub fn do_act(act: &Act, all: &mut KnownBounds) -> Result<bool, AllocError>
    ensures cells { all.new.cells ≡ all.old.cells }
    ensures each { IfOk result (λ is. (if is then Some all.new.each else None)
        ≡ after_act all.old.cells act.now all.old.each) }
{
    match act {
        Act::Assign {
            base,
            len,
            index,
            value,
        } => assign(*base, *len, index, value, all),
        Act::Assume { test, holds } => assume(test, *holds, all),
        Act::Input { cell } => {
            free(*cell, all)?;
            Ok(true)
        }
        _ => Ok(true),
    }
}

/// A write.
fn assign(
    base: u32,
    len: u32,
    index: &Expr,
    value: &Expr,
    all: &mut KnownBounds,
) -> Result<bool, AllocError>
    ensures cells { all.new.cells ≡ all.old.cells }
    ensures each { IfOk result (λ is. (if is then Some all.new.each else None)
        ≡ assigned base len index.now value.now all.old.each) }
{
    if cut_index(len, index, all)? {
        write(base, len, index, value, all)
    } else {
        Ok(false)
    }
}

/// Cuts the index of an array.
fn cut_index(len: u32, index: &Expr, all: &mut KnownBounds) -> Result<bool, AllocError>
    ensures cells { all.new.cells ≡ all.old.cells }
    ensures each { IfOk result (λ is. (if is then Some all.new.each else None)
        ≡ indexed len index.now all.old.each) }
{
    if 1 < len {
        cut_side(CmpOp::Eq, index, places_of(len), all)
    } else {
        Ok(true)
    }
}

/// A write whose index is cut.
fn write(
    base: u32,
    len: u32,
    index: &Expr,
    value: &Expr,
    all: &mut KnownBounds,
) -> Result<bool, AllocError>
    ensures cells { all.new.cells ≡ all.old.cells }
    ensures each { IfOk result (λ is. (if is then Some all.new.each else None)
        ≡ written base len index.now value.now all.old.each) }
{
    let at = bounds_of(index, all);
    let own = bounds_of(value, all);
    place(base, len, at, own, all)
}

/// A write of a number within bounds at an index within bounds.
fn place(
    base: u32,
    len: u32,
    index: Option<Bounds>,
    value: Option<Bounds>,
    all: &mut KnownBounds,
) -> Result<bool, AllocError>
    ensures cells { all.new.cells ≡ all.old.cells }
    ensures each { IfOk result (λ is. (if is then Some all.new.each else None)
        ≡ placed base len index value all.old.each) }
{
    match (index, value) {
        (Some(index), Some(value)) => match named(base, len, index) {
            None => Ok(false),
            Some(places) => {
                store(value, places, all)?;
                Ok(true)
            }
        },
        _ => Ok(false),
    }
}

/// A write to one of these cells.
fn store(value: Bounds, places: Places, all: &mut KnownBounds) -> Result<(), AllocError>
    requires { places.first + places.count < 2 ^ 34 }
    ensures cells { all.new.cells ≡ all.old.cells }
    ensures each { OnOk result (all.new.each ≡ stored value all.old.each places) }
{
    if places.count == 1 {
        all.put(places.first, value)
    } else {
        join_from(places.first, places.count, value, all)
    }
}

/// So many cells may have a number of these or keep their own.
fn join_from(
    first: usize,
    count: usize,
    value: Bounds,
    all: &mut KnownBounds,
) -> Result<(), AllocError>
    requires { first + count < 2 ^ 34 }
    ensures cells { all.new.cells ≡ all.old.cells }
    ensures each { OnOk result (all.new.each ≡ joined_from first count value all.old.each) }
{
    for i in 0..count {
        join_at(first + i, value, all)?;
    }
    Ok(())
}

/// The cell may have a number of these or keep its own.
fn join_at(cell: usize, value: Bounds, all: &mut KnownBounds) -> Result<(), AllocError>
    ensures cells { all.new.cells ≡ all.old.cells }
    ensures each { OnOk result
        (all.new.each ≡ joined_at cell value (slice_get all.old.each cell) all.old.each) }
{
    match all.at(cell) {
        Some(own) => all.put(cell, own.hull(value)),
        None => Ok(()),
    }
}

/// The cell may have each number of its type.
fn free(cell: u32, all: &mut KnownBounds) -> Result<(), AllocError>
    ensures cells { all.new.cells ≡ all.old.cells }
    ensures each { OnOk result
        (all.new.each ≡ freed cell (slice_get all.old.cells cell) all.old.each) }
{
    match range_at(all.cells(), cell as usize) {
        Some(range) => all.put(cell as usize, range),
        None => Ok(()),
    }
}

/// All numbers of the type of the cell, if it is there.
fn range_at(cells: &[Cell], cell: usize) -> Option<Bounds>
    ensures { result ≡ option_map (λ c. range_of c.ty) (slice_get cells.now cell) }
{
    match cells.get(cell) {
        Some(it) => Some(Bounds::range_of(it.ty)),
        None => None,
    }
}
