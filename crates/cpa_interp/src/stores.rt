//! The values of the cells in the initial state, and what an act writes to them: one cell's value,
//! by `Assigns` of `cpa_model`.
ghost use Rattle.std.specs.Prelude.{◌≡◌, ◌↔◌, IsTrue, List, ℤ, map, IfOk, IsSomeAnd, false};
ghost use Rattle.std.specs.Prelude.{slice_get, slice_set};
ghost use Rattle.cpa_ints.specs.Integers.{IsInRange};
ghost use Rattle.cpa_expr.specs.Values.{value_of};
ghost use Rattle.cpa_model.specs.Steps.{Assigns};

use cpa_model::{Cell, Expr, Seq, Store, value};
use std::alloc::{AllocError, Global};
use std::mem;

/// The values of the cells in the initial state.
pub fn starts(alloc: Global, cells: &[Cell]) -> Result<Vec<i128>, AllocError>
    ensures { IfOk result (λ values. values.items ≡ map (λ cell. cell.start) cells.now) }
{
    cells.iter().map(|cell| cell.start).collect(alloc)
}

/// Whether the number is a value of the cell's type.
pub(crate) fn accepts(cells: &[Cell], cell: u32, number: i128) -> bool
    ensures { IsTrue result ↔ IsSomeAnd (slice_get cells.now cell) (λ c. IsInRange c.ty number) }
{
    match cells.get(cell as usize) {
        Some(found) => found.ty.contains(number),
        None => false,
    }
}

/// Writes the value to the cell that the index names, unless one of them traps or the index lies
/// outside the array.
pub fn assign(
    alloc: Global,
    store: &mut Store,
    base: u32,
    len: u32,
    index: &Expr,
    written: &Expr,
) -> bool
    ensures done { IsTrue result → Assigns base len (value_of index.now store.old.values)
        (value_of written.now store.old.values) store.old.values store.new.values }
    ensures never { result ≡ false → (new : List ℤ) → Assigns base len
        (value_of index.now store.old.values) (value_of written.now store.old.values)
        store.old.values new → ⊥ }
    ensures kept { result ≡ false → store.new ≡ store.old }
{
    let Some(place) = value(index, store) else {
        return false;
    };
    let Some(number) = value(written, store) else {
        return false;
    };
    if 0 <= place && place < len as i128 {
        put(alloc, store, base as usize + place as usize, number);
        true
    } else {
        false
    }
}

/// This value for the cell, if it is there. The list is taken out of the store and put back, since
/// a list lends out no item to be changed; that copies nothing and takes no memory.
pub fn put(alloc: Global, store: &mut Store, cell: usize, number: i128)
    ensures { store.new.values ≡ slice_set store.old.values cell number }
{
    let mut values = mem::replace(&mut store.values, Seq::new(alloc)).into_vec();
    if cell < values.len() {
        values[cell] = number;
    }
    store.values = Seq::from_vec(values);
}
