//! What an element says of the cells, and the element of what is known of them, by
//! `specs/Cells.antt`.

ghost use Rattle.std.specs.Prelude.{◌≡◌, ◌<◌, ◌^◌, ℕ, ◌++◌, ◌∷◌, [], None, is_none, true};
ghost use Rattle.std.specs.Prelude.{length, slice_set, IfOk, OnOk};
ghost use Rattle.std.specs.List.{slice_index_or};
ghost use Rattle.cpa_value_changes.specs.Cells.{first_value, known_cells};
ghost use Rattle.cpa_value.specs.Cells.{first_known};
ghost use Rattle.cpa_value.specs.Cells.{facts_from, elem_of};

use cpa_model::{Elem, Fact, Facts, Seq};
use std::alloc::{AllocError, Global};

/// The known values of the first `count` cells. Of several facts on a cell the first one counts.
pub(crate) fn known_cells(
    alloc: Global,
    facts: &Facts,
    count: usize,
) -> Result<Vec<Option<i128>>, AllocError>
    ensures { IfOk result (λ cells. cells.items ≡ known_cells count facts.now) }
{
    let mut cells = vec![in alloc; None; count]?;
    know_all(&mut cells, facts);
    Ok(cells)
}

/// What the facts give the cells of which nothing is known.
fn know_all(cells: &mut [Option<i128>], facts: &Facts)
    requires { (cell : ℕ) → slice_index_or cells.old cell None ≡ None }
    ensures { cells.new ≡ known_cells (length cells.old) facts.now }
{
    for fact in facts {
        know(cells, fact);
    }
}

/// What the fact gives a cell of which nothing is known.
fn know(cells: &mut [Option<i128>], fact: &Fact)
    ensures length { length cells.new ≡ length cells.old }
    ensures values { (cell : ℕ) → cell < length cells.old → slice_index_or cells.new cell None
        ≡ first_known (slice_index_or cells.old cell None) (first_value (fact.now ∷ []) cell) }
{
    if let Fact::Equals { cell, value } = fact {
        let cell = *cell as usize;
        if is_unknown(cells, cell) {
            put(cells, cell, Some(*value));
        }
    }
}

/// Whether no value of the cell is known. That of a cell which is not there is not.
fn is_unknown(cells: &[Option<i128>], cell: usize) -> bool
    ensures { result ≡ is_none (slice_index_or cells.now cell None) }
{
    value_at(cells, cell).is_none()
}

/// This for the cell, if it is there.
pub(crate) fn put(cells: &mut [Option<i128>], cell: usize, value: Option<i128>)
    ensures { cells.new ≡ slice_set cells.old cell value }
{
    if cell < cells.len() {
        cells[cell] = value;
    }
}

/// The value of the cell, where it is known.
pub(crate) fn value_at(cells: &[Option<i128>], cell: usize) -> Option<i128>
    ensures { result ≡ slice_index_or cells.now cell None }
{
    match cells.get(cell) {
        Some(value) => *value,
        None => None,
    }
}

/// The element of all known cells.
pub(crate) fn elem_of_known(alloc: Global, cells: &[Option<i128>]) -> Result<Elem, AllocError>
    requires { length cells.now < 2 ^ 32 }
    ensures { IfOk result (λ e. e ≡ elem_of (λ _. true) cells.now) }
{
    let mut facts = Seq::new(alloc);
    for cell in 0..cells.len() {
        push_fact(&mut facts, cell as u32, cells[cell], true)?;
    }
    Elem::new(alloc, facts)
}

/// Adds the fact of a cell, where it is tracked and its value is known.
pub(crate) fn push_fact(
    facts: &mut Seq<Fact>,
    cell: u32,
    value: Option<i128>,
    is_tracked: bool,
) -> Result<(), AllocError>
    ensures { OnOk result
        (facts.new ≡ facts.old ++ facts_from (λ _. is_tracked) cell (value ∷ [])) }
{
    match value {
        None => Ok(()),
        Some(value) => {
            if is_tracked {
                facts.push(Fact::Equals { cell, value })?;
            }
            Ok(())
        }
    }
}
