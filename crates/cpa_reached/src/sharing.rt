//! What a new entry shares with those that are there: the row of precisions of its parent, and the
//! elements of its key, where they are known to be equal. So it takes no memory for them.

ghost use Rattle.std.specs.Prelude.{◌≡◌, IfOk, IsTrue};

use crate::lists::trimmed;
use cpa_iface::{Cells, Precision, Row, same_precisions};
use cpa_model::{Elem, copy_elem};
use cpa_reached_key::{Key, same_elem};
use indexmap::IndexMap;
use std::alloc::{AllocError, Global};

/// Rows that name at most so many cells and predicates are compared, however few facts there are.
const COMPARED: usize = 64;

/// How many cells of the list count for a comparison: none where all stand at their own places.
fn compared(cells: &Cells) -> usize {
    if cells.own_places() == cells.len() {
        0
    } else {
        cells.len()
    }
}

/// How many cells and predicates of the row a comparison may look at.
fn named(precisions: &[Precision]) -> usize {
    precisions.iter().fold(0usize, |sum, precision| {
        sum.saturating_add(compared(&precision.tracked))
            .saturating_add(precision.preds.len())
    })
}

/// How many facts the elements have.
fn facts(elems: &[Elem]) -> usize {
    elems
        .iter()
        .fold(0usize, |sum, elem| sum.saturating_add(elem.facts.len()))
}

/// Whether the row is so short that a comparison costs no more than what was done for these
/// elements: the cells of their facts and the predicates were gone through in the transfer.
fn is_short(precisions: &[Precision], elems: &[Elem]) -> bool {
    named(precisions) <= facts(elems).saturating_add(COMPARED)
}

/// Whether the rows are known to be the same. Longer ones are not compared, so that no entry costs
/// what the program has.
fn is_same(row: &[Precision], precisions: &[Precision], elems: &[Elem]) -> bool
    ensures { IsTrue result → row.now ≡ precisions.now }
{
    is_short(row, elems) && is_short(precisions, elems) && same_precisions(row, precisions)
}

/// The row of an entry with these elements below one of the row `above`: that one once more, where
/// both are known to be the same.
pub(crate) fn row_below(
    alloc: Global,
    above: &Row<Precision>,
    elems: &[Elem],
    precisions: Vec<Precision>,
) -> Result<Row<Precision>, AllocError>
    ensures { IfOk result (λ row. row ≡ precisions.items) }
{
    match above.share() {
        Some(row) if is_same(row.as_slice(), &precisions, elems) => Ok(row),
        _ => Row::common(alloc, trimmed(precisions)),
    }
}

/// An equal element at a place is put there once more, so that its facts are shared.
fn share_at(elems: &mut Vec<Elem>, place: usize, elem: &Elem) -> Result<(), AllocError>
    ensures { elems.new.items ≡ elems.old.items }
{
    if place < elems.len() && same_elem(&elems[place], elem) {
        elems[place] = copy_elem(elem)?;
    }
    Ok(())
}

/// So are these elements, each at the place of its own.
fn share_each(elems: &mut Vec<Elem>, places: &[u32], others: &[Elem]) -> Result<(), AllocError>
    ensures { elems.new.items ≡ elems.old.items }
{
    for (at, other) in others.iter().enumerate() {
        if let Some(place) = places.get(at) {
            share_at(elems, *place as usize, other)?;
        }
    }
    Ok(())
}

/// The row of an entry that has the key: what stands at the key's places are the elements of the
/// key in the table, where it is there already.
pub(crate) fn with_shared(
    index: &IndexMap<Key, Vec<u32>>,
    key: &Key,
    places: &[u32],
    elems: Vec<Elem>,
) -> Result<Vec<Elem>, AllocError>
    ensures { IfOk result (λ row. row.items ≡ elems.items) }
{
    let mut elems = elems;
    if let Some((other, _)) = index.get_key_value(key) {
        share_each(&mut elems, places, other.elems.as_slice())?;
    }
    Ok(elems)
}
