//! Reads what a row has behind colons: points of elements, limits of precisions, pairs of numbers.
//! Nothing is proved of what is read but that reading is safe and ends.

use cases_reader::{RowFault, index_of_word, indices_of};
use cpa_iface::{Cells, Precision};
use cpa_model::{Elem, Fact, Seq, Shared};
use std::alloc::Global;

/// The pairs of the indices that a text spells.
pub fn pairs_of(alloc: Global, text: &str) -> Result<Seq<(u32, u32)>, RowFault> {
    let indices = indices_of(alloc, text)?;
    let mut pairs = Seq::new(alloc);
    let mut rest = indices.as_slice();
    while let [old, next, behind @ ..] = rest {
        pairs.push((*old, *next))?;
        rest = behind;
    }
    if !rest.is_empty() {
        return Err(RowFault::Unreadable);
    }
    Ok(pairs)
}

/// An element for each point that a text names.
pub fn elems_at(alloc: Global, text: &str) -> Result<Vec<Elem>, RowFault> {
    let mut elems = Vec::new(alloc);
    for word in text.split_whitespace() {
        elems.push(elem_at(alloc, index_of_word(word)?)?)?;
    }
    Ok(elems)
}

/// The element of the fact that the point is this one.
fn elem_at(alloc: Global, point: u32) -> Result<Elem, RowFault> {
    let mut facts = Seq::new(alloc);
    facts.push(Fact::At { point })?;
    Ok(Elem::new(alloc, facts)?)
}

/// A precision for each limit that a text names.
pub fn precisions_of(alloc: Global, text: &str) -> Result<Vec<Precision>, RowFault> {
    let mut precisions = Vec::new(alloc);
    for word in text.split_whitespace() {
        let limit = index_of_word(word)?;
        precisions.push(Precision {
            tracked: Cells::new(),
            limit,
            preds: Shared::new(),
        })?;
    }
    Ok(precisions)
}
