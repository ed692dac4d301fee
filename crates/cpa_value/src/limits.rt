//! Cells that have had too many values, by `specs/Limits.antt`. It takes time in the facts of the
//! element and of the entries, and for each in the different values of its cell so far.

ghost use Rattle.std.specs.Prelude.{◌≡◌, ◌<◌, ℕ, [], ◌∷◌, length, replicate, IfOk, OnOk};
ghost use Rattle.std.specs.List.{AllByRecursion, filter, list_any, slice_index_or};
ghost use Rattle.std.specs.Ordering.{int_eq};
ghost use Rattle.cpa_iface.specs.Meanings.{IsShaped};
ghost use Rattle.cpa_value.specs.Limits.{noted, seen_in, seen_along, seen, is_kept, limited};
ghost use Rattle.cpa_value.specs.Limits.{IsOfCell};

use cpa_iface::Entry;
use cpa_model::{Cfa, Elem, Fact, Facts, Seq, copy_elem, copy_fact};
use std::alloc::{AllocError, Global};

/// The element without the facts of cells that have more different values than the limit, over it
/// and the elements that the entries have at `place`. A limit of 0 is none.
pub(crate) fn limited(
    alloc: Global,
    cfa: &Cfa,
    limit: u32,
    elem: &Elem,
    reached: &[Entry],
    place: u32,
) -> Result<Elem, AllocError>
    requires { IsShaped cfa.now elem.now }
    ensures { IfOk result (λ e. e ≡ limited limit elem.now reached.now place) }
{
    if limit == 0 {
        return copy_elem(elem);
    }
    let mut values = no_values(alloc, cfa.cells.len())?;
    kept_of(alloc, limit, elem, reached, place, &mut values)
}

/// The element of the facts that are kept, where no value is noted yet.
fn kept_of(
    alloc: Global,
    limit: u32,
    elem: &Elem,
    reached: &[Entry],
    place: u32,
    values: &mut [Seq<i128>],
) -> Result<Elem, AllocError>
    requires none { (cell : ℕ) → slice_index_or values.old cell [] ≡ [] }
    requires inside { AllByRecursion (IsOfCell (length values.old)) elem.now.facts }
    ensures { IfOk result (λ e. e ≡ record {
      facts = filter (is_kept limit (seen elem.now reached.now place)) elem.now.facts;
    }) }
{
    note_facts(values, &elem.facts)?;
    note_entries(values, reached, place)?;
    kept(alloc, limit, elem, values)
}

/// No value for each of `count` cells.
fn no_values(alloc: Global, count: usize) -> Result<Vec<Seq<i128>>, AllocError>
    ensures { IfOk result (λ values. values.items ≡ replicate count []) }
{
    let mut values = Vec::new(alloc);
    for _ in 0..count {
        values.push(Seq::new(alloc))?;
    }
    Ok(values)
}

/// Notes the values that the entries give the cells.
fn note_entries(values: &mut [Seq<i128>], reached: &[Entry], place: u32) -> Result<(), AllocError>
    ensures { OnOk result ((cell : ℕ) → cell < length values.old → slice_index_or values.new cell []
        ≡ seen_along cell place reached.now (slice_index_or values.old cell [])) }
{
    for entry in reached {
        if let Some(elem) = entry.elems.get(place as usize) {
            note_facts(values, &elem.facts)?;
        }
    }
    Ok(())
}

/// Notes the values that the facts give the cells.
fn note_facts(values: &mut [Seq<i128>], facts: &Facts) -> Result<(), AllocError>
    ensures { OnOk result ((cell : ℕ) → cell < length values.old → slice_index_or values.new cell []
        ≡ seen_in cell facts.now (slice_index_or values.old cell [])) }
{
    for fact in facts {
        note_fact(values, fact)?;
    }
    Ok(())
}

/// Notes the value that the fact gives a cell.
fn note_fact(values: &mut [Seq<i128>], fact: &Fact) -> Result<(), AllocError>
    ensures { OnOk result ((cell : ℕ) → cell < length values.old → slice_index_or values.new cell []
        ≡ seen_in cell (fact.now ∷ []) (slice_index_or values.old cell [])) }
{
    if let Fact::Equals { cell, value } = fact {
        let cell = *cell as usize;
        if cell < values.len() {
            let own = &mut values[cell];
            note(own, *value)?;
        }
    }
    Ok(())
}

/// Adds the value, where it is not there.
fn note(values: &mut Seq<i128>, value: i128) -> Result<(), AllocError>
    ensures { OnOk result (values.new ≡ noted values.old value) }
{
    if !has_value(values.as_slice(), value) {
        values.push(value)?;
    }
    Ok(())
}

/// Whether the value is among those that were noted.
fn has_value(values: &[i128], value: i128) -> bool
    ensures { result ≡ list_any (λ own. int_eq own value) values.now }
{
    values.iter().any(|own| *own == value)
}

/// The element of the facts that are kept.
fn kept(alloc: Global, limit: u32, elem: &Elem, values: &[Seq<i128>]) -> Result<Elem, AllocError>
    ensures { IfOk result (λ e. e ≡ record {
      facts = filter (is_kept limit (λ cell. slice_index_or values.now cell []))
          elem.now.facts;
    }) }
{
    let mut facts = Seq::new(alloc);
    for fact in &elem.facts {
        if is_kept(fact, limit, values) {
            facts.push(copy_fact(alloc, fact)?)?;
        }
    }
    Elem::new(alloc, facts)
}

/// Whether the fact's cell has no more different values than the limit.
fn is_kept(fact: &Fact, limit: u32, values: &[Seq<i128>]) -> bool
    ensures { result ≡ is_kept limit (λ cell. slice_index_or values.now cell []) fact.now }
{
    match fact {
        Fact::Equals { cell, .. } => count_of(values, *cell as usize) <= limit as usize,
        _ => true,
    }
}

/// How many different values the cell has.
fn count_of(values: &[Seq<i128>], cell: usize) -> usize
    ensures { result ≡ length (slice_index_or values.now cell []) }
{
    match values.get(cell) {
        Some(own) => own.len(),
        None => 0,
    }
}
