//! The form of an obligation, by `form_at` of `cpa_recheck_obligations`, and the entries that it
//! asks about. Proved with `proofs/Asked.antt`.

ghost use Rattle.std.specs.Prelude.{◌≡◌, ◌<◌, ◌^◌, List, map, length, IfOk};
ghost use Rattle.std.specs.List.{AllByRecursion};
ghost use Rattle.cpa_model.specs.declared.facts.Elem.{Elem as AnElem};
ghost use Rattle.cpa_recheck_obligations.specs.Forms.{entry_at, form_at};
ghost use Rattle.cpa_recheck_obligations.specs.Obligations.{IsObligationOf};
ghost use Rattle.cpa_recheck_obligations.specs.Spots.{spots_of};
ghost use Rattle.cpa_recheck_obligations.specs.Tables.{IsTableOf};
ghost use Rattle.cpa_recheck.specs.Rivals.{AreRivals};

use cpa_edgeform::EdgeForm;
use cpa_model::{Cfa, Elem, Seq, copy_elem};
use cpa_recheck_obligations::{Obligation, Spot, Table, behind, candidates};
use std::alloc::{AllocError, Global};

/// The numbers of the entries in which the initial state may lie.
fn rivals_at_start(alloc: Global, cfa: &Cfa, table: &Table) -> Result<Vec<u32>, AllocError>
    ensures { (xs : List AnElem) → IsTableOf (spots_of xs) table.now.numbers.entries
        → IfOk result (λ numbers. AreRivals cfa.now xs Obligation.Begins numbers.items) }
{
    let start = Spot {
        point: Some(cfa.start),
        stack: Some(Seq::new(alloc)),
    };
    let numbers = candidates(alloc, table, &start)?;
    Ok(numbers)
}

/// The numbers of the entries in which a successor by the edge of a state of the entry may lie.
fn rivals_behind(
    alloc: Global,
    cfa: &Cfa,
    spots: &[Option<Spot>],
    table: &Table,
    entry: u32,
    edge: u32,
) -> Result<Vec<u32>, AllocError>
    requires entry { entry < length spots.now }
    requires edge { edge < length cfa.now.edges }
    requires table { IsTableOf spots.now table.now.numbers.entries }
    ensures { (xs : List AnElem) → spots.now ≡ spots_of xs
        → IfOk result (λ numbers.
        AreRivals cfa.now xs (Obligation.Leads entry edge) numbers.items) }
{
    let spot = &spots[entry as usize];
    match spot {
        None => Ok(Vec::new(alloc)),
        Some(spot) => {
            let then = behind(alloc, cfa.edge(edge), spot)?;
            match then {
                None => Ok(Vec::new(alloc)),
                Some(then) => {
                    let numbers = candidates(alloc, table, &then)?;
                    Ok(numbers)
                }
            }
        }
    }
}

/// The numbers of the entries in which what the obligation speaks of may lie.
pub(crate) fn rivals_of(
    alloc: Global,
    cfa: &Cfa,
    spots: &[Option<Spot>],
    table: &Table,
    obligation: Obligation,
) -> Result<Vec<u32>, AllocError>
    requires table { IsTableOf spots.now table.now.numbers.entries }
    requires named { (xs : List AnElem) × (spots.now ≡ spots_of xs)
        × IsObligationOf cfa.now xs obligation }
    ensures { (xs : List AnElem) → spots.now ≡ spots_of xs
        → IfOk result (λ numbers. AreRivals cfa.now xs obligation numbers.items) }
{
    match obligation {
        Obligation::Begins => rivals_at_start(alloc, cfa, table),
        Obligation::Leads { entry, edge } => {
            rivals_behind(alloc, cfa, spots, table, entry, edge)
        }
        Obligation::Avoids { .. } => Ok(Vec::new(alloc)),
    }
}

/// Copies of the entries with these numbers.
fn chosen(alloc: Global, entries: &[Elem], numbers: &[u32]) -> Result<Vec<Elem>, AllocError>
    requires { AllByRecursion (λ n. n < length entries.now) numbers.now }
    ensures { IfOk result (λ es. es.items ≡ map (entry_at entries.now) numbers.now) }
{
    let mut found = Vec::new(alloc);
    for number in numbers {
        found.push(copy_elem(&entries[*number as usize])?)?;
    }
    Ok(found)
}

/// The form of the initial obligation.
fn begins(
    alloc: Global,
    cfa: &Cfa,
    entries: &[Elem],
    numbers: &[u32],
) -> Result<EdgeForm, AllocError>
    requires rivals { AreRivals cfa.now entries.now Obligation.Begins numbers.now }
    ensures { IfOk result (λ form. form ≡ form_at cfa.now entries.now Obligation.Begins) }
{
    let failing = chosen(alloc, entries, numbers)?;
    let mut form = EdgeForm::begin(alloc, cfa, true)?;
    form.fails_now(&failing)?;
    Ok(form)
}

/// The form of an obligation of an entry and an edge.
fn leads(
    alloc: Global,
    cfa: &Cfa,
    entries: &[Elem],
    numbers: &[u32],
    entry: u32,
    edge: u32,
) -> Result<EdgeForm, AllocError>
    requires rivals { AreRivals cfa.now entries.now (Obligation.Leads entry edge) numbers.now }
    requires entry { entry < length entries.now }
    requires edge { edge < length cfa.now.edges }
    ensures { IfOk result (λ form. form
        ≡ form_at cfa.now entries.now (Obligation.Leads entry edge)) }
{
    let failing = chosen(alloc, entries, numbers)?;
    let mut form = EdgeForm::begin(alloc, cfa, false)?;
    form.holds_now(&entries[entry as usize])?;
    form.take_edge(cfa, edge)?;
    form.fails_now(&failing)?;
    Ok(form)
}

/// The form of an obligation of an entry and an error point.
fn avoids(
    alloc: Global,
    cfa: &Cfa,
    entries: &[Elem],
    entry: u32,
    point: u32,
) -> Result<EdgeForm, AllocError>
    requires { entry < length entries.now }
    ensures { IfOk result (λ form. form
        ≡ form_at cfa.now entries.now (Obligation.Avoids entry point)) }
{
    let _point = point;
    let mut form = EdgeForm::begin(alloc, cfa, false)?;
    form.holds_now(&entries[entry as usize])?;
    Ok(form)
}

/// The form of an obligation, whose rivals are the entries with these numbers.
pub(crate) fn form_of(
    alloc: Global,
    cfa: &Cfa,
    entries: &[Elem],
    numbers: &[u32],
    obligation: Obligation,
) -> Result<EdgeForm, AllocError>
    requires rivals { AreRivals cfa.now entries.now obligation numbers.now }
    requires named { IsObligationOf cfa.now entries.now obligation }
    ensures { IfOk result (λ form. form ≡ form_at cfa.now entries.now obligation) }
{
    match obligation {
        Obligation::Begins => begins(alloc, cfa, entries, numbers),
        Obligation::Leads { entry, edge } => leads(alloc, cfa, entries, numbers, entry, edge),
        Obligation::Avoids { entry, point } => avoids(alloc, cfa, entries, entry, point),
    }
}
