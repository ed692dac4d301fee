//! What is to be shown of a list of entries, by `specs/Obligations.antt`. Proved with
//! `proofs/listing/`.

ghost use Rattle.std.specs.Prelude.{◌≡◌, ◌∷◌, ◌++◌, ◌<◌, ◌≤◌, ◌^◌, ℕ, map, length, IfOk, OnOk};
ghost use Rattle.std.specs.Prelude.{slice_get};
ghost use Rattle.std.specs.Prelude.{Some, false, IsTrue};
ghost use Rattle.std.specs.List.{filter};
ghost use Rattle.cpa_model.specs.declared.automaton.Edge.{Edge as AnEdge};
ghost use Rattle.cpa_model.specs.Automata.{IsAutomaton};
ghost use Rattle.cpa_recheck_obligations.specs.Obligations.{edges_of, errors_of, leaves};
ghost use Rattle.cpa_recheck_obligations.specs.Obligations.{obligations};
ghost use Rattle.cpa_recheck_obligations.specs.Obligations.{own, own_from};
ghost use Rattle.cpa_recheck_obligations.specs.Spots.{spots_of};

use crate::spots::{Spot, permits};
use crate::stepping::leaves;
use crate::table::spots_of;
use cpa_model::{Cfa, Elem, automata_are_small, leaving};
use std::alloc::{AllocError, Global};

/// One of the facts that together make a list of entries a cover.
#[derive(Clone, Copy)]
pub enum Obligation {
    /// The initial state lies in an entry.
    Begins,
    /// Each successor by the edge of a state of the entry lies in an entry.
    Leads { entry: u32, edge: u32 },
    /// The entry holds no state at the error point.
    Avoids { entry: u32, point: u32 },
}

/// Edges among which are all that leave a point which the spot allows: from the first number to
/// before the second one. Where it says a point, they are the edges that leave it.
fn edges_within(cfa: &Cfa, spot: &Spot) -> (u32, u32)
    requires { IsAutomaton cfa.now }
    ensures ends { (result.0 ≤ result.1) × (result.1 ≤ length cfa.now.edges) }
    ensures outside { (k : ℕ) (edge : AnEdge) → slice_get cfa.now.edges k ≡ Some edge
        → IsTrue (leaves spot.now edge) → (result.0 ≤ k) × (k < result.1) }
{
    automata_are_small();
    match spot.point {
        None => (0, cfa.edges.len() as u32),
        Some(point) => {
            let (first, count) = leaving(cfa, point);
            (first, first + count)
        }
    }
}

/// Adds the edges that leave the entry's spot.
fn push_edges(
    list: &mut Vec<Obligation>,
    cfa: &Cfa,
    entry: u32,
    spot: &Spot,
) -> Result<(), AllocError>
    requires { IsAutomaton cfa.now }
    ensures { OnOk result (list.new.items
        ≡ list.old.items ++ map (Obligation.Leads entry) (edges_of cfa.now spot.now)) }
{
    let (first, end) = edges_within(cfa, spot);
    for edge in first..end {
        if leaves(spot, cfa.edge(edge)) {
            list.push(Obligation::Leads { entry, edge })?;
        }
    }
    Ok(())
}

/// Adds the error points that the entry's spot allows.
fn push_errors(
    list: &mut Vec<Obligation>,
    cfa: &Cfa,
    entry: u32,
    spot: &Spot,
) -> Result<(), AllocError>
    ensures { OnOk result (list.new.items
        ≡ list.old.items ++ map (Obligation.Avoids entry) (errors_of cfa.now spot.now)) }
{
    for point in &cfa.errors {
        if permits(spot.point, *point) {
            list.push(Obligation::Avoids {
                entry,
                point: *point,
            })?;
        }
    }
    Ok(())
}

/// Adds what is to be shown of an entry.
fn push_own(
    list: &mut Vec<Obligation>,
    cfa: &Cfa,
    entry: u32,
    spot: &Option<Spot>,
) -> Result<(), AllocError>
    requires { IsAutomaton cfa.now }
    ensures { OnOk result (list.new.items ≡ list.old.items ++ own cfa.now entry spot.now) }
{
    match spot {
        None => Ok(()),
        Some(spot) => {
            push_edges(list, cfa, entry, spot)?;
            push_errors(list, cfa, entry, spot)
        }
    }
}

/// What is to be shown of entries with these spots, the first of all included.
fn list_of(alloc: Global, cfa: &Cfa, spots: &[Option<Spot>]) -> Result<Vec<Obligation>, AllocError>
    requires automaton { IsAutomaton cfa.now }
    requires few { length spots.now < 2 ^ 32 }
    ensures { IfOk result (λ list. list.items
        ≡ Obligation.Begins ∷ own_from cfa.now 0 spots.now) }
{
    let mut list = Vec::new(alloc);
    list.push(Obligation::Begins)?;
    for entry in 0..spots.len() {
        push_own(&mut list, cfa, entry as u32, &spots[entry])?;
    }
    Ok(list)
}

/// The obligations of a list of entries, in order: first the initial one, then those of each entry,
/// its edges before its error points. 2^32 entries or more count as want of memory.
pub fn obligations(
    alloc: Global,
    cfa: &Cfa,
    entries: &[Elem],
) -> Result<Vec<Obligation>, AllocError>
    requires { IsAutomaton cfa.now }
    ensures { IfOk result (λ list. list.items ≡ obligations cfa.now entries.now) }
{
    let spots = spots_of(alloc, entries)?;
    if spots.len() > u32::MAX as usize {
        return Err(AllocError);
    }
    list_of(alloc, cfa, &spots)
}
