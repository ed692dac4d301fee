//! A walk along edges, transfer after transfer, by specs/Walks.
//! Proved with `proofs/WalkLemmas.antt`.

ghost use Rattle.std.specs.Prelude.{◌≡◌, ◌<◌, Some, length, slice_get, IfOk};
ghost use Rattle.std.specs.List.{AllByRecursion};
ghost use Rattle.cpa_model.specs.declared.automaton.Edge.{Edge as AnEdge};
ghost use Rattle.cpa_model.specs.Automata.{IsAutomaton};
ghost use Rattle.cpa_iface.specs.Meanings.{AreShaped, IsPrecision};
ghost use Rattle.cpa_predicate.specs.Questions.{Spends, IsOpen};
ghost use Rattle.cpa_craig.specs.Walks.{AreBehind, Walks, SomeBeyondAt};
ghost use Rattle.cpa_craig.specs.Walks.{SomeBeyondAlong};

use crate::craig::Craig;
use cpa_iface::{Analysis, Precision};
use cpa_model::{Cfa, Elem};
use std::alloc::{AllocError, Global};

/// The elements to which the edge leads from each of these, one behind the other.
fn step(
    alloc: Global,
    craig: &mut Craig,
    cfa: &Cfa,
    edge: u32,
    elems: &[Elem],
    precision: &Precision,
) -> Result<Vec<Elem>, AllocError>
    requires automaton { IsAutomaton cfa.now }
    requires edge { edge < length cfa.now.edges }
    requires elems { AreShaped cfa.now elems.now }
    requires precision { IsPrecision cfa.now precision.now }
    ensures shaped { IfOk result (λ es. AreShaped cfa.now es.items) }
    ensures behind { IfOk result (λ es. (g : AnEdge) → slice_get cfa.now.edges edge ≡ Some g
        → AreBehind (IsOpen craig.old craig.new cfa.now) cfa.now precision.now.preds g
        elems.now es.items) }
    ensures spends { Spends craig.old craig.new
        (SomeBeyondAt craig.old cfa.now precision.now.preds edge) }
{
    let mut all = Vec::new(alloc);
    for elem in elems {
        let mut own = craig.transfer(alloc, cfa, edge, elem, precision)?;
        all.append(&mut own)?;
    }
    Ok(all)
}

/// The elements behind the last of the edges, from these on.
pub(crate) fn walk_from(
    alloc: Global,
    craig: &mut Craig,
    cfa: &Cfa,
    edges: &[u32],
    first: Vec<Elem>,
    precision: &Precision,
) -> Result<Vec<Elem>, AllocError>
    requires automaton { IsAutomaton cfa.now }
    requires edges { AllByRecursion (λ edge. edge < length cfa.now.edges) edges.now }
    requires first { AreShaped cfa.now first.items }
    requires precision { IsPrecision cfa.now precision.now }
    ensures shaped { IfOk result (λ es. AreShaped cfa.now es.items) }
    ensures known { IfOk result (λ es. Walks (IsOpen craig.old craig.new cfa.now) cfa.now
        precision.now.preds edges.now first.items es.items) }
    ensures spends { Spends craig.old craig.new
        (SomeBeyondAlong craig.old cfa.now precision.now.preds edges.now) }
{
    let mut elems = first;
    for edge in edges {
        elems = step(alloc, craig, cfa, *edge, &elems, precision)?;
    }
    Ok(elems)
}
