//! The weights of elements and of obligations, by `specs/Weights.antt` and the law
//! `weights_are_sums`. A sum stops at the greatest `u64`. Proved with `proofs/Weighed.antt`.

ghost use Rattle.std.specs.Prelude.{◌≡◌, ◌-◌, ◌^◌, min, map, sum, slice_get, List, IfOk};
ghost use Rattle.cpa_form_rules.specs.Forms.{elem_weight, fact_weight, places_from};
ghost use Rattle.cpa_form_rules.specs.Tests.{type_at};
ghost use Rattle.cpa_model.specs.declared.facts.Elem.{Elem as AnElem};
ghost use Rattle.cpa_model.specs.Automata.{IsAutomaton};
ghost use Rattle.cpa_recheck_obligations.specs.Forms.{entry_at, form_at, rivals_of};
ghost use Rattle.cpa_recheck_obligations.specs.Laws.{AreShapedFor};
ghost use Rattle.cpa_recheck_obligations.specs.Obligations.{IsObligationOf};
ghost use Rattle.cpa_recheck_weights.specs.Weights.{cell_type, weight_in, weights_of};

use cpa_blast::weight;
use cpa_edgeform::act_weight;
use cpa_form_rules::weights_are_sums;
use cpa_ints::IntType;
use cpa_model::{Cell, Cfa, Elem, Fact};
use cpa_recheck_obligations::{Obligation, added_fit};
use std::alloc::{AllocError, Global};

/// The type of a cell; that of a form where it is not there.
fn cell_type(cells: &[Cell], cell: u32) -> IntType
    ensures { result ≡ cell_type (slice_get cells.now cell) }
{
    match cells.get(cell as usize) {
        None => IntType::I32,
        Some(own) => own.ty,
    }
}

/// The same, which is that of the cell's place in a form.
fn type_at(cells: &[Cell], cell: u32) -> IntType
    ensures { result ≡ type_at (places_from 0 cells.now) cell }
{
    cell_type(cells, cell)
}

/// The weight of a fact.
fn fact_weight(cells: &[Cell], fact: &Fact) -> u64
    ensures { result ≡ min (fact_weight (places_from 0 cells.now) fact.now) u64.MAX }
{
    match fact {
        Fact::At { .. } | Fact::Stack { .. } => 0,
        Fact::Equals { cell, .. } => type_at(cells, *cell).width() as u64,
        Fact::Within { cell, .. } => 2 * type_at(cells, *cell).width() as u64,
        Fact::Truth { expr, .. } => weight(expr).saturating_add(1),
    }
}

/// The weight of an element.
fn elem_weight(cells: &[Cell], elem: &Elem) -> u64
    ensures { result ≡ min (elem_weight (places_from 0 cells.now) elem.now) u64.MAX }
{
    let mut total = 0u64;
    for fact in &elem.facts {
        total = total.saturating_add(fact_weight(cells, fact));
    }
    total
}

/// The weight of each element, in order.
pub fn weights_of(alloc: Global, cells: &[Cell], elems: &[Elem]) -> Result<Vec<u64>, AllocError>
    ensures { IfOk result (λ weights. weights.items ≡ weights_of cells.now elems.now) }
{
    let mut weights = Vec::new(alloc);
    for elem in elems {
        weights.push(elem_weight(cells, elem))?;
    }
    Ok(weights)
}

/// The weight of this number, 0 where there is none.
fn weight_at(weights: &[u64], number: u32) -> u64
    ensures { result ≡ weight_in (slice_get weights.now number) }
{
    match weights.get(number as usize) {
        None => 0,
        Some(own) => *own,
    }
}

/// The weights of these numbers together.
fn total_of(weights: &[u64], numbers: &[u32]) -> u64
    ensures { result
        ≡ min (sum (map (λ n. weight_in (slice_get weights.now n)) numbers.now)) u64.MAX }
{
    let mut total = 0u64;
    for number in numbers {
        total = total.saturating_add(weight_at(weights, *number));
    }
    total
}

/// What an obligation weighs of entries with these weights, its rivals being those of these
/// numbers. It takes no memory.
pub fn weigh(cfa: &Cfa, weights: &[u64], numbers: &[u32], obligation: Obligation) -> u64
    requires automaton { IsAutomaton cfa.now }
    requires named { (xs : List AnElem) × IsObligationOf cfa.now xs obligation }
    ensures { (xs : List AnElem) → weights.now ≡ weights_of cfa.now.cells xs
        → AreShapedFor cfa.now xs → IsObligationOf cfa.now xs obligation
        → map (entry_at xs) numbers.now ≡ rivals_of cfa.now xs obligation
        → result ≡ (form_at cfa.now xs obligation).weight }
{
    weights_are_sums();
    added_fit();
    let rivals = total_of(weights, numbers);
    match obligation {
        Obligation::Begins => rivals,
        Obligation::Leads { entry, edge } => {
            let own = weight_at(weights, entry);
            let act = act_weight(&cfa.edge(edge).act);
            let held = own.saturating_add(act);
            let total = held.saturating_add(rivals);
            total
        }
        Obligation::Avoids { entry, .. } => weight_at(weights, entry),
    }
}
