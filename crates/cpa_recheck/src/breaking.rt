//! The state that a model of an obligation's query gives, with its successor: it breaks the
//! obligation, by the law `models_break`. Proved with `proofs/breaking/`.

ghost use Rattle.std.specs.Prelude.{◌≡◌, ◌<◌, ℕ, List, length, slice_get};
ghost use Rattle.std.specs.Prelude.{IfOk, IfSome, Some, IsTrue};
ghost use Rattle.std.specs.List.{AllByRecursion};
ghost use Rattle.cpa_model.specs.declared.automaton.Edge.{Edge as AnEdge};
ghost use Rattle.cpa_model.specs.declared.facts.Elem.{Elem as AnElem};
ghost use Rattle.cpa_model.specs.Automata.{IsAutomaton};
ghost use Rattle.cpa_query.specs.Queries.{IsModel};
ghost use Rattle.cpa_recheck_obligations.specs.declared.spots.Spot.{Spot as ASpot};
ghost use Rattle.cpa_recheck_obligations.specs.Forms.{AreStacksFor, form_at};
ghost use Rattle.cpa_recheck_obligations.specs.Laws.{AreShapedFor};
ghost use Rattle.cpa_recheck_obligations.specs.Meeting.{Breaks};
ghost use Rattle.cpa_recheck_obligations.specs.Obligations.{IsObligationOf, leaves};
ghost use Rattle.cpa_recheck_obligations.specs.Spots.{as_one, spots_of};

use crate::stacks::{Stacks, free_stacks, said_stacks};
use cpa_edgeform::EdgeForm;
use cpa_model::{Cfa, Elem, Seq, State, Store};
use cpa_recheck_obligations::{Obligation, Spot, models_break};
use std::alloc::{AllocError, Global};

/// A state that breaks an obligation, with its successor for an edge.
#[derive(Drop)]
pub(crate) struct Witness {
    pub state: State,
    pub next: Option<State>,
}

/// The first store of a run.
fn first_of(stores: (Store, Store)) -> Store
    ensures { result ≡ stores.0 }
{
    let (first, _) = stores;
    first
}

/// The spot of an entry that has one.
fn spot_at(spots: &[Option<Spot>], entry: u32) -> &Spot
    requires { (own : ASpot) × (slice_get spots.now entry ≡ Some (Some own)) }
    ensures { slice_get spots.now entry ≡ Some (Some result.now) }
{
    match &spots[entry as usize] {
        Some(spot) => spot,
        None => unreachable!(),
    }
}

/// The stack that an entry says, or else no call.
fn said_or_none(alloc: Global, spot: &Spot) -> Result<Seq<u32>, AllocError>
    ensures said { IfOk result (λ sites. IfSome spot.now.stack (λ own. sites ≡ own)) }
    ensures below { (points : ℕ) → IfSome spot.now.stack (AllByRecursion (λ site. site < points))
        → IfOk result (AllByRecursion (λ site. site < points)) }
{
    match &spot.stack {
        Some(sites) => Ok(Seq::from_vec(sites.as_slice().to_vec(alloc)?)),
        None => Ok(Seq::new(alloc)),
    }
}

/// Stacks before and after the edge for a state of an entry at this spot.
fn stacks_for(
    alloc: Global,
    cfa: &Cfa,
    spots: &[Option<Spot>],
    spot: &Spot,
    edge: u32,
) -> Result<Stacks, AllocError>
    requires automaton { IsAutomaton cfa.now }
    requires inside { edge < length cfa.now.edges }
    requires leaves { (g : AnEdge) → slice_get cfa.now.edges edge ≡ Some g
        → IsTrue (leaves spot.now g) }
    requires sites { IfSome spot.now.stack (AllByRecursion (λ site. site < cfa.now.points)) }
    ensures { (xs : List AnElem) (g : AnEdge) → spots.now ≡ spots_of xs
        → slice_get cfa.now.edges edge ≡ Some g
        → IfOk result (λ s. AreStacksFor cfa.now xs spot.now g s.old s.new) }
{
    match &spot.stack {
        Some(sites) => said_stacks(alloc, cfa, spot, sites, edge),
        None => free_stacks(alloc, cfa, spots, spot, edge),
    }
}

/// The state that a model of the obligation's query gives, with its successor for an edge.
pub(crate) fn broken(
    alloc: Global,
    cfa: &Cfa,
    entries: &[Elem],
    spots: &[Option<Spot>],
    obligation: Obligation,
    form: &EdgeForm,
    store: &Store,
) -> Result<Witness, AllocError>
    requires automaton { IsAutomaton cfa.now }
    requires shaped { AreShapedFor cfa.now entries.now }
    requires spots { spots.now ≡ spots_of entries.now }
    requires named { IsObligationOf cfa.now entries.now obligation }
    requires form { form.now ≡ form_at cfa.now entries.now obligation }
    requires model { IsModel form.now.query store.now.values }
    ensures { (es : List (List AnElem)) → entries.now ≡ as_one es
        → IfOk result (λ b. Breaks cfa.now es obligation b.state b.next) }
{
    match obligation {
        Obligation::Begins => initial(alloc, cfa, entries, form, store),
        Obligation::Leads { entry, edge } => {
            stepping(alloc, cfa, entries, spots, entry, edge, form, store)
        }
        Obligation::Avoids { entry, point } => {
            standing(alloc, cfa, entries, spots, entry, point, form, store)
        }
    }
}

/// The initial state, which the model says to lie in no entry.
fn initial(
    alloc: Global,
    cfa: &Cfa,
    entries: &[Elem],
    form: &EdgeForm,
    store: &Store,
) -> Result<Witness, AllocError>
    requires automaton { IsAutomaton cfa.now }
    requires shaped { AreShapedFor cfa.now entries.now }
    requires form { form.now ≡ form_at cfa.now entries.now Obligation.Begins }
    requires model { IsModel form.now.query store.now.values }
    ensures { (es : List (List AnElem)) → entries.now ≡ as_one es
        → IfOk result (λ b. Breaks cfa.now es Obligation.Begins b.state b.next) }
{
    models_break();
    let stores = form.stores_of(store)?;
    let first = first_of(stores);
    let state = State {
        point: cfa.start,
        stack: Seq::new(alloc),
        store: first,
    };
    Ok(Witness { state, next: None })
}

/// A state of the entry and its successor by the edge, which the model says to lie in no entry.
fn stepping(
    alloc: Global,
    cfa: &Cfa,
    entries: &[Elem],
    spots: &[Option<Spot>],
    entry: u32,
    edge: u32,
    form: &EdgeForm,
    store: &Store,
) -> Result<Witness, AllocError>
    requires automaton { IsAutomaton cfa.now }
    requires shaped { AreShapedFor cfa.now entries.now }
    requires spots { spots.now ≡ spots_of entries.now }
    requires named { IsObligationOf cfa.now entries.now (Obligation.Leads entry edge) }
    requires form { form.now ≡ form_at cfa.now entries.now (Obligation.Leads entry edge) }
    requires model { IsModel form.now.query store.now.values }
    ensures { (es : List (List AnElem)) → entries.now ≡ as_one es
        → IfOk result (λ b. Breaks cfa.now es (Obligation.Leads entry edge) b.state b.next) }
{
    models_break();
    let spot = spot_at(spots, entry);
    let stacks = stacks_for(alloc, cfa, spots, spot, edge)?;
    let step = cfa.edge(edge);
    let (first, last) = form.stores_of(store)?;
    let state = State {
        point: step.from,
        stack: stacks.old,
        store: first,
    };
    let next = State {
        point: step.to,
        stack: stacks.new,
        store: last,
    };
    Ok(Witness {
        state,
        next: Some(next),
    })
}

/// A state of the entry at the error point.
fn standing(
    alloc: Global,
    cfa: &Cfa,
    entries: &[Elem],
    spots: &[Option<Spot>],
    entry: u32,
    point: u32,
    form: &EdgeForm,
    store: &Store,
) -> Result<Witness, AllocError>
    requires automaton { IsAutomaton cfa.now }
    requires shaped { AreShapedFor cfa.now entries.now }
    requires spots { spots.now ≡ spots_of entries.now }
    requires named { IsObligationOf cfa.now entries.now (Obligation.Avoids entry point) }
    requires form { form.now ≡ form_at cfa.now entries.now (Obligation.Avoids entry point) }
    requires model { IsModel form.now.query store.now.values }
    ensures { (es : List (List AnElem)) → entries.now ≡ as_one es
        → IfOk result (λ b. Breaks cfa.now es (Obligation.Avoids entry point) b.state b.next) }
{
    models_break();
    let spot = spot_at(spots, entry);
    let stack = said_or_none(alloc, spot)?;
    let stores = form.stores_of(store)?;
    let first = first_of(stores);
    let state = State {
        point,
        stack,
        store: first,
    };
    Ok(Witness { state, next: None })
}
