//! Stacks before and after an edge for a state of an entry, by `AreStacksFor` of
//! `cpa_recheck_obligations`. Proved with `proofs/Stacked.antt`.

ghost use Rattle.std.specs.Prelude.{◌≡◌, ◌∷◌, ◌++◌, ◌+◌, ◌<◌, ◌≤◌, [], List, length, replicate};
ghost use Rattle.std.specs.Prelude.{IfOk, IfSome, Some, None, slice_get, IsTrue};
ghost use Rattle.std.specs.List.{AllByRecursion};
ghost use Rattle.cpa_model.specs.declared.automaton.Edge.{Edge as AnEdge};
ghost use Rattle.cpa_model.specs.declared.facts.Elem.{Elem as AnElem};
ghost use Rattle.cpa_model.specs.Automata.{IsAutomaton};
ghost use Rattle.cpa_recheck_obligations.specs.Forms.{AreStacksFor};
ghost use Rattle.cpa_recheck_obligations.specs.Obligations.{leaves};
ghost use Rattle.cpa_recheck_obligations.specs.Spots.{spots_of};
ghost use Rattle.cpa_recheck.specs.Stacks.{free_after, free_before, HasDepth, HasDepths};

use cpa_model::{Act, Cfa, Seq, automata_are_small, edges_are_sound, step_stack};
use cpa_recheck_obligations::Spot;
use std::alloc::{AllocError, Global};

/// Two stacks, before and after an edge.
#[derive(Drop)]
pub(crate) struct Stacks {
    pub old: Seq<u32>,
    pub new: Seq<u32>,
}

/// How many sites the stack has that is said, 0 where none is.
fn depth_of(found: &Option<Spot>) -> usize
    ensures { HasDepth result found.now }
{
    match found {
        None => 0,
        Some(spot) => match &spot.stack {
            None => 0,
            Some(sites) => sites.len(),
        },
    }
}

/// The larger of two numbers.
fn larger(a: usize, b: usize) -> usize
    ensures first { a ≤ result }
    ensures second { b ≤ result }
{
    if a < b { b } else { a }
}

/// The number of sites of the longest stack that an entry says.
fn longest(spots: &[Option<Spot>]) -> usize
    ensures { HasDepths result spots.now }
{
    let mut most = 0;
    for found in spots {
        let depth = depth_of(found);
        most = larger(most, depth);
    }
    most
}

/// One more; no list is as long as the greatest number.
fn above(depth: usize) -> Result<usize, AllocError>
    ensures { IfOk result (λ n. n ≡ depth + 1) }
{
    depth.checked_add(1).ok_or(AllocError)
}

/// Site 0 so often.
fn zeros(alloc: Global, depth: usize) -> Result<Seq<u32>, AllocError>
    ensures { IfOk result (λ sites. sites ≡ replicate depth 0) }
{
    let sites = vec![in alloc; 0u32; depth]?;
    Ok(Seq::from_vec(sites))
}

/// Site 0 so often, and this site on top.
fn topped(alloc: Global, depth: usize, site: u32) -> Result<Seq<u32>, AllocError>
    ensures { IfOk result (λ sites. sites ≡ replicate depth 0 ++ site ∷ []) }
{
    let mut sites = zeros(alloc, depth)?;
    sites.push(site)?;
    Ok(sites)
}

/// A stack before the act, deep enough to be none that an entry says.
fn free_before(alloc: Global, act: &Act, depth: usize) -> Result<Seq<u32>, AllocError>
    ensures { IfOk result (λ sites. sites ≡ free_before act.now depth) }
{
    match act {
        Act::Return { site } => topped(alloc, depth, *site),
        _ => zeros(alloc, depth),
    }
}

/// The stack behind the act.
fn free_after(alloc: Global, act: &Act, depth: usize) -> Result<Seq<u32>, AllocError>
    ensures { IfOk result (λ sites. sites ≡ free_after act.now depth) }
{
    match act {
        Act::Call { site } => topped(alloc, depth, *site),
        _ => zeros(alloc, depth),
    }
}

/// Stacks for a state of an entry that says none: site 0 so often that no entry says the one after
/// the edge.
pub(crate) fn free_stacks(
    alloc: Global,
    cfa: &Cfa,
    spots: &[Option<Spot>],
    spot: &Spot,
    edge: u32,
) -> Result<Stacks, AllocError>
    requires automaton { IsAutomaton cfa.now }
    requires inside { edge < length cfa.now.edges }
    requires none { spot.now.stack ≡ None }
    ensures { (xs : List AnElem) (g : AnEdge) → spots.now ≡ spots_of xs
        → slice_get cfa.now.edges edge ≡ Some g
        → IfOk result (λ s. AreStacksFor cfa.now xs spot.now g s.old s.new) }
{
    automata_are_small();
    edges_are_sound();
    let act = &cfa.edge(edge).act;
    let most = longest(spots);
    let depth = above(most)?;
    let old = free_before(alloc, act, depth)?;
    let new = free_after(alloc, act, depth)?;
    Ok(Stacks { old, new })
}

/// Stacks for a state of an entry that says one: that one, and the one behind the edge.
pub(crate) fn said_stacks(
    alloc: Global,
    cfa: &Cfa,
    spot: &Spot,
    sites: &Seq<u32>,
    edge: u32,
) -> Result<Stacks, AllocError>
    requires inside { edge < length cfa.now.edges }
    requires said { spot.now.stack ≡ Some sites.now }
    requires leaves { (g : AnEdge) → slice_get cfa.now.edges edge ≡ Some g
        → IsTrue (leaves spot.now g) }
    requires sites { AllByRecursion (λ site. site < cfa.now.points) sites.now }
    ensures { (xs : List AnElem) (g : AnEdge) → slice_get cfa.now.edges edge ≡ Some g
        → IfOk result (λ s. AreStacksFor cfa.now xs spot.now g s.old s.new) }
{
    let act = &cfa.edge(edge).act;
    let old = sites.as_slice().to_vec(alloc)?;
    let mut new = sites.as_slice().to_vec(alloc)?;
    let _stepped = step_stack(act, &mut new)?;
    Ok(Stacks {
        old: Seq::from_vec(old),
        new: Seq::from_vec(new),
    })
}
