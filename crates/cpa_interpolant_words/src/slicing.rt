//! The edges of a path that have to do with some cells: a test that reads one of them has, and a
//! write of one, and so have all cells that such an edge reads. The others constrain none of them.

ghost use Rattle.std.specs.Prelude.{◌<◌, length, IfOk};
ghost use Rattle.std.specs.List.{AllByRecursion};
ghost use Rattle.cpa_model.specs.Automata.{IsAutomaton};

use crate::reading::{act_reads, act_writes, cell_count};
use cpa_model::{Act, Cfa};
use std::alloc::{AllocError, Global};

/// Whether the act tests one of the cells or writes one.
fn touches(cells: &[u32], act: &Act) -> bool {
    match act {
        Act::Assume { .. } => cells.iter().any(|cell| act_reads(act, *cell)),
        _ => cells.iter().any(|cell| act_writes(act, *cell)),
    }
}

/// Adds the cells that the act reads, where they are not there.
fn push_read(cfa: &Cfa, cells: &mut Vec<u32>, act: &Act) -> Result<(), AllocError>
    requires automaton { IsAutomaton cfa.now }
{
    for cell in 0..cell_count(cfa) {
        if act_reads(act, cell) && !cells.contains(&cell) {
            cells.push(cell)?;
        }
    }
    Ok(())
}

/// Adds the cells that those of the edges read which have to do with the cells.
fn widen(cfa: &Cfa, edges: &[u32], cells: &mut Vec<u32>) -> Result<(), AllocError>
    requires automaton { IsAutomaton cfa.now }
    requires path { AllByRecursion (λ edge. edge < length cfa.now.edges) edges.now }
{
    for i in 0..edges.len() {
        let act = &cfa.edge(edges[i]).act;
        if touches(cells, act) {
            push_read(cfa, cells, act)?;
        }
    }
    Ok(())
}

/// The cells that have to do with these along the edges.
fn related(alloc: Global, cfa: &Cfa, edges: &[u32], cells: &[u32]) -> Result<Vec<u32>, AllocError>
    requires automaton { IsAutomaton cfa.now }
    requires path { AllByRecursion (λ edge. edge < length cfa.now.edges) edges.now }
{
    let mut all = cells.to_vec(alloc)?;
    for _ in 0..cell_count(cfa) {
        let count = all.len();
        widen(cfa, edges, &mut all)?;
        if all.len() == count {
            return Ok(all);
        }
    }
    Ok(all)
}

/// Those of the edges that have to do with the cells, in order.
pub(crate) fn sliced(
    alloc: Global,
    cfa: &Cfa,
    edges: &[u32],
    cells: &[u32],
) -> Result<Vec<u32>, AllocError>
    requires automaton { IsAutomaton cfa.now }
    requires path { AllByRecursion (λ edge. edge < length cfa.now.edges) edges.now }
    ensures { IfOk result (λ es. AllByRecursion (λ edge. edge < length cfa.now.edges) es.items) }
{
    let related = related(alloc, cfa, edges, cells)?;
    let mut kept = Vec::new(alloc);
    for i in 0..edges.len() {
        if touches(&related, &cfa.edge(edges[i]).act) {
            kept.push(edges[i])?;
        }
    }
    Ok(kept)
}
