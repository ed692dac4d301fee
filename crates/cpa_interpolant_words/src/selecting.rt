//! As few of some expressions as are enough before an edge for another one to be nonzero after it.

ghost use Rattle.std.specs.Prelude.{◌<◌, length};
ghost use Rattle.cpa_model.specs.Automata.{IsAutomaton};

use crate::asking::Limits;
use crate::checking::leads;
use crate::nodes::conjunction;
use cpa_expr::{Expr, copied};
use cpa_model::{Cfa, is_expr};
use std::alloc::{AllocError, Global};

/// Copies of the expressions but for those at the places from `first` up to `end`.
fn all_but(alloc: Global, es: &[Expr], first: usize, end: usize) -> Result<Vec<Expr>, AllocError> {
    let mut others = Vec::new(alloc);
    for i in 0..es.len() {
        if i < first || end <= i {
            let own = copied(alloc, &es[i])?;
            others.push(own.into_inner())?;
        }
    }
    Ok(others)
}

/// Whether it is found that after the edge `e` is nonzero wherever all of these are before it.
pub(crate) fn are_enough(
    alloc: Global,
    cfa: &Cfa,
    es: &[Expr],
    edge: u32,
    e: &Expr,
    limits: Limits,
) -> Result<bool, AllocError>
    requires automaton { IsAutomaton cfa.now }
    requires edge { edge < length cfa.now.edges }
{
    let all = conjunction(alloc, es)?;
    if !is_expr(all.get(), cfa.cells.as_slice()) || !is_expr(e, cfa.cells.as_slice()) {
        return Ok(false);
    }
    leads(alloc, cfa, all.get(), edge, e, limits)
}

/// As few of the expressions as are enough, the first rather than the last, or None where all of
/// them are not.
pub(crate) fn fewest(
    alloc: Global,
    cfa: &Cfa,
    es: &[Expr],
    edge: u32,
    e: &Expr,
    limits: Limits,
) -> Result<Option<Vec<Expr>>, AllocError>
    requires automaton { IsAutomaton cfa.now }
    requires edge { edge < length cfa.now.edges }
{
    let enough = are_enough(alloc, cfa, es, edge, e, limits)?;
    if !enough {
        return Ok(None);
    }
    let mut kept = all_but(alloc, es, 0, 0)?;
    let mut step = es.len();
    while 0 < step {
        kept = without_steps(alloc, cfa, kept, step, edge, e, limits)?;
        step /= 2;
    }
    Ok(Some(kept))
}

/// Takes away, from the last on, so many expressions at a time as `step` says, where the others are
/// enough.
fn without_steps(
    alloc: Global,
    cfa: &Cfa,
    es: Vec<Expr>,
    step: usize,
    edge: u32,
    e: &Expr,
    limits: Limits,
) -> Result<Vec<Expr>, AllocError>
    requires automaton { IsAutomaton cfa.now }
    requires edge { edge < length cfa.now.edges }
    requires step { 0 < step }
{
    let mut kept = es;
    let mut end = kept.len();
    while 0 < end {
        let first = end.saturating_sub(step);
        let others = all_but(alloc, &kept, first, end)?;
        let enough = are_enough(alloc, cfa, &others, edge, e, limits)?;
        if enough {
            kept = others;
        }
        end = first;
    }
    Ok(kept)
}
