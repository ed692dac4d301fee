//! What an edge makes of an element, by `specs/Transfer.antt`. It takes time in the facts of the
//! element and in the expressions.

ghost use Rattle.std.specs.Prelude.{◌≡◌, ◌<◌, ◌^◌, [], ◌∷◌, length, IfOk};
ghost use Rattle.cpa_model.specs.Automata.{IsAutomaton};
ghost use Rattle.cpa_iface.specs.Meanings.{IsPrecision};
ghost use Rattle.cpa_folds.specs.Tracking.{is_tracked};
ghost use Rattle.cpa_interval_acts.specs.Acts.{after_act};
ghost use Rattle.cpa_interval.specs.Transfer.{elems_of, next_intervals};

use crate::cells::{cell_bounds, elem_of};
use cpa_iface::Precision;
use cpa_interval_acts::do_act;
use cpa_interval_bounds::KnownBounds;
use cpa_model::{Act, Cfa, Edge, Elem};
use cpa_value_tracked::Tracked;
use std::alloc::{AllocError, Global};

/// What the edge makes of the element.
pub(crate) fn next_intervals(
    alloc: Global,
    cfa: &Cfa,
    precision: &Precision,
    elem: &Elem,
    edge: &Edge,
) -> Result<Vec<Elem>, AllocError>
    requires automaton { IsAutomaton cfa.now }
    requires precision { IsPrecision cfa.now precision.now }
    ensures { IfOk result (λ es. es.items
        ≡ next_intervals cfa.now precision.now elem.now edge.now) }
{
    let cells = cfa.cells.as_slice();
    let tracked = Tracked::of(alloc, precision, cells.len())?;
    let mut all = cell_bounds(alloc, cells, &elem.facts)?;
    let elems = after(alloc, &edge.act, &mut all, &tracked)?;
    Ok(elems)
}

/// The element of what the act makes of the bounds, where it can be done.
fn after(
    alloc: Global,
    act: &Act,
    all: &mut KnownBounds,
    tracked: &Tracked,
) -> Result<Vec<Elem>, AllocError>
    requires { length all.old.cells < 2 ^ 32 }
    ensures { IfOk result (λ es. es.items ≡ elems_of (is_tracked tracked.now) all.old.cells
        (after_act all.old.cells act.now all.old.each)) }
{
    if do_act(act, all)? {
        only(alloc, elem_of(alloc, all, tracked)?)
    } else {
        Ok(Vec::new(alloc))
    }
}

/// The list of one element.
fn only(alloc: Global, elem: Elem) -> Result<Vec<Elem>, AllocError>
    ensures { IfOk result (λ es. es.items ≡ elem ∷ []) }
{
    let mut elems = Vec::new(alloc);
    elems.push(elem)?;
    Ok(elems)
}
