//! Whether bounds of cells settle an obligation: no run of stores meets what is asked about it.
//! Proved with `proofs/Settled.antt`.

ghost use Rattle.std.specs.Prelude.{◌≡◌, ◌<◌, length, map, IfOk, IsTrue};
ghost use Rattle.cpa_model.specs.Automata.{IsAutomaton};
ghost use Rattle.cpa_recheck_obligations.specs.Forms.{entry_at, IsRunless, rivals_of};
ghost use Rattle.cpa_recheck_obligations.specs.Laws.{AreShapedFor};
ghost use Rattle.cpa_recheck_obligations.specs.Obligations.{IsObligationOf};

use crate::behind::{are_found_behind, bounds_at_start};
use crate::exact::lows_of;
use crate::saying::are_said;
use cpa_interval_bounds::KnownBounds;
use cpa_model::{Cfa, Elem, edges_are_sound};
use cpa_recheck_obligations::Obligation;
use std::alloc::{AllocError, Global};

/// Whether an entry of these numbers is said at the initial store.
fn begins(alloc: Global, cfa: &Cfa, entries: &[Elem], numbers: &[u32]) -> Result<bool, AllocError>
    requires { map (entry_at entries.now) numbers.now
        ≡ rivals_of cfa.now entries.now Obligation.Begins }
    ensures { IfOk result (λ is.
        IsTrue is → IsRunless cfa.now entries.now Obligation.Begins) }
{
    let all = bounds_at_start(alloc, cfa.cells.as_slice())?;
    let nothing = Elem::any();
    let lows = lows_of(alloc, &all)?;
    Ok(are_said(&all, &lows, &nothing, entries, numbers))
}

/// Whether an entry of these numbers is said behind the edge.
fn leads(
    alloc: Global,
    cfa: &Cfa,
    entries: &[Elem],
    numbers: &[u32],
    entry: u32,
    edge: u32,
) -> Result<bool, AllocError>
    requires automaton { IsAutomaton cfa.now }
    requires shaped { AreShapedFor cfa.now entries.now }
    requires entry { entry < length entries.now }
    requires edge { edge < length cfa.now.edges }
    requires numbers { map (entry_at entries.now) numbers.now
        ≡ rivals_of cfa.now entries.now (Obligation.Leads entry edge) }
    ensures { IfOk result (λ is.
        IsTrue is → IsRunless cfa.now entries.now (Obligation.Leads entry edge)) }
{
    edges_are_sound();
    let elem = &entries[entry as usize];
    let act = &cfa.edge(edge).act;
    let mut all = KnownBounds::of_types(alloc, cfa.cells.as_slice());
    let is = are_found_behind(alloc, cfa, elem, act, &mut all, entries, numbers)?;
    Ok(is)
}

/// Whether bounds of cells show that no run of stores meets what is asked about the obligation, the
/// entries with these numbers being its rivals. It fails only where memory runs out.
pub fn is_settled(
    alloc: Global,
    cfa: &Cfa,
    entries: &[Elem],
    numbers: &[u32],
    obligation: Obligation,
) -> Result<bool, AllocError>
    requires automaton { IsAutomaton cfa.now }
    requires shaped { AreShapedFor cfa.now entries.now }
    requires named { IsObligationOf cfa.now entries.now obligation }
    requires numbers { map (entry_at entries.now) numbers.now
        ≡ rivals_of cfa.now entries.now obligation }
    ensures { IfOk result (λ is.
        IsTrue is → IsRunless cfa.now entries.now obligation) }
{
    match obligation {
        Obligation::Begins => begins(alloc, cfa, entries, numbers),
        Obligation::Leads { entry, edge } => leads(alloc, cfa, entries, numbers, entry, edge),
        Obligation::Avoids { .. } => Ok(false),
    }
}
