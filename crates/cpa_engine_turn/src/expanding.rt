//! The successors of the taken entry, edge by edge. Each clause is a definition of
//! `specs/Stages.antt`.

ghost use Rattle.std.specs.Prelude.{◌≡◌, ◌<◌, length, OnOk};
ghost use Rattle.cpa_model.specs.Automata.{IsAutomaton};
ghost use Rattle.cpa_composite.specs.Components.{AreElems, ArePrecisions};
ghost use Rattle.cpa_composite.specs.Composites.{components};
ghost use Rattle.cpa_engine_turn.specs.Keys.{HasPlaces};
ghost use Rattle.cpa_engine_turn.specs.Stages.{Follows, Expands};
ghost use Rattle.cpa_engine_turn.specs.Steps.{stage, IsOrdered, HasCurrent};
ghost use Rattle.cpa_engine_turn.specs.Turns.{AreEntries};

use crate::edges::edges_from;
use crate::settling::settle_all;
use crate::work::Work;
use cpa_composite::Composite;
use cpa_iface::{Analysis, Precision};
use cpa_model::{Cfa, Elem, automata_are_small};
use cpa_reached::Reached;
use std::alloc::{AllocError, Global};

/// The successors by one edge.
fn follow<A: Analysis>(
    alloc: Global,
    cfa: &Cfa,
    composite: &mut Composite<A>,
    reached: &mut Reached,
    work: &mut Work,
    edge: u32,
    elems: &[Elem],
    precisions: &[Precision],
) -> Result<(), AllocError>
    requires automaton { IsAutomaton cfa.now }
    requires entries { AreEntries cfa.now (length (components composite.old)) reached.old.live }
    requires places { HasPlaces (components composite.old) reached.old }
    requires ordered { IsOrdered reached.old }
    requires current { HasCurrent (stage reached.old work.old) }
    requires edge { edge < length cfa.now.edges }
    requires elems { AreElems cfa.now (length (components composite.old)) elems.now }
    requires precisions { ArePrecisions cfa.now (length (components composite.old))
        precisions.now }
    ensures follows { OnOk result (Follows cfa.now (components composite.old) elems.now
        precisions.now edge (stage reached.old work.old) (stage reached.new work.new)) }
    ensures kept { components composite.new ≡ components composite.old }
{
    let rows = composite.successors(alloc, cfa, edge, elems, precisions)?;
    settle_all(
        alloc, cfa, composite, reached, work, edge, &rows, precisions,
    )
}

/// The successors by all edges along which a state of the elements may go.
pub(crate) fn expand<A: Analysis>(
    alloc: Global,
    cfa: &Cfa,
    composite: &mut Composite<A>,
    reached: &mut Reached,
    work: &mut Work,
    elems: &[Elem],
    precisions: &[Precision],
) -> Result<(), AllocError>
    requires automaton { IsAutomaton cfa.now }
    requires entries { AreEntries cfa.now (length (components composite.old)) reached.old.live }
    requires places { HasPlaces (components composite.old) reached.old }
    requires ordered { IsOrdered reached.old }
    requires current { HasCurrent (stage reached.old work.old) }
    requires elems { AreElems cfa.now (length (components composite.old)) elems.now }
    requires precisions { ArePrecisions cfa.now (length (components composite.old))
        precisions.now }
    ensures expands { OnOk result (Expands cfa.now (components composite.old) elems.now
        precisions.now (stage reached.old work.old) (stage reached.new work.new)) }
    ensures kept { components composite.new ≡ components composite.old }
{
    automata_are_small();
    let (first, count) = edges_from(cfa, elems);
    for edge in first..first + count {
        follow(
            alloc, cfa, composite, reached, work, edge, elems, precisions,
        )?;
    }
    Ok(())
}
