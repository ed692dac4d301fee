//! What a turn does with the entry that it has taken: its successors are settled, and the row is
//! closed in the journal.

ghost use Rattle.std.specs.Prelude.{◌≡◌, length, IfOk, OnOk};
ghost use Rattle.cpa_model.specs.Automata.{IsAutomaton};
ghost use Rattle.cpa_composite.specs.Composites.{components};
ghost use Rattle.cpa_reached.specs.Entries.{IsLive};
ghost use Rattle.cpa_engine_turn.specs.Keys.{HasPlaces};
ghost use Rattle.cpa_engine_turn.specs.Stages.{Works};
ghost use Rattle.cpa_engine_turn.specs.Steps.{IsOrdered};
ghost use Rattle.cpa_engine_turn.specs.Turns.{AreEntries};

use crate::expanding::expand;
use crate::work::Work;
use cpa_composite::{Composite, copy_row};
use cpa_iface::{Analysis, Precision, copy_precision};
use cpa_model::Cfa;
use cpa_reached::Reached;
use std::alloc::{AllocError, Global};

/// Equal precisions.
pub fn copy_precisions(
    alloc: Global,
    precisions: &[Precision],
) -> Result<Vec<Precision>, AllocError>
    ensures { IfOk result (λ list. list.items ≡ precisions.now) }
{
    let mut list = Vec::new(alloc);
    for precision in precisions {
        list.push(copy_precision(alloc, precision)?)?;
    }
    Ok(list)
}

/// Settles the successors of the entry that was taken, and closes the row. The elements are copied,
/// since the entry may be replaced in its own turn.
pub(crate) fn expand_taken<A: Analysis>(
    alloc: Global,
    cfa: &Cfa,
    composite: &mut Composite<A>,
    reached: &mut Reached,
    number: u32,
) -> Result<(), AllocError>
    requires automaton { IsAutomaton cfa.now }
    requires entries { AreEntries cfa.now (length (components composite.old)) reached.old.live }
    requires places { HasPlaces (components composite.old) reached.old }
    requires live { IsLive reached.old.live number }
    ensures works { OnOk result
        (Works cfa.now (components composite.old) number reached.old reached.new) }
    ensures ordered { OnOk result (IsOrdered reached.old) }
    ensures kept { components composite.new ≡ components composite.old }
{
    let entry = reached.entry(number);
    let elems = copy_row(alloc, entry.elems.as_slice())?;
    let precisions = copy_precisions(alloc, entry.precisions.as_slice())?;
    let mut work = Work::begin(alloc, number);
    expand(
        alloc,
        cfa,
        composite,
        reached,
        &mut work,
        &elems,
        &precisions,
    )?;
    reached.close_turn(work.row)
}
