//! Turns from the initial state on, and what they come to as text. That each turn gets what it
//! asks for is shown with `proofs/composites/exploring/`.

ghost use Rattle.std.specs.Prelude.{length, IfOk};
ghost use Rattle.cpa_model.specs.Automata.{IsAutomaton};
ghost use Rattle.cpa_composite.specs.Composites.{components};
ghost use Rattle.cpa_engine_turn.specs.Keys.{HasPlaces};
ghost use Rattle.cpa_engine_turn.specs.Turns.{AreEntries};

use cpa_composite::Composite;
use cpa_engine_turn::turn;
use cpa_iface::{Analysis, Entry, Order, Settings, Turn};
use cpa_model::{Cfa, push_list};
use cpa_reached::Reached;
use std::alloc::{AllocError, Global};

/// The reached set of the initial state alone, indexed by what tells entries apart.
fn begin<A: Analysis>(
    alloc: Global,
    cfa: &Cfa,
    composite: &mut Composite<A>,
    settings: &Settings,
) -> Result<Reached, AllocError>
    requires { IsAutomaton cfa.now }
    ensures entries { IfOk result (λ reached.
        AreEntries cfa.now (length (components composite.new)) reached.live) }
    ensures places { IfOk result (HasPlaces (components composite.new)) }
{
    let (elems, precisions) = composite.initial(alloc, cfa, settings)?;
    let places = composite.key_places(alloc)?;
    let mut reached = Reached::new(alloc, elems, precisions)?;
    reached.index_by(&places)?;
    Ok(reached)
}

/// At most so many turns. True where something still waits.
fn turns<A: Analysis>(
    alloc: Global,
    cfa: &Cfa,
    composite: &mut Composite<A>,
    reached: &mut Reached,
    order: Order,
    count: u32,
) -> Result<bool, AllocError>
    requires automaton { IsAutomaton cfa.now }
    requires entries { AreEntries cfa.now (length (components composite.old)) reached.old.live }
    requires places { HasPlaces (components composite.old) reached.old }
{
    for _turn in 0..count {
        if !turn(alloc, cfa, composite, reached, order)? {
            return Ok(false);
        }
    }
    Ok(true)
}

/// The journal of at most so many turns from the initial state on, and behind a bar the entries
/// that are there then.
pub fn explore<A: Analysis>(
    alloc: Global,
    out: &mut String,
    composite: &mut Composite<A>,
    cfa: &Cfa,
    settings: &Settings,
    order: Order,
    count: u32,
) -> Result<(), AllocError>
    requires { IsAutomaton cfa.now }
{
    let mut reached = begin(alloc, cfa, composite, settings)?;
    push_explored(alloc, out, composite, cfa, &mut reached, order, count)
}

/// The journal of at most so many turns more, and behind a bar the entries.
fn push_explored<A: Analysis>(
    alloc: Global,
    out: &mut String,
    composite: &mut Composite<A>,
    cfa: &Cfa,
    reached: &mut Reached,
    order: Order,
    count: u32,
) -> Result<(), AllocError>
    requires automaton { IsAutomaton cfa.now }
    requires entries { AreEntries cfa.now (length (components composite.old)) reached.old.live }
    requires places { HasPlaces (components composite.old) reached.old }
{
    let waits = turns(alloc, cfa, composite, reached, order, count)?;
    push_turns(out, reached.journal())?;
    out.push_str(if waits { " |" } else { ", done |" })?;
    push_entries(out, reached.live())
}

/// Each row as `[TAKEN,[ADDED,..],[[OLD,NEW],..]]`.
fn push_turns(out: &mut String, turns: &[Turn]) -> Result<(), AllocError> {
    for turn in turns {
        let taken = turn.taken;
        write!(out, "[{taken},")?;
        push_list(out, turn.added.as_slice())?;
        out.push_str(",[")?;
        for (old, next) in &turn.replaced {
            write!(out, "[{old},{next}]")?;
        }
        out.push_str("]]")?;
    }
    Ok(())
}

/// Each entry with its elements, its parent, its uses, and a sign where it waits.
fn push_entries(out: &mut String, entries: &[Entry]) -> Result<(), AllocError> {
    for entry in entries {
        let number = entry.number;
        write!(out, " {number} ")?;
        push_list(out, entry.elems.as_slice())?;
        if let Some((parent, edge)) = entry.parent {
            write!(out, " from {parent} by {edge}")?;
        }
        out.push_str(" uses ")?;
        push_list(out, entry.uses.as_slice())?;
        out.push_str(if entry.waiting { " waits;" } else { ";" })?;
    }
    Ok(())
}
