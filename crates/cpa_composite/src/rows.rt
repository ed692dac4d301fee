//! The calls of the picked analyses, one after the other. Each function asks every one of them, but
//! `transfers`, which stops at one that gives nothing; its clause is a relation of `specs/Laws.antt`,
//! shown in `proofs/Growing.antt`.

ghost use Rattle.std.specs.Prelude.{◌≡◌, ◌<◌, length, map, IfOk};
ghost use Rattle.std.specs.List.{AllByRecursion};
ghost use Rattle.cpa_model.specs.Automata.{IsAutomaton};
ghost use Rattle.cpa_iface.specs.Meanings.{IsPathOf};
ghost use Rattle.cpa_composite.specs.Components.{picked, ArePlaces, AreElems, ArePrecisions};
ghost use Rattle.cpa_composite.specs.Components.{IsEntryOf};
ghost use Rattle.cpa_composite.specs.Laws.{EachInitial, AreAsked, EachTransfer, EachMerged};
ghost use Rattle.cpa_composite.specs.Laws.{EachAdjusted, EachRefined};

use crate::asking;
use cpa_iface::{Analysis, Entry, Pick, Precision, Settings};
use cpa_model::{Cfa, Elem, Path};
use std::alloc::{AllocError, Global};

/// What each analysis begins with.
pub(crate) fn initial<A: Analysis>(
    handed: &mut Vec<A>,
    picks: &[Pick],
    alloc: Global,
    cfa: &Cfa,
    settings: &Settings,
) -> Result<(Vec<Elem>, Vec<Precision>), AllocError>
    requires automaton { IsAutomaton cfa.now }
    requires picks { ArePlaces (length handed.old.items) picks.now }
    ensures laws { let cs = picked (map A.meaning handed.old.items) picks.now in
        IfOk result (λ pair. (length pair.0.items ≡ length picks.now)
        × (length pair.1.items ≡ length picks.now)
        × EachInitial cfa.now settings.now cs pair.0.items pair.1.items) }
    ensures kept { map A.meaning handed.new.items ≡ map A.meaning handed.old.items }
{
    let mut elems = Vec::new(alloc);
    let mut precisions = Vec::new(alloc);
    for pick in picks {
        elems.push(asking::initial(handed, pick, alloc, cfa)?)?;
        precisions.push(asking::first_precision(handed, pick, alloc, cfa, settings)?)?;
    }
    Ok((elems, precisions))
}

/// The successors that each analysis gives, up to the first that gives none: no choice is left then.
pub(crate) fn transfers<A: Analysis>(
    handed: &mut Vec<A>,
    picks: &[Pick],
    alloc: Global,
    cfa: &Cfa,
    edge: u32,
    elems: &[Elem],
    precisions: &[Precision],
) -> Result<Vec<Vec<Elem>>, AllocError>
    requires automaton { IsAutomaton cfa.now }
    requires edge { edge < length cfa.now.edges }
    requires picks { ArePlaces (length handed.old.items) picks.now }
    requires elems { AreElems cfa.now (length picks.now) elems.now }
    requires precisions { ArePrecisions cfa.now (length picks.now) precisions.now }
    ensures asked { IfOk result (λ lists. AreAsked (length picks.now)
        (map (λ list. list.items) lists.items)) }
    ensures each { IfOk result (λ lists. EachTransfer cfa.now edge
        (picked (map A.meaning handed.old.items) picks.now) elems.now precisions.now
        (map (λ list. list.items) lists.items)) }
    ensures kept { map A.meaning handed.new.items ≡ map A.meaning handed.old.items }
{
    let mut lists = Vec::new(alloc);
    for place in 0..picks.len() {
        let pick = &picks[place];
        let elem = &elems[place];
        let precision = &precisions[place];
        let list = asking::transfer(handed, pick, alloc, cfa, edge, elem, precision)?;
        let is_none = list.is_empty();
        lists.push(list)?;
        if is_none {
            return Ok(lists);
        }
    }
    Ok(lists)
}

/// What each analysis merges to, by its rule.
pub(crate) fn merges<A: Analysis>(
    handed: &mut Vec<A>,
    picks: &[Pick],
    alloc: Global,
    cfa: &Cfa,
    new: &[Elem],
    old: &[Elem],
    precisions: &[Precision],
) -> Result<Vec<Elem>, AllocError>
    requires automaton { IsAutomaton cfa.now }
    requires picks { ArePlaces (length handed.old.items) picks.now }
    requires new { AreElems cfa.now (length picks.now) new.now }
    requires old { AreElems cfa.now (length picks.now) old.now }
    requires precisions { ArePrecisions cfa.now (length picks.now) precisions.now }
    ensures size { IfOk result (λ merged. length merged.items ≡ length picks.now) }
    ensures each { IfOk result (λ merged. EachMerged cfa.now
        (picked (map A.meaning handed.old.items) picks.now) new.now old.now precisions.now
        merged.items) }
    ensures kept { map A.meaning handed.new.items ≡ map A.meaning handed.old.items }
{
    let mut merged = Vec::new(alloc);
    for place in 0..picks.len() {
        let pick = &picks[place];
        let elem = &new[place];
        let fellow = &old[place];
        let precision = &precisions[place];
        merged.push(asking::merge(handed, pick, alloc, cfa, elem, fellow, precision)?)?;
    }
    Ok(merged)
}

/// A place as a number of 32 bits. One that is beyond them counts as want of memory.
pub(crate) fn number_of(place: usize) -> Result<u32, AllocError>
    ensures { IfOk result (λ number. number ≡ place) }
{
    if place > u32::MAX as usize {
        return Err(AllocError);
    }
    Ok(place as u32)
}

/// What each analysis makes of its element, and the precision that goes with it.
pub(crate) fn adjusts<A: Analysis>(
    handed: &mut Vec<A>,
    picks: &[Pick],
    alloc: Global,
    cfa: &Cfa,
    elems: &[Elem],
    precisions: &[Precision],
    reached: &[Entry],
) -> Result<(Vec<Elem>, Vec<Precision>), AllocError>
    requires automaton { IsAutomaton cfa.now }
    requires picks { ArePlaces (length handed.old.items) picks.now }
    requires elems { AreElems cfa.now (length picks.now) elems.now }
    requires precisions { ArePrecisions cfa.now (length picks.now) precisions.now }
    requires reached { AllByRecursion (IsEntryOf cfa.now (length picks.now)) reached.now }
    ensures laws { let cs = picked (map A.meaning handed.old.items) picks.now in
        IfOk result (λ pair. (length pair.0.items ≡ length picks.now)
        × (length pair.1.items ≡ length picks.now)
        × EachAdjusted cfa.now reached.now cs elems.now precisions.now pair.0.items
        pair.1.items) }
    ensures kept { map A.meaning handed.new.items ≡ map A.meaning handed.old.items }
{
    let mut after = Vec::new(alloc);
    let mut next = Vec::new(alloc);
    for place in 0..picks.len() {
        let pick = &picks[place];
        let elem = &elems[place];
        let old = &precisions[place];
        let number = number_of(place)?;
        let (elem, precision) = asking::adjust(
            handed, pick, alloc, cfa, elem, old, reached, number,
        )?;
        after.push(elem)?;
        next.push(precision)?;
    }
    Ok((after, next))
}

/// The precision to which each analysis refines its own.
pub(crate) fn refines<A: Analysis>(
    handed: &mut Vec<A>,
    picks: &[Pick],
    alloc: Global,
    cfa: &Cfa,
    path: &Path,
    precisions: &[Precision],
) -> Result<Vec<Precision>, AllocError>
    requires automaton { IsAutomaton cfa.now }
    requires picks { ArePlaces (length handed.old.items) picks.now }
    requires path { IsPathOf cfa.now path.now }
    requires precisions { ArePrecisions cfa.now (length picks.now) precisions.now }
    ensures size { IfOk result (λ ps. length ps.items ≡ length picks.now) }
    ensures each { IfOk result (λ ps. EachRefined cfa.now path.now
        (picked (map A.meaning handed.old.items) picks.now) precisions.now ps.items) }
    ensures kept { map A.meaning handed.new.items ≡ map A.meaning handed.old.items }
{
    let mut refined = Vec::new(alloc);
    for place in 0..picks.len() {
        let pick = &picks[place];
        let precision = &precisions[place];
        refined.push(asking::refine(handed, pick, alloc, cfa, path, precision)?)?;
    }
    Ok(refined)
}
