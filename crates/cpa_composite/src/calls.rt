//! The calls of a composite, over its analyses and its picks. Each clause is a record of
//! `specs/Laws.antt`; that it follows is shown in `proofs/Lifted.antt` and `proofs/Covering.antt`.

ghost use Rattle.std.specs.Prelude.{◌≡◌, ◌≢◌, ◌<◌, length, map, false, IsTrue, IfOk};
ghost use Rattle.std.specs.Prelude.{IfSome, IfNone};
ghost use Rattle.std.specs.List.{AllByRecursion};
ghost use Rattle.cpa_model.specs.Automata.{IsAutomaton};
ghost use Rattle.cpa_iface.specs.Meanings.{IsPathOf};
ghost use Rattle.cpa_composite.specs.Components.{picked, ArePlaces, AreElems, ArePrecisions};
ghost use Rattle.cpa_composite.specs.Components.{IsEntryOf};
ghost use Rattle.cpa_composite.specs.Laws.{InitialRow, SuccessorRows, MergedRow, AdjustedRow};
ghost use Rattle.cpa_composite.specs.Laws.{RefinedRow, AgreeOnSep, WidenCovers, SuggestionsStand};
ghost use Rattle.cpa_composite.specs.Laws.{EachMerged, EachRefined, some_longer};

use crate::{choosing, comparing, rows};
use cpa_iface::{Analysis, Entry, Pick, Precision, Settings};
use cpa_model::{Cfa, Elem, Path};
use cpa_reached_key::same_row;
use std::alloc::{AllocError, Global};

/// What each analysis begins with.
pub(crate) fn initial<A: Analysis>(
    handed: &mut Vec<A>,
    picks: &[Pick],
    alloc: Global,
    cfa: &Cfa,
    settings: &Settings,
) -> Result<(Vec<Elem>, Vec<Precision>), AllocError>
    requires automaton { IsAutomaton cfa.now }
    requires picks { ArePlaces (length handed.old.items) picks.now }
    ensures laws { let cs = picked (map A.meaning handed.old.items) picks.now in
        IfOk result (λ pair. InitialRow cs cfa.now settings.now pair.0.items pair.1.items) }
    ensures kept { map A.meaning handed.new.items ≡ map A.meaning handed.old.items }
{
    rows::initial(handed, picks, alloc, cfa, settings)
}

/// The rows of all choices among the successors that each analysis gives.
pub(crate) fn successors<A: Analysis>(
    handed: &mut Vec<A>,
    picks: &[Pick],
    alloc: Global,
    cfa: &Cfa,
    edge: u32,
    elems: &[Elem],
    precisions: &[Precision],
) -> Result<Vec<Vec<Elem>>, AllocError>
    requires automaton { IsAutomaton cfa.now }
    requires picks { ArePlaces (length handed.old.items) picks.now }
    requires edge { edge < length cfa.now.edges }
    requires elems { AreElems cfa.now (length (picked (map A.meaning handed.old.items) picks.now))
        elems.now }
    requires precisions { ArePrecisions cfa.now
        (length (picked (map A.meaning handed.old.items) picks.now)) precisions.now }
    ensures laws { let cs = picked (map A.meaning handed.old.items) picks.now in
        IfOk result (λ rows. SuccessorRows cs cfa.now edge elems.now precisions.now
        (map (λ row. row.items) rows.items)) }
    ensures kept { map A.meaning handed.new.items ≡ map A.meaning handed.old.items }
{
    let lists = rows::transfers(handed, picks, alloc, cfa, edge, elems, precisions)?;
    let choices = choosing::choices(alloc, lists)?;
    choosing::strengthen_all(handed, picks, alloc, cfa, choices, precisions)
}

/// The merged row, if it is another one than the old one.
fn other_row(merged: Vec<Elem>, old: &[Elem]) -> Option<Vec<Elem>>
    ensures some { IfSome result (λ row.
        (row.items ≡ merged.items) × (merged.items ≢ old.now)) }
    ensures none { IfNone result (merged.items ≡ old.now) }
{
    if same_row(&merged, old) {
        return None;
    }
    Some(merged)
}

/// What takes the place of the old row where the new one has come.
pub(crate) fn merge<A: Analysis>(
    handed: &mut Vec<A>,
    picks: &[Pick],
    alloc: Global,
    cfa: &Cfa,
    new: &[Elem],
    old: &[Elem],
    precisions: &[Precision],
) -> Result<Option<Vec<Elem>>, AllocError>
    requires automaton { IsAutomaton cfa.now }
    requires picks { ArePlaces (length handed.old.items) picks.now }
    requires new { AreElems cfa.now (length (picked (map A.meaning handed.old.items) picks.now))
        new.now }
    requires old { AreElems cfa.now (length (picked (map A.meaning handed.old.items) picks.now))
        old.now }
    requires precisions { ArePrecisions cfa.now
        (length (picked (map A.meaning handed.old.items) picks.now)) precisions.now }
    ensures some { let cs = picked (map A.meaning handed.old.items) picks.now in
        IfOk result (λ o. IfSome o (λ merged.
        MergedRow cs cfa.now new.now old.now precisions.now merged.items)) }
    ensures none { let cs = picked (map A.meaning handed.old.items) picks.now in
        IfOk result (λ o. IfNone o (AgreeOnSep cs new.now old.now
        → WidenCovers cs new.now old.now)) }
    ensures stays { let cs = picked (map A.meaning handed.old.items) picks.now in
        IfOk result (λ o. IfNone o (AgreeOnSep cs new.now old.now
        → EachMerged cfa.now cs new.now old.now precisions.now old.now)) }
    ensures kept { map A.meaning handed.new.items ≡ map A.meaning handed.old.items }
{
    if !comparing::agree(picks, new, old) {
        return Ok(None);
    }
    let merged = rows::merges(handed, picks, alloc, cfa, new, old, precisions)?;
    Ok(other_row(merged, old))
}

/// What each analysis makes of its element, and the precisions that go with them.
pub(crate) fn adjust<A: Analysis>(
    handed: &mut Vec<A>,
    picks: &[Pick],
    alloc: Global,
    cfa: &Cfa,
    elems: &[Elem],
    precisions: &[Precision],
    reached: &[Entry],
) -> Result<(Vec<Elem>, Vec<Precision>), AllocError>
    requires automaton { IsAutomaton cfa.now }
    requires picks { ArePlaces (length handed.old.items) picks.now }
    requires elems { AreElems cfa.now (length (picked (map A.meaning handed.old.items) picks.now))
        elems.now }
    requires precisions { ArePrecisions cfa.now
        (length (picked (map A.meaning handed.old.items) picks.now)) precisions.now }
    requires reached { AllByRecursion (IsEntryOf cfa.now
        (length (picked (map A.meaning handed.old.items) picks.now))) reached.now }
    ensures laws { let cs = picked (map A.meaning handed.old.items) picks.now in
        IfOk result (λ pair. AdjustedRow cs cfa.now elems.now precisions.now reached.now
        pair.0.items pair.1.items) }
    ensures kept { map A.meaning handed.new.items ≡ map A.meaning handed.old.items }
{
    rows::adjusts(handed, picks, alloc, cfa, elems, precisions, reached)
}

/// The refined precisions, if some one is longer than its old one.
fn longer_row(refined: Vec<Precision>, old: &[Precision]) -> Option<Vec<Precision>>
    ensures some { IfSome result (λ ps.
        (ps.items ≡ refined.items) × IsTrue (some_longer old.now refined.items)) }
    ensures none { IfNone result (some_longer old.now refined.items ≡ false) }
{
    if comparing::some_longer(old, &refined) {
        return Some(refined);
    }
    None
}

/// The precisions to which the analyses refine theirs, if some one becomes longer.
pub(crate) fn refine<A: Analysis>(
    handed: &mut Vec<A>,
    picks: &[Pick],
    alloc: Global,
    cfa: &Cfa,
    path: &Path,
    precisions: &[Precision],
) -> Result<Option<Vec<Precision>>, AllocError>
    requires automaton { IsAutomaton cfa.now }
    requires picks { ArePlaces (length handed.old.items) picks.now }
    requires path { IsPathOf cfa.now path.now }
    requires precisions { ArePrecisions cfa.now
        (length (picked (map A.meaning handed.old.items) picks.now)) precisions.now }
    ensures some { let cs = picked (map A.meaning handed.old.items) picks.now in
        IfOk result (λ o. IfSome o (λ ps.
        RefinedRow cs cfa.now path.now precisions.now ps.items)) }
    ensures none { let cs = picked (map A.meaning handed.old.items) picks.now in
        IfOk result (λ o. IfNone o (SuggestionsStand cfa.now path.now cs precisions.now)) }
    ensures stays { let cs = picked (map A.meaning handed.old.items) picks.now in
        IfOk result (λ o. IfNone o
        (EachRefined cfa.now path.now cs precisions.now precisions.now)) }
    ensures kept { map A.meaning handed.new.items ≡ map A.meaning handed.old.items }
{
    let refined = rows::refines(handed, picks, alloc, cfa, path, precisions)?;
    Ok(longer_row(refined, precisions))
}
