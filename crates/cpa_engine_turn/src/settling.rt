//! One successor: it is adjusted, merged into the live entries of its key, and noted as covered or
//! added. Each clause is a definition of `specs/Stages.antt`.

ghost use Rattle.std.specs.Prelude.{◌≡◌, ℕ, ◌<◌, false, List, length, map, Some, slice_get};
ghost use Rattle.std.specs.Prelude.{IfOk, OnOk, IfSome};
ghost use Rattle.std.specs.List.{AllByRecursion};
ghost use Rattle.cpa_model.specs.Automata.{IsAutomaton};
ghost use Rattle.cpa_model.specs.declared.facts.Elem.{Elem as AnElem};
ghost use Rattle.cpa_iface.specs.declared.entries.Entry.{Entry as AnEntry};
ghost use Rattle.cpa_composite.specs.Components.{Component, AreElems, ArePrecisions};
ghost use Rattle.cpa_composite.specs.Composites.{components};
ghost use Rattle.cpa_composite.specs.Covers.{all_cover};
ghost use Rattle.cpa_reached.specs.Entries.{IsLive, numbers};
ghost use Rattle.cpa_reached.specs.Members.{IsIn};
ghost use Rattle.cpa_reached.specs.Passed.{LeavesOut};
ghost use Rattle.cpa_engine_turn.specs.Keys.{HasPlaces};
ghost use Rattle.cpa_engine_turn.specs.Stages.{Compares, ComparesAll, under, first_cover};
ghost use Rattle.cpa_engine_turn.specs.Stages.{covered_or_added};
ghost use Rattle.cpa_engine_turn.specs.Stages.{Settles, SettlesAll};
ghost use Rattle.cpa_engine_turn.specs.Steps.{stage, IsOrdered, HasCurrent, MovesFrom};
ghost use Rattle.cpa_engine_turn.specs.Steps.{IsApartBy, IsOff, StaysSo};
ghost use Rattle.cpa_engine_turn.specs.Turns.{AreEntries};

use crate::work::Work;
use cpa_composite::Composite;
use cpa_iface::{Analysis, Precision};
use cpa_model::{Cfa, Elem};
use cpa_reached::{Mark, Reached, watch};
use cpa_reached_key::Key;
use std::alloc::{AllocError, Global};

/// The mark of a successor, where it is that of an element which is kept apart.
fn watched<A: Analysis>(composite: &Composite<A>, successor: &[Elem]) -> Option<Mark>
    requires { length successor.now ≡ length (components composite.now) }
    ensures { IfSome result (IsApartBy (components composite.now) successor.now) }
{
    match watch(successor) {
        Some(mark) => {
            if composite.is_apart(mark.place) {
                Some(mark)
            } else {
                None
            }
        }
        None => None,
    }
}

/// The numbers of the entries under the key that the mark does not tell apart: any other neither
/// merges nor covers.
fn left_under(reached: &Reached, key: &Key, mark: Option<Mark>) -> Result<Vec<u32>, AllocError>
    ensures { (cs : List Component) (row : List AnElem) → IfSome mark (IsApartBy cs row)
        → IfOk result (λ left. LeavesOut (IsOff cs row reached.now.live)
        (numbers (under reached.now key.now.elems)) left.items) }
{
    let left = reached.left_under(key, mark)?;
    Ok(left)
}

/// The same numbers where nothing has changed since, or else what a new look gives.
fn left_after(
    reached: &Reached,
    key: &Key,
    mark: Option<Mark>,
    left: Vec<u32>,
    is_changed: bool,
) -> Result<Vec<u32>, AllocError>
    ensures { (cs : List Component) (row : List AnElem) → IfSome mark (IsApartBy cs row)
        → (is_changed ≡ false → LeavesOut (IsOff cs row reached.now.live)
        (numbers (under reached.now key.now.elems)) left.items)
        → IfOk result (λ later. LeavesOut (IsOff cs row reached.now.live)
        (numbers (under reached.now key.now.elems)) later.items) }
{
    if is_changed {
        let later = left_under(reached, key, mark)?;
        Ok(later)
    } else {
        Ok(left)
    }
}

/// Merges the successor into the entry of this number, and tells whether that one gave way. Under a
/// key where it stands the others stay in order, and what takes its place is the last one.
fn merge_into<A: Analysis>(
    alloc: Global,
    cfa: &Cfa,
    composite: &mut Composite<A>,
    reached: &mut Reached,
    work: &mut Work,
    number: u32,
    successor: &[Elem],
    precisions: &[Precision],
) -> Result<bool, AllocError>
    requires automaton { IsAutomaton cfa.now }
    requires entries { AreEntries cfa.now (length (components composite.old)) reached.old.live }
    requires places { HasPlaces (components composite.old) reached.old }
    requires live { IsLive reached.old.live number }
    requires successor { AreElems cfa.now (length (components composite.old)) successor.now }
    requires precisions { ArePrecisions cfa.now (length (components composite.old))
        precisions.now }
    ensures compares { OnOk result (Compares cfa.now (components composite.old) successor.now
        precisions.now number (stage reached.old work.old) (stage reached.new work.new)) }
    ensures moves { (key : List AnElem) (place : ℕ)
        → slice_get (numbers (under reached.old key)) place ≡ Some number
        → OnOk result (MovesFrom (numbers (under reached.old key))
        (numbers (under reached.new key)) place) }
    ensures stays { OnOk result (StaysSo reached.old reached.new) }
    ensures same { IfOk result (λ gave_way. gave_way ≡ false → reached.new ≡ reached.old) }
    ensures kept { components composite.new ≡ components composite.old }
{
    let old = reached.entry(number).elems.as_slice();
    match composite.merge(alloc, cfa, successor, old, precisions)? {
        Some(merged) => {
            let next = reached.replace(number, merged)?;
            work.note_replaced(number, next)?;
            Ok(true)
        }
        None => Ok(false),
    }
}

/// Merges the successor into each entry that stands under the key now, in order of numbers, and
/// tells whether one gave way. Only those that are left are looked at.
fn compare<A: Analysis>(
    alloc: Global,
    cfa: &Cfa,
    composite: &mut Composite<A>,
    reached: &mut Reached,
    work: &mut Work,
    _key: &Key,
    left: &[u32],
    successor: &[Elem],
    precisions: &[Precision],
) -> Result<bool, AllocError>
    requires automaton { IsAutomaton cfa.now }
    requires entries { AreEntries cfa.now (length (components composite.old)) reached.old.live }
    requires places { HasPlaces (components composite.old) reached.old }
    requires ordered { IsOrdered reached.old }
    requires left { LeavesOut (IsOff (components composite.old) successor.now reached.old.live)
        (numbers (under reached.old _key.now.elems)) left.now }
    requires successor { AreElems cfa.now (length (components composite.old)) successor.now }
    requires precisions { ArePrecisions cfa.now (length (components composite.old))
        precisions.now }
    ensures compares { OnOk result (ComparesAll cfa.now (components composite.old) successor.now
        precisions.now (numbers (under reached.old _key.now.elems)) (stage reached.old work.old)
        (stage reached.new work.new)) }
    ensures same { IfOk result (λ is_changed. is_changed ≡ false → reached.new ≡ reached.old) }
    ensures kept { components composite.new ≡ components composite.old }
{
    let mut is_changed = false;
    for number in left {
        if merge_into(
            alloc, cfa, composite, reached, work, *number, successor, precisions,
        )? {
            is_changed = true;
        }
    }
    Ok(is_changed)
}

/// Whether the entry of the number covers the elements.
fn covers<A: Analysis>(
    composite: &Composite<A>,
    reached: &Reached,
    number: u32,
    elems: &[Elem],
) -> bool
    requires { IsLive reached.now.live number }
    ensures { (e : AnEntry) → IsIn e reached.now.live → e.number ≡ number
        → result ≡ all_cover (components composite.now) elems.now e.elems }
{
    let entry = reached.entry(number);
    composite.covered_by(elems, entry.elems.as_slice())
}

/// The number of the first entry under the key that covers the elements. Only those that are left
/// are looked at.
fn covering<A: Analysis>(
    composite: &Composite<A>,
    reached: &Reached,
    _key: &Key,
    left: &[u32],
    elems: &[Elem],
) -> Option<u32>
    requires { LeavesOut (IsOff (components composite.now) elems.now reached.now.live)
        (numbers (under reached.now _key.now.elems)) left.now }
    ensures { result ≡ first_cover (components composite.now) elems.now
        (under reached.now _key.now.elems) }
{
    for number in left {
        if covers(composite, reached, *number, elems) {
            return Some(*number);
        }
    }
    None
}

/// Notes the first entry under the key that covers the successor as a use, or else adds the
/// successor.
fn cover_or_add<A: Analysis>(
    composite: &Composite<A>,
    reached: &mut Reached,
    work: &mut Work,
    key: &Key,
    left: &[u32],
    edge: u32,
    successor: Vec<Elem>,
    precisions: Vec<Precision>,
) -> Result<(), AllocError>
    requires current { HasCurrent (stage reached.old work.old) }
    requires left { LeavesOut (IsOff (components composite.now) successor.items reached.old.live)
        (numbers (under reached.old key.now.elems)) left.now }
    ensures { OnOk result (stage reached.new work.new ≡ covered_or_added successor.items
        precisions.items edge (first_cover (components composite.now) successor.items
        (under reached.old key.now.elems)) (stage reached.old work.old)) }
{
    match covering(composite, reached, key, left, &successor) {
        Some(by) => reached.note_use(work.current, by),
        None => {
            let number = reached.add(successor, precisions, (work.current, edge))?;
            work.note_added(number)
        }
    }
}

/// One successor by an edge.
fn settle<A: Analysis>(
    alloc: Global,
    cfa: &Cfa,
    composite: &mut Composite<A>,
    reached: &mut Reached,
    work: &mut Work,
    edge: u32,
    successor: &[Elem],
    precisions: &[Precision],
) -> Result<(), AllocError>
    requires automaton { IsAutomaton cfa.now }
    requires entries { AreEntries cfa.now (length (components composite.old)) reached.old.live }
    requires places { HasPlaces (components composite.old) reached.old }
    requires ordered { IsOrdered reached.old }
    requires current { HasCurrent (stage reached.old work.old) }
    requires successor { AreElems cfa.now (length (components composite.old)) successor.now }
    requires precisions { ArePrecisions cfa.now (length (components composite.old))
        precisions.now }
    ensures settles { OnOk result (Settles cfa.now (components composite.old) precisions.now edge
        successor.now (stage reached.old work.old) (stage reached.new work.new)) }
    ensures kept { components composite.new ≡ components composite.old }
{
    let live = reached.live();
    let (elems, precisions) = composite.adjust(alloc, cfa, successor, precisions, live)?;
    let key = reached.key_of(&elems)?;
    let mark = watched(composite, &elems);
    let left = left_under(reached, &key, mark)?;
    let is_changed = compare(
        alloc,
        cfa,
        composite,
        reached,
        work,
        &key,
        &left,
        &elems,
        &precisions,
    )?;
    let later = left_after(reached, &key, mark, left, is_changed)?;
    cover_or_add(
        composite, reached, work, &key, &later, edge, elems, precisions,
    )
}

/// The successors by an edge, one after another.
pub(crate) fn settle_all<A: Analysis>(
    alloc: Global,
    cfa: &Cfa,
    composite: &mut Composite<A>,
    reached: &mut Reached,
    work: &mut Work,
    edge: u32,
    successors: &[Vec<Elem>],
    precisions: &[Precision],
) -> Result<(), AllocError>
    requires automaton { IsAutomaton cfa.now }
    requires entries { AreEntries cfa.now (length (components composite.old)) reached.old.live }
    requires places { HasPlaces (components composite.old) reached.old }
    requires ordered { IsOrdered reached.old }
    requires current { HasCurrent (stage reached.old work.old) }
    requires edge { edge < length cfa.now.edges }
    requires successors { AllByRecursion (AreElems cfa.now (length (components composite.old)))
        (map (λ row. row.items) successors.now) }
    requires precisions { ArePrecisions cfa.now (length (components composite.old))
        precisions.now }
    ensures settles { OnOk result (SettlesAll cfa.now (components composite.old) precisions.now edge
        (map (λ row. row.items) successors.now) (stage reached.old work.old)
        (stage reached.new work.new)) }
    ensures kept { components composite.new ≡ components composite.old }
{
    for successor in successors {
        settle(
            alloc, cfa, composite, reached, work, edge, successor, precisions,
        )?;
    }
    Ok(())
}
