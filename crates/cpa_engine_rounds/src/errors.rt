//! The least entry that may be an error, by `specs/Errors.antt`. Entries that were looked at are
//! not looked at again. Proved with `proofs/Finding.antt`.

ghost use Rattle.std.specs.Prelude.{◌≡◌, ℕ, ◌<◌, ◌≤◌, drop, length, List};
ghost use Rattle.std.specs.List.{list_any};
ghost use Rattle.std.specs.List.Sorted.{IsNonDecreasingBy};
ghost use Rattle.std.specs.Prelude.{slice_index_or};
ghost use Rattle.cpa_model.specs.Automata.{IsAutomaton};
ghost use Rattle.cpa_iface.specs.declared.entries.Entry.{Entry as AnEntry};
ghost use Rattle.cpa_reached.specs.Entries.{numbers};
ghost use Rattle.cpa_model.specs.Ascending.{AreAscending};
ghost use Rattle.cpa_reached.specs.Members.{IsIn};
ghost use Rattle.cpa_engine_rounds.specs.Errors.{stands_off, may_err, first_error, NoneErrBelow};

use cpa_iface::Entry;
use cpa_model::{Cfa, Elem, Fact, is_error};

/// Whether the fact is on a point that is no error.
fn stands_off(cfa: &Cfa, fact: &Fact) -> bool
    requires { IsAutomaton cfa.now }
    ensures { result ≡ stands_off cfa.now fact.now }
{
    match fact {
        Fact::At { point } => !is_error(cfa, *point),
        _ => false,
    }
}

/// Whether one of the element's facts is.
fn some_off(cfa: &Cfa, elem: &Elem) -> bool
    requires { IsAutomaton cfa.now }
    ensures { result ≡ list_any (stands_off cfa.now) elem.now.facts }
{
    elem.facts.iter().any(|fact| stands_off(cfa, fact))
}

/// Whether one of the elements has one.
fn row_off(cfa: &Cfa, elems: &[Elem]) -> bool
    requires { IsAutomaton cfa.now }
    ensures { result ≡ list_any (λ e. list_any (stands_off cfa.now) e.facts) elems.now }
{
    elems.iter().any(|elem| some_off(cfa, elem))
}

/// Whether a state of the row may stand at an error. Takes no memory.
pub fn may_err(cfa: &Cfa, elems: &[Elem]) -> bool
    requires { IsAutomaton cfa.now }
    ensures { result ≡ may_err cfa.now elems.now }
{
    !row_off(cfa, elems)
}

/// How many entries have lower numbers.
fn first_from(entries: &[Entry], number: u64) -> usize
    requires { IsNonDecreasingBy (λ (e : AnEntry). e.number) entries.now }
    ensures bound { result ≤ length entries.now }
    ensures before { (k : ℕ) (d : AnEntry) → k < result
        → (slice_index_or entries.now k d).number < number }
{
    entries.partition_point(|entry| (entry.number as u64) < number)
}

/// The number of the first of the entries that may be an error.
fn first_error(cfa: &Cfa, entries: &[Entry]) -> Option<u32>
    requires { IsAutomaton cfa.now }
    ensures { result ≡ first_error cfa.now entries.now }
{
    for entry in entries {
        if may_err(cfa, entry.elems.as_slice()) {
            return Some(entry.number);
        }
    }
    None
}

/// The number of the first entry that may be an error, where none of a lower number than the last
/// parameter is. Takes no memory.
pub fn least_error(cfa: &Cfa, entries: &[Entry], checked: u64) -> Option<u32>
    requires automaton { IsAutomaton cfa.now }
    requires ascend { AreAscending (numbers entries.now) }
    requires checked { NoneErrBelow cfa.now checked entries.now }
    ensures { result ≡ first_error cfa.now entries.now }
{
    first_error(cfa, &entries[first_from(entries, checked)..])
}

/// The least number above those of all entries. Takes no memory.
pub fn beyond(entries: &[Entry]) -> u64
    requires { AreAscending (numbers entries.now) }
    ensures above { (e : AnEntry) → IsIn e entries.now → e.number < result }
    ensures least { (n : ℕ) → ((e : AnEntry) → IsIn e entries.now → e.number < n) → result ≤ n }
{
    if entries.is_empty() {
        0
    } else {
        entries[entries.len() - 1].number as u64 + 1
    }
}
