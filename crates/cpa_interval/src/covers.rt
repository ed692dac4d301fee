//! When one element covers another, by `specs/Covers.antt`. Facts are looked for in the order in
//! which they stand: where two elements have one order, it takes one walk. Proved with `PlaceLaws`
//! of `cpa_iface`.

ghost use Rattle.std.specs.Prelude.{◌≡◌, ◌≤◌, Some, drop, length, slice_get, is_some, IfSome};
ghost use Rattle.cpa_facts.specs.declared.fact.Fact.{Fact as AFact};
ghost use Rattle.cpa_interval.specs.Covers.{keeps_within, says, has_covered, covers};

use cpa_model::{Elem, Fact, Facts, same_fact};

/// Whether each fact of the other element is said by one of the element. It is linear where the
/// facts that say them stand in one order with them.
pub(crate) fn covers(elem: &Elem, other: &Elem) -> bool
    ensures { result ≡ covers elem.now other.now }
{
    let mut next = 0;
    for fact in &other.facts {
        match behind_saying(&elem.facts, next, fact) {
            Some(place) => next = place,
            None => return false,
        }
    }
    true
}

/// The place behind one at which a fact says it, looked for from the place `from` on, and then
/// among all.
fn behind_saying(facts: &Facts, from: usize, fact: &Fact) -> Option<usize>
    requires { from ≤ length facts.now }
    ensures within { IfSome result (λ place. place ≤ length facts.now) }
    ensures said { is_some result ≡ has_covered facts.now fact.now }
{
    match behind_first(facts, from, fact) {
        Some(place) => Some(place),
        None => behind_first(facts, 0, fact),
    }
}

/// The place behind the first one from `from` on at which a fact says it.
fn behind_first(facts: &Facts, from: usize, fact: &Fact) -> Option<usize>
    requires { from ≤ length facts.now }
    ensures within { IfSome result (λ place. place ≤ length facts.now) }
    ensures said { is_some result ≡ has_covered (drop from facts.now) fact.now }
{
    for place in from..facts.len() {
        if is_said_at(facts, place, fact) {
            return Some(place + 1);
        }
    }
    None
}

/// Whether the fact at the place says it.
fn is_said_at(facts: &Facts, place: usize, fact: &Fact) -> bool
    ensures { (own : AFact) → slice_get facts.now place ≡ Some own
        → result ≡ says fact.now own }
{
    match facts.get(place) {
        Some(own) => says(fact, own),
        None => false,
    }
}

/// Whether the second fact says what the first does.
fn says(fact: &Fact, own: &Fact) -> bool
    ensures { result ≡ says fact.now own.now }
{
    match fact {
        Fact::Within { cell, lo, hi } => keeps_within(*cell, *lo, *hi, own),
        _ => same_fact(own, fact),
    }
}

/// Whether the fact keeps the cell within these bounds.
fn keeps_within(cell: u32, lo: i128, hi: i128, fact: &Fact) -> bool
    ensures { result ≡ keeps_within cell lo hi fact.now }
{
    match fact {
        Fact::Within {
            cell: own,
            lo: low,
            hi: high,
        } => *own == cell && lo <= *low && *high <= hi,
        _ => false,
    }
}
