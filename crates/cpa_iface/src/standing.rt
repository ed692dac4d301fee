//! Whether facts stand in an element, looked for in the order in which they stand there: where two
//! elements have one order, it takes one walk. Proved with `specs/lemmas/PlaceLaws.antt`.

ghost use Rattle.std.specs.Prelude.{◌≡◌, ◌≤◌, Some, drop, length, slice_get, is_some, IfSome};
ghost use Rattle.cpa_facts.specs.declared.fact.Fact.{Fact as AFact};
ghost use Rattle.cpa_model.specs.Standing.{has_facts, same_fact};
ghost use Rattle.cpa_iface.specs.Common.{stands_in};

use cpa_model::{Elem, Fact, Facts, same_fact};

/// Whether each fact of `other` stands in `elem`: then each state of `elem` is one of `other`. It
/// is linear where the facts stand in one order.
pub fn covers(elem: &Elem, other: &Elem) -> bool
    ensures { result ≡ has_facts elem.now other.now }
{
    let mut next = 0;
    for fact in &other.facts {
        match behind_fact(&elem.facts, next, fact) {
            Some(place) => next = place,
            None => return false,
        }
    }
    true
}

/// The place behind one at which the fact stands, looked for from the place `from` on, and then
/// among all.
pub(crate) fn behind_fact(facts: &Facts, from: usize, fact: &Fact) -> Option<usize>
    requires { from ≤ length facts.now }
    ensures within { IfSome result (λ place. place ≤ length facts.now) }
    ensures stands { is_some result ≡ stands_in facts.now fact.now }
{
    match behind_first(facts, from, fact) {
        Some(place) => Some(place),
        None => behind_first(facts, 0, fact),
    }
}

/// The place behind the first one from `from` on at which the fact stands.
fn behind_first(facts: &Facts, from: usize, fact: &Fact) -> Option<usize>
    requires { from ≤ length facts.now }
    ensures within { IfSome result (λ place. place ≤ length facts.now) }
    ensures stands { is_some result ≡ stands_in (drop from facts.now) fact.now }
{
    for place in from..facts.len() {
        if stands_at(facts, place, fact) {
            return Some(place + 1);
        }
    }
    None
}

/// Whether the fact stands at the place.
fn stands_at(facts: &Facts, place: usize, fact: &Fact) -> bool
    ensures { (own : AFact) → slice_get facts.now place ≡ Some own
        → result ≡ same_fact own fact.now }
{
    match facts.get(place) {
        Some(own) => same_fact(own, fact),
        None => false,
    }
}
