//! What bounds of cells, and facts that hold, say of the facts of an element, by
//! `specs/Saying.antt`. Proved with `proofs/Said.antt`.

ghost use Rattle.std.specs.Prelude.{◌≡◌, ◌<◌, ℤ, List, IsTrue, Some, length, map, slice_get};
ghost use Rattle.std.specs.List.{list_any};
ghost use Rattle.cpa_expr.specs.Values.{HasTruth};
ghost use Rattle.cpa_model.specs.Standing.{same_fact};
ghost use Rattle.cpa_interval_bounds.specs.ExpressionBounds.{LieWithin};
ghost use Rattle.cpa_recheck_obligations.specs.Forms.{entry_at};
ghost use Rattle.cpa_recheck_bounds.specs.Exact.{lows_of};
ghost use Rattle.cpa_recheck_bounds.specs.Saying.{is_among, bounds_say, IsSaid, AreAllSaid};
ghost use Rattle.cpa_recheck_bounds.specs.Saying.{AreSaid};

use crate::exact::are_fixed;
use cpa_expr::{Expr, Store, same_expr, value_depends_on_what_is_read};
use cpa_interval_bounds::{Bounds, KnownBounds};
use cpa_model::{Elem, Fact, has_truth};

/// Whether all numbers of the cell are among these.
fn is_among(other: Bounds, all: &KnownBounds, cell: u32) -> bool
    ensures { result ≡ is_among other (slice_get all.now.each cell) }
{
    match all.at(cell as usize) {
        None => false,
        Some(own) => own.is_inside(other),
    }
}

/// Whether the fact is this truth of the expression.
fn is_truth(fact: &Fact, e: &Expr, holds: bool) -> bool
    ensures { result ≡ same_fact (Fact.Truth e.now holds) fact.now }
{
    match fact {
        Fact::Truth { expr, holds: own } => same_expr(e, expr) && holds == *own,
        _ => false,
    }
}

/// Whether this truth of the expression is one of the element's facts.
pub(crate) fn says_truth(elem: &Elem, e: &Expr, holds: bool) -> bool
    ensures { result ≡ list_any (same_fact (Fact.Truth e.now holds)) elem.now.facts }
{
    elem.facts.iter().any(|own| is_truth(own, e, holds))
}

/// Whether the bounds determine the value of the expression, and it has this truth.
fn is_known(e: &Expr, holds: bool, all: &KnownBounds, lows: &Store) -> bool
    ensures { (store : List ℤ) → IsTrue result → lows.now.values ≡ lows_of all.now.each
        → LieWithin all.now.each store → HasTruth store e.now holds }
{
    value_depends_on_what_is_read();
    are_fixed(e, all) && has_truth(e, holds, lows)
}

/// Whether the bounds say a fact that is none on a truth.
fn bounds_say(all: &KnownBounds, fact: &Fact) -> bool
    ensures { result ≡ bounds_say all.now.each fact.now }
{
    match fact {
        Fact::At { .. } | Fact::Stack { .. } => true,
        Fact::Equals { cell, value } => is_among(Bounds::only(*value), all, *cell),
        Fact::Within { cell, lo, hi } => is_among(Bounds { lo: *lo, hi: *hi }, all, *cell),
        Fact::Truth { .. } => false,
    }
}

/// Whether the fact is a truth that is one of the element's facts, or that the bounds determine,
/// whose lower ends are these.
fn is_truth_said(all: &KnownBounds, lows: &Store, elem: &Elem, fact: &Fact) -> bool
    ensures { IsTrue result → lows.now.values ≡ lows_of all.now.each
        → IsSaid all.now.each elem.now fact.now }
{
    match fact {
        Fact::Truth { expr, holds } => {
            says_truth(elem, expr, *holds) || is_known(expr, *holds, all, lows)
        }
        _ => false,
    }
}

/// Whether the fact is said.
fn says(all: &KnownBounds, lows: &Store, elem: &Elem, fact: &Fact) -> bool
    ensures { IsTrue result → lows.now.values ≡ lows_of all.now.each
        → IsSaid all.now.each elem.now fact.now }
{
    bounds_say(all, fact) || is_truth_said(all, lows, elem, fact)
}

/// Whether each fact of the other element is said.
fn says_each(all: &KnownBounds, lows: &Store, elem: &Elem, other: &Elem) -> bool
    ensures { IsTrue result → lows.now.values ≡ lows_of all.now.each
        → AreAllSaid all.now.each elem.now other.now }
{
    for fact in &other.facts {
        if !says(all, lows, elem, fact) {
            return false;
        }
    }
    true
}

/// Whether each fact of the element with this number is said, if it is there.
fn says_all(all: &KnownBounds, lows: &Store, elem: &Elem, entries: &[Elem], number: u32) -> bool
    ensures { IsTrue result → lows.now.values ≡ lows_of all.now.each
        → AreAllSaid all.now.each elem.now (entry_at entries.now number) }
{
    match entries.get(number as usize) {
        None => false,
        Some(other) => says_each(all, lows, elem, other),
    }
}

/// The number at this place.
fn number_at(numbers: &[u32], place: usize) -> u32
    requires { place < length numbers.now }
    ensures { slice_get numbers.now place ≡ Some result }
{
    numbers[place]
}

/// Whether each fact of one of the elements with these numbers is said, so that one of them holds
/// on each store within the bounds on which the element does.
pub(crate) fn are_said(
    all: &KnownBounds,
    lows: &Store,
    elem: &Elem,
    entries: &[Elem],
    numbers: &[u32],
) -> bool
    ensures { IsTrue result → lows.now.values ≡ lows_of all.now.each
        → AreSaid all.now.each elem.now (map (entry_at entries.now) numbers.now) }
{
    for place in 0..numbers.len() {
        let number = number_at(numbers, place);
        if says_all(all, lows, elem, entries, number) {
            return true;
        }
    }
    false
}
