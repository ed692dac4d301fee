//! What two elements are merged to: the facts that both have (`merged_facts` of `cpa_iface`). Where
//! the new one has its facts in the order of the cells, each fact of the old one can stand at one
//! place alone. Proved with `proofs/MergingLemmas.antt`.

ghost use Rattle.std.specs.Prelude.{◌≡◌, ℕ, true, slice_get, IfOk};
ghost use Rattle.std.specs.List.{filter};
ghost use Rattle.std.specs.Option.{option_copied};
ghost use Rattle.cpa_iface.specs.Common.{merged_facts, stands_in};
ghost use Rattle.cpa_value_changes.specs.Tables.{are_ordered, place_in};
ghost use Rattle.cpa_value.specs.Merging.{has_cell, stands_at};

use cpa_iface::{MergeRule, merge_facts};
use cpa_model::{Cfa, Elem, Fact, Facts, Seq, copy_fact, same_fact};
use cpa_value_changes::{are_ordered, place_of};
use std::alloc::{AllocError, Global};

/// What takes the place of the old element where the new one has come.
pub(crate) fn merged(
    alloc: Global,
    cfa: &Cfa,
    rule: MergeRule,
    new: &Elem,
    old: &Elem,
) -> Result<Elem, AllocError>
    ensures { IfOk result (λ e. e ≡ merged_facts rule new.now old.now) }
{
    let count = cfa.cells.len();
    match rule {
        MergeRule::Join | MergeRule::Widen if are_ordered(&new.facts, count) => {
            common_in_order(alloc, &new.facts, count, old)
        }
        _ => merge_facts(alloc, rule, new, old),
    }
}

/// The facts of the old element that stand among these, which are in the order of the cells. It is
/// linear where those of the old one are of the same cells, in that order.
fn common_in_order(
    alloc: Global,
    new: &Facts,
    _count: usize,
    old: &Elem,
) -> Result<Elem, AllocError>
    requires { are_ordered _count 0 new.now ≡ true }
    ensures { IfOk result (λ e. e.facts ≡ filter (stands_in new.now) old.now.facts) }
{
    let mut facts = Seq::new(alloc);
    let mut near = 0;
    for fact in &old.facts {
        let place = place_for(new, near, fact);
        if stands_at(new, place, fact) {
            facts.push(copy_fact(alloc, fact)?)?;
        }
        near = place.saturating_add(1);
    }
    Elem::new(alloc, facts)
}

/// The one place at which the fact can stand among these, where they are in the order of the cells.
/// It is looked for at `near` first.
fn place_for(facts: &Facts, near: usize, fact: &Fact) -> usize
    ensures { (n : ℕ) → are_ordered n 0 facts.now ≡ true
        → stands_at (slice_get facts.now result) fact.now ≡ stands_in facts.now fact.now }
{
    match fact {
        Fact::Equals { cell, .. } => place_near(facts, near, *cell as usize),
        _ => facts.len(),
    }
}

/// How many facts stand before those of the cell and of later ones, where they are in order: it is
/// seen at once where `near` is the place of the cell, and else found by halving.
fn place_near(facts: &Facts, near: usize, cell: usize) -> usize
    ensures { (n : ℕ) → are_ordered n 0 facts.now ≡ true → result ≡ place_in cell facts.now }
{
    if has_cell(facts.get(near), cell) {
        near
    } else {
        place_of(facts, cell)
    }
}

/// Whether the fact says a value of the cell.
fn has_cell(fact: Option<&Fact>, cell: usize) -> bool
    ensures { result ≡ has_cell cell (option_copied fact.entry) }
{
    match fact {
        Some(Fact::Equals { cell: own, .. }) => *own as usize == cell,
        _ => false,
    }
}

/// Whether the fact stands at the place.
fn stands_at(facts: &Facts, place: usize, fact: &Fact) -> bool
    ensures { result ≡ stands_at (slice_get facts.now place) fact.now }
{
    match facts.get(place) {
        Some(own) => same_fact(own, fact),
        None => false,
    }
}
