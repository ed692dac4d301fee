//! What lies below an entry, level by level. Only entries that are listed as namers are looked at,
//! so that it costs what is found and not what is there.

ghost use Rattle.std.specs.Prelude.{◌≡◌, ℕ, ◌<◌, ◌≤◌, true, Some, length, IfOk, OnOk};
ghost use Rattle.std.specs.Prelude.{slice_get};
ghost use Rattle.std.specs.List.{AllByRecursion, filter};
ghost use Rattle.cpa_model.specs.Ascending.{AreAscending};
ghost use Rattle.cpa_reached.specs.Members.{is_in};
ghost use Rattle.cpa_reached.specs.Entries.{IsLive, numbers};
ghost use Rattle.cpa_reached.specs.Removal.{IsBelow};
ghost use Rattle.cpa_reached.specs.Kept.{IsTree, has_parent_in, is_named_by};

use crate::finding::{place, place_of};
use crate::links::{Link, namers_at};
use cpa_iface::Entry;
use cpa_reached_opening::is_gone;
use std::alloc::{AllocError, Global};

/// The numbers in order, each once.
pub(crate) fn put_in_order(numbers: &mut Vec<u32>) -> Result<(), AllocError>
    ensures ascend { OnOk result (AreAscending numbers.new.items) }
    ensures same { (n : ℕ) → OnOk result
        (is_in n numbers.new.items ≡ is_in n numbers.old.items) }
{
    numbers.sort()?;
    numbers.dedup();
    Ok(())
}

/// The numbers that are listed as naming one of these, in whatever order.
fn listed_namers(
    entries: &[Entry],
    links: &[Link],
    alloc: Global,
    numbers: &[u32],
) -> Result<Vec<u32>, AllocError>
    requires tree { IsTree entries.now links.now }
    requires live { AllByRecursion (IsLive entries.now) numbers.now }
    ensures { (n m : ℕ) → is_in n numbers.now ≡ true → is_named_by links.now n m ≡ true
        → IfOk result (λ namers. is_in m namers.items ≡ true) }
{
    let mut namers = Vec::new(alloc);
    for number in numbers {
        let at = place(entries, *number);
        namers.extend_from_slice(namers_at(links, at))?;
    }
    Ok(namers)
}

/// The numbers that are listed as naming one of these, ascending.
pub(crate) fn namers_of(
    entries: &[Entry],
    links: &[Link],
    alloc: Global,
    numbers: &[u32],
) -> Result<Vec<u32>, AllocError>
    requires tree { IsTree entries.now links.now }
    requires live { AllByRecursion (IsLive entries.now) numbers.now }
    ensures ascend { IfOk result (λ namers. AreAscending namers.items) }
    ensures all { (n m : ℕ) → is_in n numbers.now ≡ true → is_named_by links.now n m ≡ true
        → IfOk result (λ namers. is_in m namers.items ≡ true) }
{
    let mut namers = listed_namers(entries, links, alloc, numbers)?;
    put_in_order(&mut namers)?;
    Ok(namers)
}

/// Whether the parent of the entry is one of these.
fn has_parent_in(entry: &Entry, parents: &[u32]) -> bool
    requires { AreAscending parents.now }
    ensures { result ≡ has_parent_in parents.now entry.now }
{
    match entry.parent {
        Some((parent, _)) => is_gone(parents, parent),
        None => false,
    }
}

/// Whether the entry of this number is there, and its parent is one of these.
fn is_child(entries: &[Entry], parents: &[u32], number: u32) -> bool
    requires entries { AreAscending (numbers entries.now) }
    requires parents { AreAscending parents.now }
    ensures { result ≡ is_in number (numbers (filter (has_parent_in parents.now) entries.now)) }
{
    match place_of(entries, number) {
        Some(place) => has_parent_in(&entries[place], parents),
        None => false,
    }
}

/// Of these numbers, those of the children of the parents.
fn keep_children(found: &mut Vec<u32>, entries: &[Entry], parents: &[u32])
    requires entries { AreAscending (numbers entries.now) }
    requires parents { AreAscending parents.now }
    ensures { found.new.items ≡ filter (λ n. is_in n
        (numbers (filter (has_parent_in parents.now) entries.now))) found.old.items }
{
    found.retain(|number| is_child(entries, parents, *number));
}

/// The numbers of the children of these entries, ascending.
fn children(
    entries: &[Entry],
    links: &[Link],
    alloc: Global,
    parents: &[u32],
) -> Result<Vec<u32>, AllocError>
    requires tree { IsTree entries.now links.now }
    requires live { AllByRecursion (IsLive entries.now) parents.now }
    requires ascend { AreAscending parents.now }
    ensures { IfOk result (λ found.
        found.items ≡ numbers (filter (has_parent_in parents.now) entries.now)) }
{
    let mut found = namers_of(entries, links, alloc, parents)?;
    keep_children(&mut found, entries, parents);
    Ok(found)
}

/// The numbers of all entries strictly below the pivot, level by level.
fn gathered(
    entries: &[Entry],
    links: &[Link],
    alloc: Global,
    pivot: u32,
    next: u64,
) -> Result<Vec<u32>, AllocError>
    requires tree { IsTree entries.now links.now }
    requires next { AllByRecursion (λ n. n < next) (numbers entries.now) }
    requires pivot { IsLive entries.now pivot }
    ensures all { (n : ℕ) → IsBelow entries.now pivot n
        → IfOk result (λ gone. is_in n gone.items ≡ true) }
    ensures only { IfOk result (λ gone. (n : ℕ) → is_in n gone.items ≡ true
        → IsBelow entries.now pivot n) }
{
    let mut gone = Vec::new(alloc);
    let mut level = Vec::new(alloc);
    level.push(pivot)?;
    for _deeper in 0..next {
        let found = children(entries, links, alloc, &level)?;
        if found.is_empty() {
            return Ok(gone);
        }
        gone.extend_from_slice(&found)?;
        level = found;
    }
    Ok(gone)
}

/// The numbers of all entries strictly below the pivot, ascending.
pub(crate) fn below(
    entries: &[Entry],
    links: &[Link],
    alloc: Global,
    pivot: u32,
    next: u64,
) -> Result<Vec<u32>, AllocError>
    requires tree { IsTree entries.now links.now }
    requires next { AllByRecursion (λ n. n < next) (numbers entries.now) }
    requires pivot { IsLive entries.now pivot }
    ensures ascend { IfOk result (λ gone. AreAscending gone.items) }
    ensures all { IfOk result (λ gone. (n : ℕ) → IsBelow entries.now pivot n
        → is_in n gone.items ≡ true) }
    ensures only { IfOk result (λ gone. (n : ℕ) → is_in n gone.items ≡ true
        → IsBelow entries.now pivot n) }
{
    let mut gone = gathered(entries, links, alloc, pivot, next)?;
    put_in_order(&mut gone)?;
    Ok(gone)
}
