//! Which entries wait again once others are gone: the pivot, and those that used what goes. They
//! are found among the namers of what goes.

ghost use Rattle.std.specs.Prelude.{◌≡◌, ◌++◌, ℕ, map, not, true, IfOk};
ghost use Rattle.std.specs.List.{AllByRecursion, filter};
ghost use Rattle.cpa_model.specs.Ascending.{AreAscending};
ghost use Rattle.cpa_reached.specs.Members.{is_in};
ghost use Rattle.cpa_reached.specs.Calls.{at_number};
ghost use Rattle.cpa_reached.specs.Entries.{IsLive, numbers};
ghost use Rattle.cpa_reached.specs.Removal.{opened};
ghost use Rattle.cpa_reached.specs.Kept.{IsTree, is_named_by, opened_among, waits_again};

use crate::finding::{place, place_of};
use crate::levels::{namers_of, put_in_order};
use crate::links::Link;
use cpa_iface::Entry;
use cpa_reached_opening::{is_gone, open_entry, waits_again};
use std::alloc::{AllocError, Global};
use std::collections::VecDeque;

/// Whether the entry of this number is there, stays and waits again.
fn is_reopened(entries: &[Entry], gone: &[u32], pivot: u32, number: u32) -> bool
    requires entries { AreAscending (numbers entries.now) }
    requires gone { AreAscending gone.now }
    ensures { result ≡ is_in number (numbers (filter (waits_again gone.now pivot) entries.now)) }
{
    match place_of(entries, number) {
        Some(place) => waits_again(&entries[place], gone, pivot),
        None => false,
    }
}

/// Of these numbers, those of the entries that wait again.
fn keep_reopened(found: &mut Vec<u32>, entries: &[Entry], gone: &[u32], pivot: u32)
    requires entries { AreAscending (numbers entries.now) }
    requires gone { AreAscending gone.now }
    ensures { found.new.items ≡ filter (λ n. is_in n
        (numbers (filter (waits_again gone.now pivot) entries.now))) found.old.items }
{
    found.retain(|number| is_reopened(entries, gone, pivot, *number));
}

/// Numbers among which are those of all entries that wait again, ascending.
fn candidates(
    entries: &[Entry],
    links: &[Link],
    alloc: Global,
    gone: &[u32],
    pivot: u32,
) -> Result<Vec<u32>, AllocError>
    requires tree { IsTree entries.now links.now }
    requires live { AllByRecursion (IsLive entries.now) gone.now }
    ensures ascend { IfOk result (λ found. AreAscending found.items) }
    ensures pivot { IfOk result (λ found. is_in pivot found.items ≡ true) }
    ensures all { (n m : ℕ) → is_in n gone.now ≡ true → is_named_by links.now n m ≡ true
        → IfOk result (λ found. is_in m found.items ≡ true) }
{
    let mut found = namers_of(entries, links, alloc, gone)?;
    found.push(pivot)?;
    put_in_order(&mut found)?;
    Ok(found)
}

/// The numbers of the kept entries that wait again, ascending.
pub(crate) fn reopened(
    entries: &[Entry],
    links: &[Link],
    alloc: Global,
    gone: &[u32],
    pivot: u32,
) -> Result<Vec<u32>, AllocError>
    requires tree { IsTree entries.now links.now }
    requires live { AllByRecursion (IsLive entries.now) gone.now }
    requires gone { AreAscending gone.now }
    ensures { IfOk result (λ found.
        found.items ≡ numbers (filter (waits_again gone.now pivot) entries.now)) }
{
    let mut found = candidates(entries, links, alloc, gone, pivot)?;
    keep_reopened(&mut found, entries, gone, pivot);
    Ok(found)
}

/// These numbers without those that go.
fn drop_gone(numbers: &mut Vec<u32>, gone: &[u32])
    requires { AreAscending gone.now }
    ensures { numbers.new.items ≡ filter (λ n. not (is_in n gone.now)) numbers.old.items }
{
    numbers.retain(|number| !is_gone(gone, *number));
}

/// The numbers that wait afterwards: those that waited and stay, and those that wait again.
pub(crate) fn waiting_after(
    waiting: &VecDeque<u32>,
    alloc: Global,
    gone: &[u32],
    opened: &[u32],
) -> Result<VecDeque<u32>, AllocError>
    requires { AreAscending gone.now }
    ensures ascend { IfOk result (λ after. AreAscending after.items) }
    ensures same { (n : ℕ) → IfOk result (λ after. is_in n after.items
        ≡ is_in n (filter (λ m. not (is_in m gone.now)) waiting.now.items ++ opened.now)) }
{
    let mut after = Vec::new(alloc);
    let (front, back) = waiting.as_slices();
    after.extend_from_slice(front)?;
    after.extend_from_slice(back)?;
    drop_gone(&mut after, gone);
    after.extend_from_slice(opened)?;
    put_in_order(&mut after)?;
    Ok(VecDeque::from_vec(after))
}

/// The entry of this number waits and uses nothing. It takes no memory.
fn open(entries: &mut Vec<Entry>, alloc: Global, number: u32)
    requires ascend { AreAscending (numbers entries.old.items) }
    requires live { IsLive entries.old.items number }
    ensures { entries.new.items ≡ at_number number opened entries.old.items }
{
    let at = place(entries, number);
    open_entry(&mut entries[at], alloc);
}

/// The entries of these numbers wait and use nothing. It takes no memory.
pub(crate) fn open_all(entries: &mut Vec<Entry>, alloc: Global, found: &[u32])
    requires ascend { AreAscending (numbers entries.old.items) }
    requires live { AllByRecursion (IsLive entries.old.items) found.now }
    ensures { entries.new.items ≡ map (opened_among found.now) entries.old.items }
{
    for number in found {
        open(entries, alloc, *number);
    }
}
