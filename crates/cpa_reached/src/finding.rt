//! How an entry is found by its number, by halving, and changed in its place. Each function is a
//! word of `specs/Calls.antt`.

ghost use Rattle.std.specs.Prelude.{◌≡◌, ℕ, ◌<◌, ◌≤◌, false, List, [], ◌∷◌, ◌++◌, Some, length};
ghost use Rattle.std.specs.Prelude.{slice_get, slice_index_or, vec_capacity, OnOk, OnErr, IfSome};
ghost use Rattle.std.specs.Prelude.{IfNone, IsTrue, ◌↔◌};
ghost use Rattle.std.specs.List.Sorted.{IsNonDecreasingBy};
ghost use Rattle.cpa_iface.specs.declared.entries.Entry.{Entry as AnEntry};
ghost use Rattle.cpa_model.specs.Ascending.{AreAscending};
ghost use Rattle.cpa_reached.specs.Members.{IsIn, is_in};
ghost use Rattle.cpa_reached.specs.Entries.{numbers, IsLive};
ghost use Rattle.cpa_reached.specs.Calls.{at_number, rests, gains, with_precisions};

use crate::lists::trimmed;
use cpa_iface::{Entry, Precision, Row};
use std::alloc::AllocError;

/// How many entries have lower numbers.
fn first_from(entries: &[Entry], number: u32) -> usize
    requires { IsNonDecreasingBy (λ (e : AnEntry). e.number) entries.now }
    ensures bound { result ≤ length entries.now }
    ensures before { (k : ℕ) (d : AnEntry) → k < result
        → (slice_index_or entries.now k d).number < number }
    ensures from { (k : ℕ) (d : AnEntry) → result ≤ k → k < length entries.now
        → number ≤ (slice_index_or entries.now k d).number }
{
    entries.partition_point(|entry| entry.number < number)
}

/// The place of the entry of this number, which is there: the number itself as long as no entry of
/// a lower number has gone.
#[tactic(auto, using(crate::proofs::Keys::at_within))]
pub(crate) fn place(entries: &[Entry], number: u32) -> usize
    requires ascend { AreAscending (numbers entries.now) }
    requires live { IsLive entries.now number }
    ensures at { slice_get (numbers entries.now) result ≡ Some number }
    ensures within { result < length entries.now }
{
    if is_at(entries, number as usize, number) {
        number as usize
    } else {
        halved(entries, number)
    }
}

/// The place of the entry of this number, which is there, by halving.
fn halved(entries: &[Entry], number: u32) -> usize
    requires ascend { AreAscending (numbers entries.now) }
    requires live { IsLive entries.now number }
    ensures at { slice_get (numbers entries.now) result ≡ Some number }
    ensures within { result < length entries.now }
{
    first_from(entries, number)
}

/// The entry of this number, which is there.
pub(crate) fn entry(entries: &[Entry], number: u32) -> &Entry
    requires ascend { AreAscending (numbers entries.now) }
    requires live { IsLive entries.now number }
    ensures is_in { IsIn result.now entries.now }
    ensures number { result.now.number ≡ number }
{
    &entries[place(entries, number)]
}

/// Whether the entry at this place is there, and has the number.
fn is_at(entries: &[Entry], place: usize, number: u32) -> bool
    ensures { IsTrue result ↔ (slice_get (numbers entries.now) place ≡ Some number) }
{
    match entries.get(place) {
        Some(entry) => entry.number == number,
        None => false,
    }
}

/// The place of the entry of this number, where it is there.
pub(crate) fn place_of(entries: &[Entry], number: u32) -> Option<usize>
    requires { AreAscending (numbers entries.now) }
    ensures some { IfSome result (λ i. slice_get (numbers entries.now) i ≡ Some number) }
    ensures within { IfSome result (λ i. i < length entries.now) }
    ensures none { IfNone result (is_in number (numbers entries.now) ≡ false) }
{
    let place = first_from(entries, number);
    if is_at(entries, place, number) {
        return Some(place);
    }
    None
}

/// The parent of the entry of this number, with the edge from it.
pub(crate) fn parent_of(entries: &[Entry], number: u32) -> Option<(u32, u32)>
    requires ascend { AreAscending (numbers entries.now) }
    requires live { IsLive entries.now number }
    ensures { (e : AnEntry) → IsIn e entries.now → e.number ≡ number → result ≡ e.parent }
{
    entries[place(entries, number)].parent
}

/// The entry of this number does not wait any more.
pub(crate) fn rest(entries: &mut Vec<Entry>, number: u32)
    requires ascend { AreAscending (numbers entries.old.items) }
    requires live { IsLive entries.old.items number }
    ensures { entries.new.items ≡ at_number number rests entries.old.items }
{
    let at = place(entries, number);
    entries[at].waiting = false;
}

/// Notes a use. Where memory runs out nothing has changed.
pub(crate) fn gain(entries: &mut Vec<Entry>, number: u32, by: u32) -> Result<(), AllocError>
    requires ascend { AreAscending (numbers entries.old.items) }
    requires live { IsLive entries.old.items number }
    ensures ok { OnOk result (entries.new.items ≡ at_number number (gains by) entries.old.items) }
    ensures err { OnErr result (entries.new.items ≡ entries.old.items) }
    ensures capacity { vec_capacity entries.new ≡ vec_capacity entries.old }
{
    let at = place(entries, number);
    entries[at].uses.push(by)
}

/// Takes back a use that was just noted. It takes no memory.
pub(crate) fn lose(entries: &mut Vec<Entry>, number: u32)
    requires ascend { AreAscending (numbers entries.old.items) }
    requires live { IsLive entries.old.items number }
    ensures items { (xs : List AnEntry) (by : ℕ)
        → entries.old.items ≡ at_number number (gains by) xs → entries.new.items ≡ xs }
    ensures capacity { vec_capacity entries.new ≡ vec_capacity entries.old }
{
    let at = place(entries, number);
    entries[at].uses.pop();
}

/// The entry of this number has these precisions in place of its own.
pub(crate) fn put_precisions(entries: &mut Vec<Entry>, number: u32, precisions: Vec<Precision>)
    requires ascend { AreAscending (numbers entries.old.items) }
    requires live { IsLive entries.old.items number }
    ensures { entries.new.items ≡
        at_number number (with_precisions precisions.items) entries.old.items }
{
    let at = place(entries, number);
    entries[at].precisions = Row::own(trimmed(precisions));
}
