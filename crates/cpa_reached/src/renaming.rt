//! How an entry takes the place of another, and those that name the old one name the new one. What
//! each function does stands in `specs/Calls.antt` and `specs/Kept.antt`.

ghost use Rattle.std.specs.Prelude.{◌≡◌, ℕ, ◌<◌, ◌++◌, Some, length, map, slice_get};
ghost use Rattle.std.specs.Prelude.{vec_capacity, vec_len};
ghost use Rattle.cpa_model.specs.Ascending.{AreAscending};
ghost use Rattle.cpa_reached.specs.Entries.{numbers};
ghost use Rattle.cpa_reached.specs.Calls.{at_number, rename, rename_parent, renamed, replacing};
ghost use Rattle.cpa_reached.specs.Calls.{others, those};
ghost use Rattle.cpa_reached.specs.Kept.{renamed_among, link_numbers, other_links, those_links};
ghost use Rattle.cpa_reached.specs.Kept.{renumbered};

use crate::finding::place_of;
use crate::links::Link;
use crate::lists::trimmed;
use cpa_iface::{Entry, FewNumbers};
use cpa_model::Elem;
use std::alloc::Global;

/// The next number in place of the old one; any other stays.
fn rename(old: u32, next: u32, number: u32) -> u32
    ensures { result ≡ rename old next number }
{
    if number == old { next } else { number }
}

/// So with the number of a parent; the edge from it stays.
fn rename_parent(old: u32, next: u32, parent: Option<(u32, u32)>) -> Option<(u32, u32)>
    ensures { result ≡ rename_parent old next parent }
{
    match parent {
        Some((number, edge)) => Some((rename(old, next, number), edge)),
        None => None,
    }
}

/// So with each of the uses. It takes no memory.
fn rename_uses(old: u32, next: u32, uses: &mut FewNumbers)
    ensures { uses.new ≡ map (rename old next) uses.old }
{
    for place in 0..uses.len() {
        let number = rename(old, next, uses.as_slice()[place]);
        uses.put(place, number);
    }
}

/// The entry names the next one where it named the old one. It takes no memory.
fn rename_in(entry: &mut Entry, old: u32, next: u32)
    ensures { entry.new ≡ renamed old next entry.old }
{
    entry.parent = rename_parent(old, next, entry.parent);
    rename_uses(old, next, &mut entry.uses);
}

/// So does the entry of this number, where it is there.
fn rename_at(entries: &mut Vec<Entry>, namer: u32, old: u32, next: u32)
    requires { AreAscending (numbers entries.old.items) }
    ensures { entries.new.items ≡ at_number namer (renamed old next) entries.old.items }
{
    match place_of(entries, namer) {
        Some(place) => rename_in(&mut entries[place], old, next),
        None => {}
    }
}

/// So do the entries of these numbers.
pub(crate) fn rename_among(entries: &mut Vec<Entry>, namers: &[u32], old: u32, next: u32)
    requires ascend { AreAscending (numbers entries.old.items) }
    requires apart { old < next }
    ensures { entries.new.items ≡ map (renamed_among namers.now old next) entries.old.items }
{
    for namer in namers {
        rename_at(entries, *namer, old, next);
    }
}

/// The entry at this place gives way to one of a new number, which stands last.
pub(crate) fn succeed(
    entries: &mut Vec<Entry>,
    alloc: Global,
    place: usize,
    number: u32,
    elems: Vec<Elem>,
)
    requires ascend { AreAscending (numbers entries.old.items) }
    requires within { place < length entries.old.items }
    requires room { vec_len entries.old < vec_capacity entries.old }
    ensures { (n : ℕ) → slice_get (numbers entries.old.items) place ≡ Some n
        → entries.new.items ≡ others n entries.old.items
        ++ map (replacing number elems.items) (those n entries.old.items) }
{
    let entry = entries.remove(place);
    entries.push_reserved(Entry {
        number,
        elems: trimmed(elems),
        precisions: entry.precisions,
        parent: entry.parent,
        uses: FewNumbers::new(alloc),
        waiting: true,
    });
}

/// So does what is kept of it.
pub(crate) fn renumber(links: &mut Vec<Link>, place: usize, number: u32)
    requires ascend { AreAscending (link_numbers links.old.items) }
    requires within { place < length links.old.items }
    requires room { vec_len links.old < vec_capacity links.old }
    ensures { (n : ℕ) → slice_get (link_numbers links.old.items) place ≡ Some n
        → links.new.items ≡ other_links n links.old.items
        ++ map (renumbered number) (those_links n links.old.items) }
{
    let mut link = links.remove(place);
    link.number = number;
    links.push_reserved(link);
}
