//! What lies below an entry goes, and what used it waits again. What is left stands in
//! `specs/Removal.antt`.

ghost use Rattle.std.specs.Prelude.{◌≡◌, ℕ, List, length, IfOk, OnErr, OnOk};
ghost use Rattle.std.specs.List.{AllByRecursion, filter};
ghost use Rattle.cpa_iface.specs.declared.entries.Entry.{Entry as AnEntry};
ghost use Rattle.cpa_model.specs.Ascending.{AreAscending};
ghost use Rattle.cpa_reached.specs.Entries.{IsLive, numbers};
ghost use Rattle.cpa_reached.specs.Indexes.{AreKeysOf, IsIndex};
ghost use Rattle.cpa_reached.specs.Removal.{AreBelow, RemovesBelow, is_opened, without};
ghost use Rattle.cpa_reached.specs.Kept.{without_links};
ghost use Rattle.cpa_reached.specs.Tables.{IsKeptTable, IsIndexedTable};

use crate::finding::entry;
use crate::index::leave;
use crate::levels::below;
use crate::links::Link;
use crate::opening::{open_all, reopened, waiting_after};
use crate::table::Table;
use cpa_iface::Entry;
use cpa_reached_key::{Key, key_of};
use cpa_reached_opening::is_gone;
use indexmap::IndexMap;
use std::alloc::{AllocError, Global};

/// The entries that go are taken out, and the others keep their order.
fn drop_entries(entries: &mut Vec<Entry>, gone: &[u32])
    requires { AreAscending gone.now }
    ensures { entries.new.items ≡ without gone.now entries.old.items }
{
    entries.retain(|entry| !is_gone(gone, entry.number));
}

/// So is what is kept of them.
fn drop_links(links: &mut Vec<Link>, gone: &[u32])
    requires { AreAscending gone.now }
    ensures { links.new.items ≡ without_links gone.now links.old.items }
{
    links.retain(|link| !is_gone(gone, link.number));
}

/// The key of each of these entries.
fn keys_of(
    entries: &[Entry],
    alloc: Global,
    places: &[u32],
    gone: &[u32],
) -> Result<Vec<Key>, AllocError>
    requires ascend { AreAscending (numbers entries.now) }
    requires live { AllByRecursion (IsLive entries.now) gone.now }
    ensures { IfOk result (λ keys. AreKeysOf places.now entries.now gone.now keys.items) }
{
    let mut keys = Vec::new(alloc);
    for number in gone {
        let elems = entry(entries, *number).elems.as_slice();
        let key = key_of(alloc, places, elems)?;
        keys.push(key)?;
    }
    Ok(keys)
}

/// The numbers that go stand under their keys no more. It takes no memory.
fn leave_all(index: &mut IndexMap<Key, Vec<u32>>, keys: &[Key], gone: &[u32])
    requires { length keys.now ≡ length gone.now }
    ensures { (places : List ℕ) (xs : List AnEntry) → IsIndex places xs index.old.entries
        → AreKeysOf places xs gone.now keys.now
        → IsIndex places (without gone.now xs) index.new.entries }
{
    for place in 0..gone.len() {
        leave(index, &keys[place], gone[place]);
    }
}

/// All memory is taken before the first change, so that where it runs out nothing has changed. It
/// gives the numbers of the entries that wait again.
pub(crate) fn remove_below(table: &mut Table, pivot: u32) -> Result<Vec<u32>, AllocError>
    requires kept { IsKeptTable table.old }
    requires indexed { IsIndexedTable table.old }
    requires pivot { IsLive table.old.entries.items pivot }
    ensures kept { IsKeptTable table.new }
    ensures indexed { IsIndexedTable table.new }
    ensures ok { OnOk result
        (RemovesBelow pivot table.old.entries.items table.new.entries.items) }
    ensures opened { (gone : List ℕ) → AreBelow pivot table.old.entries.items gone
        → IfOk result (λ opened. opened.items ≡ numbers (filter (is_opened gone pivot)
        (without gone table.old.entries.items))) }
    ensures err { OnErr result (table.new.entries.items ≡ table.old.entries.items) }
    ensures next { table.new.next ≡ table.old.next }
    ensures places { table.new.places ≡ table.old.places }
{
    let alloc = table.alloc;
    let gone = below(&table.entries, &table.links, alloc, pivot, table.next)?;
    let opened = reopened(&table.entries, &table.links, alloc, &gone, pivot)?;
    let waiting = waiting_after(&table.waiting, alloc, &gone, &opened)?;
    let keys = keys_of(&table.entries, alloc, table.places.as_slice(), &gone)?;
    leave_all(&mut table.index, &keys, &gone);
    drop_entries(&mut table.entries, &gone);
    drop_links(&mut table.links, &gone);
    open_all(&mut table.entries, alloc, &opened);
    table.waiting = waiting;
    Ok(opened)
}
