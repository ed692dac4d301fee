//! The parts of a reached set, and each call on them. What the calls do stands in
//! `specs/Calls.antt`; what holds of the parts between calls, in `specs/Kept.antt`.

ghost use Rattle.std.specs.Prelude.{◌≡◌, ℕ, ◌+◌, ◌<◌, ◌≤◌, ◌^◌, [], ◌∷◌, ◌++◌, true, Some, None};
ghost use Rattle.std.specs.Prelude.{vec_len, vec_capacity, IfOk, OnOk, OnErr, IfSome, IfNone};
ghost use Rattle.std.specs.VecDeque.{deque_len, deque_capacity};
ghost use Rattle.std.specs.List.{AllByRecursion};
ghost use Rattle.cpa_iface.specs.declared.entries.Entry.{Entry as AnEntry};
ghost use Rattle.cpa_model.specs.Ascending.{AreAscending};
ghost use Rattle.cpa_reached.specs.Members.{IsIn};
ghost use Rattle.cpa_reached_key.specs.Rows.{picked};
ghost use Rattle.cpa_reached.specs.Entries.{numbers, IsLive, ComesFirst, IsNext, waiting_numbers};
ghost use Rattle.cpa_reached.specs.Calls.{at_number, fresh, rests, with_precisions, gains};
ghost use Rattle.cpa_reached.specs.Calls.{added_entries, replaced_entries};
ghost use Rattle.cpa_reached.specs.Indexes.{IsIndex};
ghost use Rattle.cpa_reached.specs.Kept.{is_named_by};
ghost use Rattle.cpa_reached.specs.Tables.{IsKeptTable, IsIndexedTable, but};

use crate::finding::{entry, gain, lose, parent_of, place, put_precisions, rest};
use crate::index::{enter, index_of, leave};
use crate::links::{Link, depth_at, name_at};
use crate::lists::{reserve_one, trimmed};
use crate::renaming::{rename_among, renumber, succeed};
use crate::sharing::{row_below, with_shared};
use cpa_iface::{Entry, FewNumbers, Order, Precision, Row};
use cpa_ints::Seq;
use cpa_model::Elem;
use cpa_reached_key::{Key, key_of};
use indexmap::IndexMap;
use std::alloc::{AllocError, Global};
use std::collections::VecDeque;

/// How many numbers there are.
pub const NUMBERS: u64 = 0x1_0000_0000;

/// Entries with their links, in order of numbers.
#[derive(Drop)]
pub(crate) struct Table {
    pub(crate) entries: Vec<Entry>,
    pub(crate) links: Vec<Link>,
    /// The numbers of the entries that wait, ascending.
    pub(crate) waiting: VecDeque<u32>,
    /// The number that comes next. One past the last is a number of this type.
    pub(crate) next: u64,
    /// Where the elements of a row stand that are its key.
    pub(crate) places: Seq<u32>,
    /// The numbers of the entries that have a key, ascending.
    pub(crate) index: IndexMap<Key, Vec<u32>>,
    pub(crate) alloc: Global,
}

/// The number that comes next, where there is one.
fn next_number(next: u64) -> Result<u32, AllocError>
    ensures same { IfOk result (λ n. n ≡ next) }
    ensures fits { OnOk result (next < 2 ^ 32) }
{
    if next < NUMBERS {
        return Ok(next as u32);
    }
    Err(AllocError)
}

/// Takes the first number of the order out of ascending ones.
fn pop(waiting: &mut VecDeque<u32>, order: Order) -> Option<u32>
    requires { AreAscending waiting.old.items }
    ensures none { IfNone result (waiting.old.items ≡ []) }
    ensures waits { IfSome result (λ n. IsIn n waiting.old.items) }
    ensures first { IfSome result (λ n. AllByRecursion (ComesFirst order n) waiting.old.items) }
    ensures left { IfSome result (λ n. waiting.new.items ≡ but n waiting.old.items) }
    ensures same { IfNone result (waiting.new.items ≡ waiting.old.items) }
{
    match order {
        Order::First => waiting.pop_front(),
        Order::Last => waiting.pop_back(),
    }
}

/// The waiting numbers without this one. It takes no memory.
fn drop_number(waiting: &mut VecDeque<u32>, number: u32)
    requires { AreAscending waiting.old.items }
    ensures items { waiting.new.items ≡ but number waiting.old.items }
    ensures len { deque_len waiting.new ≤ deque_len waiting.old }
    ensures capacity { deque_capacity waiting.new ≡ deque_capacity waiting.old }
{
    if let Ok(place) = waiting.binary_search(&number) {
        waiting.remove(place);
    }
}

/// A table of one entry, number 0, and no places.
pub(crate) fn begin(
    alloc: Global,
    elems: Vec<Elem>,
    precisions: Vec<Precision>,
) -> Result<Table, AllocError>
    ensures kept { IfOk result IsKeptTable }
    ensures indexed { IfOk result IsIndexedTable }
    ensures entries { IfOk result (λ t.
        t.entries.items ≡ fresh 0 elems.items precisions.items None ∷ []) }
    ensures next { IfOk result (λ t. t.next ≡ 1) }
    ensures places { IfOk result (λ t. t.places ≡ []) }
{
    let mut entries = Vec::new(alloc);
    entries.push(Entry {
        number: 0,
        elems: trimmed(elems),
        precisions: Row::common(alloc, trimmed(precisions))?,
        parent: None,
        uses: FewNumbers::new(alloc),
        waiting: true,
    })?;
    let mut links = Vec::new(alloc);
    links.push(Link {
        number: 0,
        depth: 0,
        namers: FewNumbers::new(alloc),
    })?;
    let mut waiting = VecDeque::new(alloc);
    waiting.push_back(0)?;
    let index = index_of(alloc, &[], &entries)?;
    Ok(Table {
        entries,
        links,
        waiting,
        next: 1,
        places: Seq::new(alloc),
        index,
        alloc,
    })
}

/// Takes the number that comes next in the order, and its entry does not wait any more.
pub(crate) fn take_next(table: &mut Table, order: Order) -> Option<u32>
    requires kept { IsKeptTable table.old }
    requires indexed { IsIndexedTable table.old }
    ensures kept { IsKeptTable table.new }
    ensures indexed { IsIndexedTable table.new }
    ensures next { table.new.next ≡ table.old.next }
    ensures places { table.new.places ≡ table.old.places }
    ensures none { IfNone result (waiting_numbers table.old.entries.items ≡ []) }
    ensures same { IfNone result (table.new.entries.items ≡ table.old.entries.items) }
    ensures some { IfSome result (IsNext order table.old.entries.items) }
    ensures taken { IfSome result (λ n.
        table.new.entries.items ≡ at_number n rests table.old.entries.items) }
{
    match pop(&mut table.waiting, order) {
        Some(number) => {
            rest(&mut table.entries, number);
            Some(number)
        }
        None => None,
    }
}

/// Room for one entry more.
fn reserve(table: &mut Table) -> Result<(), AllocError>
    ensures entries { table.new.entries.items ≡ table.old.entries.items }
    ensures links { table.new.links.items ≡ table.old.links.items }
    ensures waiting { table.new.waiting.items ≡ table.old.waiting.items }
    ensures next { table.new.next ≡ table.old.next }
    ensures places { table.new.places ≡ table.old.places }
    ensures index { table.new.index ≡ table.old.index }
    ensures room { OnOk result (vec_len table.new.entries < vec_capacity table.new.entries) }
    ensures links_room { OnOk result (vec_len table.new.links < vec_capacity table.new.links) }
    ensures waiting_room { OnOk result
        (deque_len table.new.waiting < deque_capacity table.new.waiting) }
{
    reserve_one(&mut table.entries)?;
    reserve_one(&mut table.links)?;
    table.waiting.reserve(1)
}

/// Notes that an entry names the one of this number. Where memory runs out nothing has changed.
fn list_namer(table: &mut Table, number: u32, by: u32) -> Result<(), AllocError>
    requires kept { IsKeptTable table.old }
    requires live { IsLive table.old.entries.items number }
    ensures kept { IsKeptTable table.new }
    ensures named { OnOk result (is_named_by table.new.links.items number by ≡ true) }
    ensures entries { table.new.entries ≡ table.old.entries }
    ensures waiting { table.new.waiting ≡ table.old.waiting }
    ensures next { table.new.next ≡ table.old.next }
    ensures places { table.new.places ≡ table.old.places }
    ensures index { table.new.index ≡ table.old.index }
    ensures links_len { vec_len table.new.links ≡ vec_len table.old.links }
    ensures links_room { vec_capacity table.new.links ≡ vec_capacity table.old.links }
{
    let at = place(&table.entries, number);
    name_at(&mut table.links, at, by)
}

/// Notes that an entry which is still to come has the parent of this one.
fn name_parent(table: &mut Table, number: u32, next: u32) -> Result<(), AllocError>
    requires kept { IsKeptTable table.old }
    requires live { IsLive table.old.entries.items number }
    ensures kept { IsKeptTable table.new }
    ensures named { (e : AnEntry) (p edge : ℕ) → IsIn e table.old.entries.items
        → e.number ≡ number → e.parent ≡ Some (p, edge)
        → OnOk result (is_named_by table.new.links.items p next ≡ true) }
    ensures entries { table.new.entries ≡ table.old.entries }
    ensures waiting { table.new.waiting ≡ table.old.waiting }
    ensures next { table.new.next ≡ table.old.next }
    ensures places { table.new.places ≡ table.old.places }
    ensures index { table.new.index ≡ table.old.index }
    ensures links_len { vec_len table.new.links ≡ vec_len table.old.links }
    ensures links_room { vec_capacity table.new.links ≡ vec_capacity table.old.links }
{
    match parent_of(&table.entries, number) {
        Some(pair) => list_namer(table, pair.0, next),
        None => Ok(()),
    }
}

/// The parent uses a number, which comes to stand under a key: so the table of keys is that of the
/// entries with one behind them. Where memory runs out nothing has changed.
fn adopt(table: &mut Table, parent: u32, key: Key, number: u32) -> Result<(), AllocError>
    requires ascend { AreAscending (numbers table.old.entries.items) }
    requires indexed { IsIndexedTable table.old }
    requires parent { IsLive table.old.entries.items parent }
    ensures ok { OnOk result (table.new.entries.items
        ≡ at_number parent (gains number) table.old.entries.items) }
    ensures indexed { (e : AnEntry) → e.number ≡ number
        → picked table.old.places e.elems ≡ key.elems
        → OnOk result (IsIndex table.old.places (table.new.entries.items ++ e ∷ [])
        table.new.index.entries) }
    ensures err { OnErr result (table.new.entries.items ≡ table.old.entries.items) }
    ensures err_indexed { OnErr result (IsIndexedTable table.new) }
    ensures links { table.new.links ≡ table.old.links }
    ensures waiting { table.new.waiting ≡ table.old.waiting }
    ensures next { table.new.next ≡ table.old.next }
    ensures places { table.new.places ≡ table.old.places }
    ensures capacity { vec_capacity table.new.entries ≡ vec_capacity table.old.entries }
{
    gain(&mut table.entries, parent, number)?;
    match enter(&mut table.index, table.alloc, key, number) {
        Ok(()) => Ok(()),
        Err(error) => {
            lose(&mut table.entries, parent);
            Err(error)
        }
    }
}

/// Adds an entry that waits, with the next number. Its parent uses it.
pub(crate) fn add(
    table: &mut Table,
    elems: Vec<Elem>,
    precisions: Vec<Precision>,
    parent: (u32, u32),
) -> Result<u32, AllocError>
    requires kept { IsKeptTable table.old }
    requires indexed { IsIndexedTable table.old }
    requires parent { IsLive table.old.entries.items parent.0 }
    ensures kept { IsKeptTable table.new }
    ensures indexed { IsIndexedTable table.new }
    ensures places { table.new.places ≡ table.old.places }
    ensures number { IfOk result (λ n. n ≡ table.old.next) }
    ensures ok { OnOk result (table.new.entries.items ≡ added_entries table.old.next
        table.old.entries.items elems.items precisions.items parent) }
    ensures next { OnOk result (table.new.next ≡ table.old.next + 1) }
    ensures err { OnErr result (table.new.entries.items ≡ table.old.entries.items) }
    ensures err_next { OnErr result (table.new.next ≡ table.old.next) }
{
    let number = next_number(table.next)?;
    let key = key_of(table.alloc, table.places.as_slice(), &elems)?;
    let elems = with_shared(&table.index, &key, table.places.as_slice(), elems)?;
    let above = entry(&table.entries, parent.0);
    let row = row_below(table.alloc, &above.precisions, &elems, precisions)?;
    let mut namers = FewNumbers::new(table.alloc);
    namers.push(parent.0)?;
    reserve(table)?;
    list_namer(table, parent.0, number)?;
    let above = place(&table.entries, parent.0);
    let depth = depth_at(&table.links, above);
    adopt(table, parent.0, key, number)?;
    table.entries.push_reserved(Entry {
        number,
        elems: trimmed(elems),
        precisions: row,
        parent: Some(parent),
        uses: FewNumbers::new(table.alloc),
        waiting: true,
    });
    table.links.push_reserved(Link {
        number,
        depth: depth + 1,
        namers,
    });
    table.waiting.push_back_reserved(number);
    table.next += 1;
    Ok(number)
}

/// In the table of keys a new number comes, under the key of its elements, and that of the old
/// entry goes. The elements come back, as they are shared. Where memory runs out it shows the same.
fn replace_key(
    table: &mut Table,
    old: u32,
    elems: Vec<Elem>,
    number: u32,
) -> Result<Vec<Elem>, AllocError>
    requires kept { IsKeptTable table.old }
    requires indexed { IsIndexedTable table.old }
    requires live { IsLive table.old.entries.items old }
    requires apart { old < number }
    ensures kept { IsKeptTable table.new }
    ensures ok { OnOk result (IsIndex table.old.places
        (replaced_entries number table.old.entries.items old elems.items)
        table.new.index.entries) }
    ensures elems { IfOk result (λ row. row.items ≡ elems.items) }
    ensures err { OnErr result (IsIndexedTable table.new) }
    ensures entries { table.new.entries ≡ table.old.entries }
    ensures links { table.new.links ≡ table.old.links }
    ensures waiting { table.new.waiting ≡ table.old.waiting }
    ensures next { table.new.next ≡ table.old.next }
    ensures places { table.new.places ≡ table.old.places }
{
    let places = table.places.as_slice();
    let row = entry(&table.entries, old).elems.as_slice();
    let old_key = key_of(table.alloc, places, row)?;
    let key = key_of(table.alloc, places, &elems)?;
    let elems = with_shared(&table.index, &key, places, elems)?;
    enter(&mut table.index, table.alloc, key, number)?;
    leave(&mut table.index, &old_key, old);
    Ok(elems)
}

/// Puts an entry that waits, with the next number, in the place of an old one.
pub(crate) fn replace(table: &mut Table, old: u32, elems: Vec<Elem>) -> Result<u32, AllocError>
    requires kept { IsKeptTable table.old }
    requires indexed { IsIndexedTable table.old }
    requires live { IsLive table.old.entries.items old }
    ensures kept { IsKeptTable table.new }
    ensures indexed { IsIndexedTable table.new }
    ensures places { table.new.places ≡ table.old.places }
    ensures number { IfOk result (λ n. n ≡ table.old.next) }
    ensures ok { OnOk result (table.new.entries.items ≡
        replaced_entries table.old.next table.old.entries.items old elems.items) }
    ensures next { OnOk result (table.new.next ≡ table.old.next + 1) }
    ensures err { OnErr result (table.new.entries.items ≡ table.old.entries.items) }
    ensures err_next { OnErr result (table.new.next ≡ table.old.next) }
{
    let number = next_number(table.next)?;
    reserve(table)?;
    name_parent(table, old, number)?;
    let elems = replace_key(table, old, elems, number)?;
    let at = place(&table.entries, old);
    succeed(&mut table.entries, table.alloc, at, number, elems);
    rename_among(
        &mut table.entries,
        table.links[at].namers.as_slice(),
        old,
        number,
    );
    renumber(&mut table.links, at, number);
    drop_number(&mut table.waiting, old);
    table.waiting.push_back_reserved(number);
    table.next += 1;
    Ok(number)
}

/// Notes that the entry `by` covers a successor of `entry`.
pub(crate) fn note_use(table: &mut Table, entry: u32, by: u32) -> Result<(), AllocError>
    requires kept { IsKeptTable table.old }
    requires indexed { IsIndexedTable table.old }
    requires entry { IsLive table.old.entries.items entry }
    requires by { IsLive table.old.entries.items by }
    ensures kept { IsKeptTable table.new }
    ensures indexed { IsIndexedTable table.new }
    ensures places { table.new.places ≡ table.old.places }
    ensures ok { OnOk result (table.new.entries.items ≡
        at_number entry (gains by) table.old.entries.items) }
    ensures err { OnErr result (table.new.entries.items ≡ table.old.entries.items) }
    ensures next { table.new.next ≡ table.old.next }
{
    list_namer(table, by, entry)?;
    gain(&mut table.entries, entry, by)
}

/// Gives the entry other precisions. It takes no memory.
pub(crate) fn set_precisions(table: &mut Table, entry: u32, precisions: Vec<Precision>)
    requires kept { IsKeptTable table.old }
    requires indexed { IsIndexedTable table.old }
    requires entry { IsLive table.old.entries.items entry }
    ensures kept { IsKeptTable table.new }
    ensures indexed { IsIndexedTable table.new }
    ensures places { table.new.places ≡ table.old.places }
    ensures entries { table.new.entries.items ≡
        at_number entry (with_precisions precisions.items) table.old.entries.items }
    ensures next { table.new.next ≡ table.old.next }
{
    put_precisions(&mut table.entries, entry, precisions);
}

/// Indexes the entries by other places. Where memory runs out nothing has changed.
pub(crate) fn index_by(table: &mut Table, places: &[u32]) -> Result<(), AllocError>
    requires kept { IsKeptTable table.old }
    requires indexed { IsIndexedTable table.old }
    ensures kept { IsKeptTable table.new }
    ensures indexed { IsIndexedTable table.new }
    ensures entries { table.new.entries.items ≡ table.old.entries.items }
    ensures next { table.new.next ≡ table.old.next }
    ensures ok { OnOk result (table.new.places ≡ places.now) }
    ensures err { OnErr result (table.new.places ≡ table.old.places) }
{
    let kept = places.to_vec(table.alloc)?;
    let index = index_of(table.alloc, places, &table.entries)?;
    table.places = Seq::from_vec(kept);
    table.index = index;
    Ok(())
}

/// The entries alone.
pub(crate) fn into_entries(table: Table) -> Vec<Entry>
    ensures { result.items ≡ table.entries.items }
{
    let Table {
        entries,
        links,
        waiting,
        next: _,
        places,
        index,
        alloc: _,
    } = table;
    entries
}
