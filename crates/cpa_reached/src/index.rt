//! The table from keys to numbers. A key without entries may stay in it, with an empty list, which
//! nobody sees; `specs/Indexes.antt` says what it shows. Proved with `proofs/Entering.antt`.

ghost use Rattle.std.specs.Prelude.{◌≡◌, List, [], ◌∷◌, ◌++◌, if◌then◌else◌, IfOk, OnOk, OnErr};
ghost use Rattle.cpa_model.specs.declared.facts.Elem.{Elem as AnElem};
ghost use Rattle.cpa_reached_key.specs.Rows.{same_row};
ghost use Rattle.cpa_reached.specs.Indexes.{numbers_at, IsIndex};
ghost use Rattle.cpa_reached.specs.Tables.{but};

use cpa_iface::Entry;
use cpa_reached_key::{Key, key_of};
use indexmap::IndexMap;
use std::alloc::{AllocError, Global};

/// The numbers under a key. It takes no memory.
pub(crate) fn under<'a>(index: &'a IndexMap<Key, Vec<u32>>, key: &Key) -> &'a [u32]
    ensures { result.now ≡ numbers_at key.now.elems index.now.entries }
{
    match index.get(key) {
        Some(numbers) => numbers.as_slice(),
        None => &[],
    }
}

/// A number more under a key, behind the others. Where memory runs out the table shows the same.
pub(crate) fn enter(
    index: &mut IndexMap<Key, Vec<u32>>,
    alloc: Global,
    key: Key,
    number: u32,
) -> Result<(), AllocError>
    ensures ok { (row : List AnElem) → OnOk result (numbers_at row index.new.entries
        ≡ numbers_at row index.old.entries
        ++ (if same_row key.elems row then number ∷ [] else [])) }
    ensures err { (row : List AnElem) → OnErr result (numbers_at row index.new.entries
        ≡ numbers_at row index.old.entries) }
{
    match index.get_mut(&key) {
        Some(numbers) => {
            numbers.push(number)?;
            Ok(())
        }
        None => {
            let mut numbers = Vec::new(alloc);
            numbers.push(number)?;
            index.insert(key, numbers)?;
            Ok(())
        }
    }
}

/// These numbers without one.
fn drop_number(numbers: &mut Vec<u32>, number: u32)
    ensures { numbers.new.items ≡ but number numbers.old.items }
{
    numbers.retain(|other| *other != number);
}

/// The number stands under the key no more. It takes no memory.
pub(crate) fn leave(index: &mut IndexMap<Key, Vec<u32>>, key: &Key, number: u32)
    ensures { (row : List AnElem) → numbers_at row index.new.entries
        ≡ (if same_row key.now.elems row then but number (numbers_at row index.old.entries)
        else numbers_at row index.old.entries) }
{
    match index.get_mut(key) {
        Some(numbers) => drop_number(numbers, number),
        None => {}
    }
}

/// A new table of these entries.
pub(crate) fn index_of(
    alloc: Global,
    places: &[u32],
    entries: &[Entry],
) -> Result<IndexMap<Key, Vec<u32>>, AllocError>
    ensures { IfOk result (λ index. IsIndex places.now entries.now index.entries) }
{
    let mut index = IndexMap::new(alloc);
    for entry in entries {
        let key = key_of(alloc, places, entry.elems.as_slice())?;
        enter(&mut index, alloc, key, entry.number)?;
    }
    Ok(index)
}
