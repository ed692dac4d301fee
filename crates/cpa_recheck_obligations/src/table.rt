//! The spots of entries, a table of them, and the candidates of a spot by it, by
//! `specs/Obligations.antt` and `specs/Tables.antt`. Proved with `proofs/Entering.antt`.

ghost use Rattle.std.specs.Prelude.{◌≡◌, ◌∷◌, ◌++◌, ◌<◌, ◌^◌, [], List, Option, map, length};
ghost use Rattle.std.specs.Prelude.{IfOk, OnOk, if◌then◌else◌};
ghost use Rattle.std.specs.List.{flat_map};
ghost use Rattle.cpa_recheck_obligations.specs.declared.spots.Spot.{Spot as ASpot};
ghost use Rattle.cpa_recheck_obligations.specs.Obligations.{candidates, is_at, said_or_not, under};
ghost use Rattle.cpa_recheck_obligations.specs.Spots.{same_spot, spot_of_parts, spots_of};
ghost use Rattle.cpa_recheck_obligations.specs.Tables.{IsTableOf, numbers_at};

use crate::spots::{Spot, spot_of, spot_with};
use cpa_model::{Elem, Seq};
use indexmap::IndexMap;
use std::alloc::{AllocError, Global};

/// The entries at each spot, by their numbers.
#[derive(Drop)]
pub struct Table {
    pub numbers: IndexMap<Spot, Vec<u32>>,
}

/// The spot of each entry, in order.
pub fn spots_of(alloc: Global, entries: &[Elem]) -> Result<Vec<Option<Spot>>, AllocError>
    ensures { IfOk result (λ spots. spots.items ≡ spots_of entries.now) }
{
    let mut spots = Vec::new(alloc);
    for entry in entries {
        spots.push(spot_of(alloc, entry)?)?;
    }
    Ok(spots)
}

/// A number more at a spot, behind the others.
fn enter(
    alloc: Global,
    table: &mut IndexMap<Spot, Vec<u32>>,
    spot: Spot,
    number: u32,
) -> Result<(), AllocError>
    ensures { (key : ASpot) → OnOk result (numbers_at key table.new.entries
        ≡ numbers_at key table.old.entries ++ (if same_spot spot key then number ∷ [] else [])) }
{
    match table.get_mut(&spot) {
        Some(numbers) => {
            numbers.push(number)?;
            Ok(())
        }
        None => {
            let mut numbers = Vec::new(alloc);
            numbers.push(number)?;
            table.insert(spot, numbers)?;
            Ok(())
        }
    }
}

/// An entry's number more, where the entry has a spot.
fn enter_found(
    alloc: Global,
    table: &mut IndexMap<Spot, Vec<u32>>,
    found: &Option<Spot>,
    number: u32,
) -> Result<(), AllocError>
    ensures { (key : ASpot) → OnOk result (numbers_at key table.new.entries
        ≡ numbers_at key table.old.entries ++ (if is_at key found.now then number ∷ [] else [])) }
{
    match found {
        None => Ok(()),
        Some(spot) => {
            let own = spot_with(alloc, spot.point, &spot.stack)?;
            enter(alloc, table, own, number)
        }
    }
}

/// The table of entries with these spots.
pub fn table_of(alloc: Global, spots: &[Option<Spot>]) -> Result<Table, AllocError>
    requires { length spots.now < 2 ^ 32 }
    ensures { IfOk result (λ table. IsTableOf spots.now table.numbers.entries) }
{
    let mut numbers = IndexMap::new(alloc);
    for number in 0..spots.len() {
        enter_found(alloc, &mut numbers, &spots[number], number as u32)?;
    }
    Ok(Table { numbers })
}

/// The numbers at a spot. It takes no memory.
fn numbers_at<'a>(table: &'a IndexMap<Spot, Vec<u32>>, spot: &Spot) -> &'a [u32]
    ensures { result.now ≡ numbers_at spot.now table.now.entries }
{
    match table.get(spot) {
        Some(numbers) => numbers.as_slice(),
        None => &[],
    }
}

/// Adds the numbers of the entries whose spot says just this.
fn push_under(
    alloc: Global,
    numbers: &mut Vec<u32>,
    table: &Table,
    point: Option<u32>,
    stack: &Option<Seq<u32>>,
) -> Result<(), AllocError>
    ensures { (spots : List (Option ASpot)) → IsTableOf spots table.now.numbers.entries
        → OnOk result (numbers.new.items
        ≡ numbers.old.items ++ under spots (spot_of_parts point stack.now)) }
{
    let spot = spot_with(alloc, point, stack)?;
    numbers.extend_from_slice(numbers_at(&table.numbers, &spot))?;
    Ok(())
}

/// Adds those with this point, or with none where it is none, whose stack is this one or none.
fn push_with(
    alloc: Global,
    numbers: &mut Vec<u32>,
    table: &Table,
    point: Option<u32>,
    stack: &Option<Seq<u32>>,
) -> Result<(), AllocError>
    ensures { (spots : List (Option ASpot)) → IsTableOf spots table.now.numbers.entries
        → OnOk result (numbers.new.items ≡ numbers.old.items
        ++ flat_map (under spots) (map (spot_of_parts point) (said_or_not stack.now))) }
{
    push_under(alloc, numbers, table, point, stack)?;
    match stack {
        None => Ok(()),
        Some(_) => push_under(alloc, numbers, table, point, &None),
    }
}

/// The numbers of the entries in which a state of the spot may lie, by its point and its stack.
pub fn candidates(alloc: Global, table: &Table, spot: &Spot) -> Result<Vec<u32>, AllocError>
    ensures { (spots : List (Option ASpot)) → IsTableOf spots table.now.numbers.entries
        → IfOk result (λ numbers. numbers.items ≡ candidates spots spot.now) }
{
    let mut numbers = Vec::new(alloc);
    push_with(alloc, &mut numbers, table, spot.point, &spot.stack)?;
    if spot.point.is_some() {
        push_with(alloc, &mut numbers, table, None, &spot.stack)?;
    }
    Ok(numbers)
}
