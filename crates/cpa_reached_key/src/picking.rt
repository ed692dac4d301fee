//! The key of a row: its elements at the places, as `picked` of `specs/Rows.antt` says.
//! Proved with `proofs/Places.antt`.

ghost use Rattle.std.specs.Prelude.{◌≡◌, ◌++◌, slice_get, IfOk, OnOk};
ghost use Rattle.cpa_reached_key.specs.Rows.{picked, listed};

use crate::keys::Key;
use cpa_ints::Seq;
use cpa_model::{Elem, copy_elem};
use std::alloc::{AllocError, Global};

/// The element of the row at a place, if it is there, comes behind the others.
fn push_at(alloc: Global, elems: &mut Seq<Elem>, row: &[Elem], place: u32) -> Result<(), AllocError>
    ensures { OnOk result (elems.new ≡ elems.old ++ listed (slice_get row.now place)) }
{
    match row.get(place as usize) {
        Some(elem) => elems.push(copy_elem(elem)?),
        None => Ok(()),
    }
}

/// The elements of the row at these places, as far as they are there.
#[tactic(auto, using(crate::proofs::Places::picked_more))]
pub fn key_of(alloc: Global, places: &[u32], row: &[Elem]) -> Result<Key, AllocError>
    ensures { IfOk result (λ key. key.elems ≡ picked places.now row.now) }
{
    let mut elems = Seq::new(alloc);
    for place in places {
        push_at(alloc, &mut elems, row, *place)?;
    }
    Ok(Key { elems })
}
