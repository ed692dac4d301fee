//! The picks by whose elements entries are told apart: `specs/Keys.antt`. The loop is shown with
//! `proofs/Numbered.antt`.

ghost use Rattle.std.specs.Prelude.{◌≡◌, ◌<◌, [], ◌∷◌, ◌++◌, if◌then◌else◌, length, map};
ghost use Rattle.std.specs.Prelude.{Some, slice_get, ◌↔◌, IsTrue, IfOk, OnOk};
ghost use Rattle.cpa_iface.specs.declared.merging.MergeRule.TheVariants.{Sep};
ghost use Rattle.cpa_composite.specs.Components.{Component, IsPicked, picked, ArePlaces};
ghost use Rattle.cpa_composite.specs.Keys.{is_control, is_key, key_places};

use crate::comparing::keeps_apart;
use crate::rows::number_of;
use cpa_iface::{Analysis, Part, Pick};
use std::alloc::{AllocError, Global};

/// Whether the part is the point or the stack.
fn is_control(part: Part) -> bool
    ensures { result ≡ is_control part }
{
    match part {
        Part::Point | Part::Stack => true,
        Part::Nothing | Part::Store => false,
    }
}

/// Whether the pick tells entries apart by point or stack.
fn is_key<A: Analysis>(handed: &Vec<A>, pick: &Pick) -> bool
    requires { pick.now.place < length handed.now.items }
    ensures { (c : Component) → IsPicked (map A.meaning handed.now.items) pick.now c →
        result ≡ is_key c }
{
    is_control(handed[pick.place as usize].exact_on()) && keeps_apart(pick.rule)
}

/// Adds the number of the pick, where it is one of those.
fn push_key<A: Analysis>(
    handed: &Vec<A>,
    pick: &Pick,
    place: usize,
    places: &mut Vec<u32>,
) -> Result<(), AllocError>
    requires { pick.now.place < length handed.now.items }
    ensures { (c : Component) → IsPicked (map A.meaning handed.now.items) pick.now c →
        OnOk result (places.new.items
        ≡ places.old.items ++ (if is_key c then place ∷ [] else [])) }
{
    if is_key(handed, pick) {
        places.push(number_of(place)?)?;
    }
    Ok(())
}

/// The numbers of those picks, ascending.
pub(crate) fn key_places<A: Analysis>(
    handed: &Vec<A>,
    picks: &[Pick],
    alloc: Global,
) -> Result<Vec<u32>, AllocError>
    requires { ArePlaces (length handed.now.items) picks.now }
    ensures { IfOk result (λ places. places.items
        ≡ key_places (picked (map A.meaning handed.now.items) picks.now)) }
{
    let mut places = Vec::new(alloc);
    for (place, pick) in picks.iter().enumerate() {
        push_key(handed, pick, place, &mut places)?;
    }
    Ok(places)
}

/// Whether the pick of this number keeps its elements apart.
pub(crate) fn is_apart<A: Analysis>(handed: &Vec<A>, picks: &[Pick], place: u32) -> bool
    requires { ArePlaces (length handed.now.items) picks.now }
    ensures { (c : Component)
        → slice_get (picked (map A.meaning handed.now.items) picks.now) place ≡ Some c
        → IsTrue result ↔ (c.rule ≡ Sep) }
{
    match picks.get(place as usize) {
        Some(pick) => keeps_apart(pick.rule),
        None => false,
    }
}
