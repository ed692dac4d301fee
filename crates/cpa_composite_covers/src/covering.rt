//! The covers of the picked analyses, one after the other: `specs/Covers.antt`, shown in
//! `proofs/Compared.antt`.

ghost use Rattle.std.specs.Prelude.{◌≡◌, ◌<◌, length, map, IsTrue};
ghost use Rattle.cpa_composite_covers.specs.Components.{Component, IsPicked, picked, ArePlaces};
ghost use Rattle.cpa_composite_covers.specs.Covers.{all_cover, IsWithinRow};

use cpa_iface::{Analysis, Pick};
use cpa_model::Elem;

/// Whether the analysis takes the one element for covered by the other.
fn covers<A: Analysis>(handed: &Vec<A>, pick: &Pick, elem: &Elem, other: &Elem) -> bool
    requires { pick.now.place < length handed.now.items }
    ensures { (c : Component) → IsPicked (map A.meaning handed.now.items) pick.now c →
        result ≡ c.meaning.cover elem.now other.now }
{
    handed[pick.place as usize].covered_by(elem, other)
}

/// Whether each cover says so. The last ones are asked first: those in front tell control apart,
/// and rows of one key agree on them.
#[tactic(auto, using(crate::proofs::Compared::no_elems_cover, crate::proofs::Compared::no_fellows_cover))]
fn each_covers<A: Analysis>(handed: &Vec<A>, picks: &[Pick], elems: &[Elem], other: &[Elem]) -> bool
    requires { ArePlaces (length handed.now.items) picks.now }
    ensures { result ≡
        all_cover (picked (map A.meaning handed.now.items) picks.now) elems.now other.now }
{
    match picks {
        [] => true,
        [pick, picks @ ..] => match elems {
            [] => true,
            [elem, elems @ ..] => match other {
                [] => true,
                [fellow, other @ ..] => {
                    each_covers(handed, picks, elems, other) && covers(handed, pick, elem, fellow)
                }
            },
        },
    }
}

/// Whether each analysis takes its element of the one row for covered by that of the other; then
/// every state of the one row is one of the other.
pub fn covered_by<A: Analysis>(
    handed: &Vec<A>,
    picks: &[Pick],
    elems: &[Elem],
    other: &[Elem],
) -> bool
    requires { ArePlaces (length handed.now.items) picks.now }
    ensures value { result ≡
        all_cover (picked (map A.meaning handed.now.items) picks.now) elems.now other.now }
    ensures within { let cs = picked (map A.meaning handed.now.items) picks.now in
        length elems.now ≡ length cs → length other.now ≡ length cs → IsTrue result
        → IsWithinRow elems.now other.now }
{
    each_covers(handed, picks, elems, other)
}
