//! Weights of what is added, by specs/Forms of `cpa_form_rules`. A sum stops at the greatest
//! `u64`. Proved with `proofs/weighing/`.

ghost use Rattle.std.specs.Prelude.{◌≡◌, min, map, sum};
ghost use Rattle.cpa_form_rules.specs.Forms.{act_weight, fact_weight, elem_weight};

use crate::testing::type_at;
use cpa_blast::weight;
use cpa_expr::type_of;
use cpa_form_renaming::Place;
use cpa_model::{Act, Elem, Fact};

/// The weight of an edge, by its act. Takes no memory.
pub fn act_weight(act: &Act) -> u64
    ensures { result ≡ min (act_weight act.now) u64.MAX }
{
    match act {
        Act::Assign {
            len,
            index,
            value,
            ..
        } => {
            let width = type_of(value).width() as u64;
            let expressions = weight(index).saturating_add(weight(value));
            expressions.saturating_add(*len as u64 * width)
        }
        Act::Assume { test, .. } => weight(test).saturating_add(1),
        _ => 0,
    }
}

/// The weight of a fact.
fn fact_weight(places: &[Place], fact: &Fact) -> u64
    ensures { result ≡ min (fact_weight places.now fact.now) u64.MAX }
{
    match fact {
        Fact::At { .. } | Fact::Stack { .. } => 0,
        Fact::Equals { cell, .. } => type_at(places, *cell).width() as u64,
        Fact::Within { cell, .. } => 2 * type_at(places, *cell).width() as u64,
        Fact::Truth { expr, .. } => weight(expr).saturating_add(1),
    }
}

/// The weight of an element.
pub(crate) fn elem_weight(places: &[Place], elem: &Elem) -> u64
    ensures { result ≡ min (elem_weight places.now elem.now) u64.MAX }
{
    let mut total = 0u64;
    for fact in &elem.facts {
        total = total.saturating_add(fact_weight(places, fact));
    }
    total
}

/// The weight of elements.
pub(crate) fn elems_weight(places: &[Place], elems: &[Elem]) -> u64
    ensures { result ≡ min (sum (map (elem_weight places.now) elems.now)) u64.MAX }
{
    let mut total = 0u64;
    for elem in elems {
        total = total.saturating_add(elem_weight(places, elem));
    }
    total
}
