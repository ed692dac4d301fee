//! Keys, with equality and hashing of their own: equal keys are equal values. What a hash is fed
//! stands in `specs/Writes.antt`.

ghost use Rattle.std.specs.Prelude.{◌≡◌, fold};
ghost use Rattle.std.specs.Cmp.{on_per, on_equiv};
ghost use Rattle.std.specs.Hash.{on_Alike};
ghost use Rattle.cpa_reached_key.specs.Rows.{same_row};
ghost use Rattle.cpa_reached_key.specs.Writes.{fact_writes, elem_writes, row_writes};
ghost use Rattle.cpa_reached_key.specs.lemmas.RowLaws.{same_row-per, same_row-equiv};
ghost use Rattle.cpa_reached_key.specs.lemmas.RowLaws.{row_writes-alike};

use crate::comparing::same_row;
use cpa_ints::Seq;
use cpa_model::{Elem, Fact};
use std::hash::{Hash, Hasher};

/// The elements of a row at some places.
#[derive(Drop)]
pub struct Key {
    /// In the order of the places.
    pub elems: Seq<Elem>,
}

/// Keys are equal where their elements are the same.
impl PartialEq for Key {
    ghost eq = { λ a b. same_row a.elems b.elems };

    ghost laws = { on_per (λ k. k.elems) same_row-per };

    fn eq(&self, other: &Self) -> bool {
        same_row(self.elems.as_slice(), other.elems.as_slice())
    }
}

impl Eq for Key {
    ghost laws = { on_equiv (λ k. k.elems) same_row-equiv };
}

/// A point and a stack are fed by their numbers, any other fact as one and the same.
fn feed_fact<H: Hasher>(fact: &Fact, state: &mut H)
    ensures { state.new ≡ fold H.write state.old (fact_writes fact.now) }
{
    match fact {
        Fact::At { point } => point.hash(state),
        Fact::Stack { sites } => sites.as_slice().hash(state),
        Fact::Equals { .. } | Fact::Within { .. } | Fact::Truth { .. } => state.write_u8(0),
    }
}

/// So is each fact of an element, in order.
fn feed_elem<H: Hasher>(elem: &Elem, state: &mut H)
    ensures { state.new ≡ fold H.write state.old (elem_writes elem.now) }
{
    for fact in &elem.facts {
        feed_fact(fact, state);
    }
}

/// Equal keys feed a hash alike, and so may others.
impl Hash for Key {
    ghost hash_input = { λ k. row_writes k.elems };

    ghost respects_eq = { (on_Alike (λ k. k.elems) row_writes-alike).fed };

    fn hash<H: Hasher>(&self, state: &mut H) {
        for elem in &self.elems {
            feed_elem(elem, state);
        }
    }
}
