//! Whether a fact stands in an element, to the letter, by `Standing`. That it then does, and that
//! each state of the element is one of the other, is shown in `specs/lemmas/StandingLaws.antt`.
ghost use Rattle.std.specs.Prelude.{◌≡◌, ◌↔◌, IsTrue};
ghost use Rattle.std.specs.List.{list_any};
ghost use Rattle.cpa_facts.specs.declared.fact.Fact.{Fact};
ghost use Rattle.cpa_model.specs.declared.facts.Elem.{Elem};
ghost use Rattle.cpa_model.specs.Facts.{HasFacts, IsWithin};
ghost use Rattle.cpa_model.specs.Standing.{same_sites, same_fact, has_facts};

use crate::facts::Elem;
use cpa_expr::same_expr;
use cpa_facts::Fact;
use cpa_ints::Seq;

/// Whether each fact of `other` stands in `elem`: then each state of `elem` is one of `other`.
pub fn has_facts(elem: &Elem, other: &Elem) -> bool
    ensures value { result ≡ has_facts elem.now other.now }
    ensures stand { IsTrue result ↔ HasFacts elem.now other.now }
{
    all_stand(elem, other)
}

/// Whether each fact of `other` stands in `elem`, by the value alone; `has_facts` adds the meaning.
fn all_stand(elem: &Elem, other: &Elem) -> bool
    ensures { result ≡ has_facts elem.now other.now }
{
    other.facts.iter().all(|fact| has_fact(elem, fact))
}

/// Whether one of the element's facts is this one.
fn has_fact(elem: &Elem, fact: &Fact) -> bool
    ensures { result ≡ list_any (λ g. same_fact g fact.now) elem.now.facts }
{
    elem.facts.iter().any(|own| is_same(own, fact))
}

/// Whether two facts are the same. It compares expressions as trees, and not by their values.
pub fn same_fact(a: &Fact, b: &Fact) -> bool
    ensures value { result ≡ same_fact a.now b.now }
    ensures same { IsTrue result ↔ (a.now ≡ b.now) }
{
    is_same(a, b)
}

/// Whether two facts are the same, by the value alone; `same_fact` adds the meaning.
fn is_same(a: &Fact, b: &Fact) -> bool
    ensures { result ≡ same_fact a.now b.now }
{
    match (a, b) {
        (Fact::At { point }, Fact::At { point: other }) => point == other,
        (Fact::Stack { sites }, Fact::Stack { sites: others }) => { same_sites(sites, others) }
        (
            Fact::Equals { cell, value },
            Fact::Equals {
                cell: other,
                value: wanted,
            },
        ) => cell == other && value == wanted,
        (
            Fact::Within { cell, lo, hi },
            Fact::Within {
                cell: other,
                lo: least,
                hi: greatest,
            },
        ) => cell == other && lo == least && hi == greatest,
        (
            Fact::Truth { expr, holds },
            Fact::Truth {
                expr: other,
                holds: wanted,
            },
        ) => same_expr(expr, other) && holds == wanted,
        _ => false,
    }
}

/// Whether two stacks have the same sites in the same order.
pub fn same_sites(a: &Seq<u32>, b: &Seq<u32>) -> bool
    ensures { result ≡ same_sites a.now b.now }
{
    a == b
}

/// A law: the test that two facts are the same is true exactly where they are equal, and the test
/// that an element has the facts of another exactly where each of these is one of its own. Then
/// each of its states is one of the other, and each element has its own facts.
pub fn facts_that_stand()
    ensures same { (a b : Fact) → IsTrue (same_fact a b) ↔ (a ≡ b) }
    ensures exact { (e f : Elem) → IsTrue (has_facts e f) ↔ HasFacts e f }
    ensures within { (e f : Elem) → HasFacts e f → IsWithin e f }
    ensures own { (e : Elem) → HasFacts e e }
{}
