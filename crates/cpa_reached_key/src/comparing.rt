//! Whether elements and rows are the same, fact by fact. The tests compute what `specs/Rows.antt`
//! says, by the checker alone.

ghost use Rattle.std.specs.Prelude.{◌≡◌};
ghost use Rattle.cpa_reached_key.specs.Rows.{same_facts, same_elem, same_row};

use cpa_model::{Elem, Facts, same_fact};

/// Whether two lists have the same facts in the same order. Takes no memory.
pub fn same_facts(facts: &Facts, others: &Facts) -> bool
    ensures { result ≡ same_facts facts.now others.now }
{
    let mut left = others.iter();
    for fact in facts {
        match left.next() {
            Some(other) if same_fact(fact, other) => {}
            _ => return false,
        }
    }
    left.next().is_none()
}

/// Whether two elements are the same. Takes no memory.
pub fn same_elem(elem: &Elem, other: &Elem) -> bool
    ensures { result ≡ same_elem elem.now other.now }
{
    same_facts(&elem.facts, &other.facts)
}

/// Whether two rows are the same. Takes no memory.
pub fn same_row(elems: &[Elem], others: &[Elem]) -> bool
    ensures { result ≡ same_row elems.now others.now }
{
    match elems {
        [] => others.is_empty(),
        [elem, elems @ ..] => match others {
            [] => false,
            [other, others @ ..] => same_elem(elem, other) && same_row(elems, others),
        },
    }
}
