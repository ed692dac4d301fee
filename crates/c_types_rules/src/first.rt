//! The first fault of a text (`specs/First.antt`): one is held while others are noted. Proved by
//! the checker alone.
ghost use Rattle.std.specs.Prelude.{◌≡◌};
ghost use Rattle.c_types_rules.specs.First.{comes_before, first_of_two, first_with};
ghost use Rattle.c_types_rules.specs.ExpressionRules.{broken, option_places};

use c_lexer::{Rule, TextFault};

/// Whether a fault is named before another one.
fn comes_before(fault: TextFault, other: TextFault) -> bool
    ensures { result ≡ comes_before fault other }
{
    if fault.place < other.place {
        true
    } else if other.place < fault.place {
        false
    } else {
        fault.rule.number() < other.rule.number()
    }
}

/// Holds the fault of this rule at this place, if it is the first so far.
pub fn note(first: &mut Option<TextFault>, rule: Rule, place: u32)
    ensures { first.new ≡ first_of_two first.old (record { rule = rule; place = place }) }
{
    let fault = TextFault { rule, place };
    let comes_first = match *first {
        None => true,
        Some(held) => comes_before(fault, held),
    };
    if comes_first {
        *first = Some(fault);
    }
}

/// Notes a fault of this rule at a place, if there is one.
pub fn note_place(first: &mut Option<TextFault>, rule: Rule, place: Option<u32>)
    ensures { first.new ≡ first_with first.old (broken rule (option_places place)) }
{
    if let Some(place) = place {
        note(first, rule, place);
    }
}
