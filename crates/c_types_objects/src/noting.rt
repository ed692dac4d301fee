//! Noting the first of faults (`first_with` of `c_types_rules`, `specs/First.antt`). Proved with
//! `proofs/FirstFault.antt`.
ghost use Rattle.std.specs.Prelude.{◌≡◌, List, None};
ghost use Rattle.c_lexer.specs.declared.fault.TextFault.{TextFault};
ghost use Rattle.c_types_rules.specs.First.{first_with};
ghost use Rattle.c_types_rules.specs.ExpressionRules.{broken, at_if};

use c_lexer::{Rule, TextFault};
use c_types_rules::note;

/// Notes a fault of this rule at a place, if the rule is broken there.
pub fn note_if(first: &mut Option<TextFault>, rule: Rule, is_broken: bool, place: u32)
    ensures { first.new ≡ first_with first.old (broken rule (at_if is_broken place)) }
{
    if is_broken {
        note(first, rule, place);
    }
}

/// Notes faults of which the first is known.
pub fn note_found(first: &mut Option<TextFault>, found: Option<TextFault>)
    ensures { (faults : List TextFault) → found ≡ first_with None faults
        → first.new ≡ first_with first.old faults }
{
    if let Some(fault) = found {
        note(first, fault.rule, fault.place);
    }
}
