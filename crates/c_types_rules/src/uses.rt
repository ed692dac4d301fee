//! Noting the faults of a use of a name or a part (`use_faults` of `specs/ExpressionRules.antt`).
//! Proved with `first_append` of `specs/First.antt`.
ghost use Rattle.std.specs.Prelude.{◌≡◌};
ghost use Rattle.c_types_rules.specs.First.{first_with};
ghost use Rattle.c_types_rules.specs.Expressions.{named, taken, given, paired, tagged};
ghost use Rattle.c_types_rules.specs.ExpressionRules.{use_faults};

use crate::parts::{
    called_without_body, miscounted, misused_array, misused_function, not_changeable, undeclared,
    undeclared_tag, void_end, void_value,
};
use crate::{Form, Meaning, Part, Role, note_place};
use c_lexer::{Rule, TextFault};

/// Notes the fault of a name that is not declared.
pub fn note_named(first: &mut Option<TextFault>, place: u32, meaning: Option<Meaning>)
    ensures { first.new ≡ first_with first.old (use_faults (named place meaning)) }
{
    note_place(first, Rule::N1, undeclared(place, meaning));
}

/// Notes the fault of a tag that is not declared.
pub fn note_tagged(first: &mut Option<TextFault>, place: u32, is_declared: bool)
    ensures { first.new ≡ first_with first.old (use_faults (tagged place is_declared)) }
{
    note_place(first, Rule::N1, undeclared_tag(place, is_declared));
}

/// Notes the faults of a part in a role.
#[tactic(auto, using(crate::specs::First::first_append))]
pub fn note_taken(first: &mut Option<TextFault>, role: Role, part: Part)
    ensures { first.new ≡ first_with first.old (use_faults (taken role part)) }
{
    note_place(first, Rule::N3, misused_function(role, part));
    note_place(first, Rule::N5, misused_array(role, part));
    note_place(first, Rule::N5, void_value(role, part));
    note_place(first, Rule::N15, not_changeable(role, part));
}

/// Notes the faults of a call with so many arguments.
#[tactic(auto, using(crate::specs::First::first_append))]
pub fn note_given(first: &mut Option<TextFault>, form: Form, handed: usize)
    ensures { first.new ≡ first_with first.old (use_faults (given form handed)) }
{
    note_place(first, Rule::N4, miscounted(form, handed));
    note_place(first, Rule::N14, called_without_body(form));
}

/// Notes the fault of two ends of a conditional.
pub fn note_paired(first: &mut Option<TextFault>, yes: Part, no: Part)
    ensures { first.new ≡ first_with first.old (use_faults (paired yes no)) }
{
    note_place(first, Rule::N5, void_end(yes, no));
}
