//! The length of a declared object (`length_of` and `length_faults` of `c_types_rules`,
//! `specs/Declarations.antt`); its expression is read once. Proved with `proofs/Fitting.antt`.
ghost use Rattle.std.specs.Prelude.{◌≡◌, ◌++◌, pos, None, length, IfOk, OnOk, unwrap_or};
ghost use Rattle.c_lexer.specs.declared.fault.Rule.TheVariants as rule;
ghost use Rattle.c_types_rules.specs.declared.meaning.Role.TheVariants.{Valued};
ghost use Rattle.c_types_rules.specs.First.{first_with};
ghost use Rattle.c_types_rules.specs.ExpressionRules.{broken, uses_faults};
ghost use Rattle.c_types_rules.specs.Declarations.{items_of, is_length, is_longer, constant_number};
ghost use Rattle.c_types_rules.specs.Declarations.{misfit, given_length_faults, length_of};
ghost use Rattle.c_types_rules.specs.Declarations.{length_faults, length_uses};
ghost use Rattle.c_types_expressions.specs.Read.{role_faults, role_calls, uses_calls};

use crate::constants::read_fixed;
use crate::noting::{note_found, note_if};
use c_grammar_tree::{Declarator, Expression, Initializer};
use c_lexer::{Rule, TextFault};
use c_types_names::{Names, Survey};
use c_types_recursion::Call;
use c_types_rules::{MAX_ELEMENTS, note_place};
use cpa_ints::Boxed;
use std::alloc::{AllocError, Global};

/// How many items an initializer has.
fn item_count(initializer: &Option<Boxed<Initializer>>) -> usize
    ensures { result ≡ length (items_of initializer.now) }
{
    match initializer {
        None => 0,
        Some(initializer) => match initializer.get() {
            Initializer::Scalar(_) => 1,
            Initializer::List { items, .. } => items.len(),
        },
    }
}

/// Whether an array can have so many elements.
fn is_length(number: i128) -> bool
    ensures { result ≡ is_length number }
{
    1 <= number && number <= i128::from(MAX_ELEMENTS)
}

/// Whether there are more items than so many elements.
fn is_longer(number: i128, declarator: &Declarator) -> bool
    ensures { result ≡ is_longer number declarator.now }
{
    declarator.initializer.is_some() && number < item_count(&declarator.initializer) as i128
}

/// Notes the faults of a length that is there, of which the value is known.
#[tactic(auto, using(crate::proofs::Fitting::broken_append))]
fn note_misfit(
    first: &mut Option<TextFault>,
    number: Option<i128>,
    place: u32,
    declarator: &Declarator,
)
    ensures { first.new
        ≡ first_with first.old (broken rule.N12 (misfit number place declarator.now)) }
{
    if let Some(number) = number {
        note_if(first, Rule::N12, !is_length(number), place);
        let name = declarator.name.place;
        note_if(first, Rule::N12, is_longer(number, declarator), name);
    }
}

/// Reads a length that is there; it counts as 0 where it has no value.
#[tactic(auto, using(crate::proofs::Fitting::read_given_rules))]
fn read_given(
    alloc: Global,
    survey: &Survey,
    names: &Names,
    caller: u32,
    declarator: &Declarator,
    given: &Expression,
    first: &mut Option<TextFault>,
    calls: &mut Vec<Call>,
) -> Result<i128, AllocError>
    ensures number { IfOk result (λ n. n
        ≡ unwrap_or (constant_number survey.now names.now given.now) (pos 0)) }
    ensures first { OnOk result (first.new ≡ first_with first.old
        (broken rule.N12 (given_length_faults survey.now names.now declarator.now given.now)
        ++ role_faults survey.now names.now Valued given.now)) }
    ensures calls { OnOk result (calls.new.items
        ≡ calls.old.items ++ role_calls survey.now names.now caller Valued given.now) }
{
    // the faults of the length come before those of its names and types
    let mut used = None;
    let fixed = read_fixed(alloc, survey, names, caller, given, &mut used, calls)?;
    note_place(first, Rule::N12, fixed.inconstant);
    note_misfit(first, fixed.number, fixed.place, declarator);
    note_found(first, used);
    Ok(fixed.number.unwrap_or(0))
}

/// How many elements a declared object has, if it is an array: its length is read.
#[tactic(auto, using(crate::proofs::Fitting::no_calls))]
pub(crate) fn read_length(
    alloc: Global,
    survey: &Survey,
    names: &Names,
    caller: u32,
    declarator: &Declarator,
    first: &mut Option<TextFault>,
    calls: &mut Vec<Call>,
) -> Result<Option<i128>, AllocError>
    ensures length { IfOk result (λ n. n ≡ length_of survey.now names.now declarator.now) }
    ensures first { OnOk result (first.new ≡ first_with first.old
        (broken rule.N12 (length_faults survey.now names.now declarator.now)
        ++ uses_faults (length_uses survey.now names.now declarator.now))) }
    ensures calls { OnOk result (calls.new.items ≡ calls.old.items
        ++ uses_calls caller (length_uses survey.now names.now declarator.now)) }
{
    match &declarator.array {
        None => {
            note_if(
                first,
                Rule::N12,
                is_longer(1, declarator),
                declarator.name.place,
            );
            Ok(None)
        }
        Some(array) => match &array.get().length {
            None => {
                let number = item_count(&declarator.initializer) as i128;
                note_if(first, Rule::N12, !is_length(number), declarator.name.place);
                Ok(Some(number))
            }
            Some(given) => {
                let number = read_given(
                    alloc, survey, names, caller, declarator, given, first, calls,
                )?;
                Ok(Some(number))
            }
        },
    }
}
