//! The cases and the defaults of a switch, and what a case knows of it (`selecting` and `switched`
//! of `specs/Statements.antt` of `c_types_rules`). Proved with `proofs/Selecting`.
ghost use Rattle.std.specs.Prelude.{◌≡◌, [], ◌++◌, None, Some, false, not, is_some, drop};
ghost use Rattle.std.specs.Prelude.{IfOk, OnOk};
ghost use Rattle.std.specs.Prelude.{option_map};
ghost use Rattle.cpa_ints.specs.Conversions.{promoted};
ghost use Rattle.c_types_rules.specs.Types.{value_kind};
ghost use Rattle.c_lexer.specs.declared.fault.Rule.TheVariants as rule;
ghost use Rattle.c_types_rules.specs.declared.meaning.Role.TheVariants.{Valued};
ghost use Rattle.c_types_rules.specs.First.{first_with};
ghost use Rattle.c_types_rules.specs.ExpressionRules.{broken, at_if};
ghost use Rattle.c_types_rules.specs.Declarations.{constant_number, inconstant};
ghost use Rattle.c_types_rules.specs.Statements.{selecting};
ghost use Rattle.c_types_rules.specs.StatementRules.{is_chosen, have_object, object_number};
ghost use Rattle.c_types_expressions.specs.Read.{role_faults, role_calls};
ghost use Rattle.c_types_bodies.specs.States.{walked};
ghost use Rattle.c_types_bodies.specs.Views.{state_of, IsTied, AreCases, with_choice};
ghost use Rattle.c_types_bodies.specs.Views.{selected_number, entering_places, first_of_case};

use crate::acts::pass_label;
use crate::walker::{Cases, Frame, Nest, Switch, Walker};
use c_grammar_tree::Expression;
use c_lexer::{Rule, TextFault};
use c_types_jumps::Jumps;
use c_types_names::{Declaration, Names};
use c_types_objects::{note_found, note_if, read_fixed};
use c_types_rules::{Choice, Declared, Kind, note_place, value_kind};
use cpa_ints::{promote, wrap};
use std::alloc::{AllocError, Global};
use std::collections::HashMap;

/// No cases.
pub(crate) fn no_cases(alloc: Global) -> Cases
    ensures cases { AreCases result }
    ensures choices { result.choices.items ≡ [] }
    ensures otherwise { result.otherwise ≡ None }
{
    Cases {
        choices: Vec::new(alloc),
        values: HashMap::new(alloc),
        otherwise: None,
    }
}

/// What a case knows of a switch on a value of this type, where so many names are declared.
pub(crate) fn switch_on(kind: Option<Kind>, names: usize) -> Switch
    ensures ty { result.ty ≡ option_map promoted (value_kind kind) }
    ensures names { result.names ≡ names }
{
    let ty = match value_kind(kind) {
        Some(ty) => Some(promote(ty)),
        None => None,
    };
    Switch { ty, names }
}

/// The number of a case as its switch has it, where both have values.
fn selected_number(switch: Option<Switch>, number: Option<i128>) -> Option<i128>
    ensures { result ≡ selected_number switch number }
{
    match (switch, number) {
        (Some(Switch { ty: Some(ty), .. }), Some(number)) => Some(wrap(ty, number)),
        _ => None,
    }
}

/// Whether a case has this value.
fn is_chosen(cases: &Cases, number: Option<i128>) -> bool
    requires { AreCases cases.now }
    ensures { result ≡ is_chosen cases.now.choices.items number }
{
    match number {
        Some(number) => cases.values.contains_key(&number),
        None => false,
    }
}

/// Adds a case of this value, with this label.
fn push_value(cases: &mut Cases, value: i128, label: u32) -> Result<(), AllocError>
    requires { AreCases cases.old }
    ensures cases { OnOk result (AreCases cases.new) }
    ensures choices { OnOk result (cases.new.choices.items
        ≡ cases.old.choices.items ++ with_choice (Some value) label) }
    ensures otherwise { OnOk result (cases.new.otherwise ≡ cases.old.otherwise) }
{
    cases.values.insert(value, label)?;
    cases.choices.push(Choice { value, label })?;
    Ok(())
}

/// Adds a case of this value, if it has one, with this label.
fn push_choice(cases: &mut Cases, number: Option<i128>, label: u32) -> Result<(), AllocError>
    requires { AreCases cases.old }
    ensures cases { OnOk result (AreCases cases.new) }
    ensures choices { OnOk result (cases.new.choices.items
        ≡ cases.old.choices.items ++ with_choice number label) }
    ensures otherwise { OnOk result (cases.new.otherwise ≡ cases.old.otherwise) }
{
    match number {
        None => Ok(()),
        Some(value) => push_value(cases, value, label),
    }
}

/// Whether it declares an object.
fn is_object(declaration: &Declaration) -> bool
    ensures { result ≡ is_some (object_number declaration.now) }
{
    match &declaration.entry().declared {
        Declared::Object { .. } => true,
        Declared::Function { .. } | Declared::Enumerator { .. } | Declared::Tag => false,
    }
}

/// Whether one of these declarations is an object's.
fn have_object(declarations: &[Declaration]) -> bool
    ensures { result ≡ have_object declarations.now }
{
    declarations.iter().any(|one| is_object(one))
}

/// Whether the scope of an object begins behind the first `count` names.
#[tactic(auto, using(crate::proofs::Selecting::none_behind))]
fn have_object_from(names: &Names, count: usize) -> bool
    ensures { result ≡ have_object (drop count names.now) }
{
    let all = names.declarations();
    if count < all.len() {
        have_object(&all[count..])
    } else {
        false
    }
}

/// Whether the scope of an object begins between a switch and what stands here.
fn enters(names: &Names, switch: Option<Switch>) -> bool
    ensures { result ≡ elim switch [
      | None ↦ false
      | Some found ↦ have_object (drop found.names names.now)
    ] }
{
    match switch {
        Some(switch) => have_object_from(names, switch.names),
        None => false,
    }
}

/// Notes a case or a default behind the scope of an object that begins in its switch.
fn note_entering(names: &Names, switch: Option<Switch>, place: u32, first: &mut Option<TextFault>)
    ensures { first.new
        ≡ first_with first.old (broken rule.N9 (entering_places names.now switch place)) }
{
    let enters = enters(names, switch);
    note_if(first, Rule::N9, enters, place);
}

/// Notes a case or a default outside a switch, and a second one.
fn note_selected(switch: Option<Switch>, is_second: bool, place: u32, first: &mut Option<TextFault>)
    ensures { first.new ≡ first_with (first_with first.old
        (broken rule.N17 (at_if (not (is_some switch)) place)))
        (broken rule.N18 (at_if is_second place)) }
{
    let is_inside = switch.is_some();
    note_if(first, Rule::N17, !is_inside, place);
    note_if(first, Rule::N18, is_second, place);
}

/// Reads the value of a case: its number as its switch has it.
fn read_case(
    alloc: Global,
    frame: &Frame,
    walker: &mut Walker,
    nest: Nest,
    value: &Expression,
    place: u32,
) -> Result<Option<i128>, AllocError>
    requires { AreCases walker.old.cases }
    ensures number { IfOk result (λ n. n ≡ selected_number nest.switch
        (constant_number frame.now.survey.now walker.old.names value.now)) }
    ensures names { OnOk result (walker.new.names ≡ walker.old.names) }
    ensures objects { OnOk result (walker.new.objects ≡ walker.old.objects) }
    ensures cases { OnOk result (walker.new.cases ≡ walker.old.cases) }
    ensures passed { OnOk result (walker.new.passed ≡ walker.old.passed) }
    ensures first { OnOk result (walker.new.first ≡ first_of_case walker.old.first
        (entering_places walker.old.names nest.switch place)
        (inconstant frame.now.survey.now walker.old.names value.now)
        (at_if (not (is_some nest.switch)) place)
        (at_if (is_chosen walker.old.cases.choices.items (selected_number nest.switch
        (constant_number frame.now.survey.now walker.old.names value.now))) place)
        (role_faults frame.now.survey.now walker.old.names Valued value.now)) }
    ensures calls { OnOk result (walker.new.calls.items ≡ walker.old.calls.items
        ++ role_calls frame.now.survey.now walker.old.names frame.now.caller Valued value.now) }
{
    // the faults of the case come before those of the names and types in its value
    let mut used = None;
    let fixed = read_fixed(
        alloc,
        frame.survey,
        &walker.names,
        frame.caller,
        value,
        &mut used,
        &mut walker.calls,
    )?;
    let number = selected_number(nest.switch, fixed.number);
    let is_second = is_chosen(&walker.cases, number);
    note_entering(&walker.names, nest.switch, place, &mut walker.first);
    note_place(&mut walker.first, Rule::N12, fixed.inconstant);
    note_selected(nest.switch, is_second, place, &mut walker.first);
    note_found(&mut walker.first, used);
    Ok(number)
}

/// A case of this value: its label.
pub(crate) fn select_value(
    alloc: Global,
    frame: &Frame,
    walker: &mut Walker,
    jumps: &Jumps,
    nest: Nest,
    value: &Expression,
    place: u32,
) -> Result<u32, AllocError>
    requires { IsTied frame.now walker.old jumps.now }
    ensures tied { OnOk result (IsTied frame.now walker.new jumps.now) }
    ensures names { OnOk result (walker.new.names ≡ walker.old.names) }
    ensures label { IfOk result (λ label. label ≡ walker.old.passed) }
    ensures state { OnOk result (state_of frame.now nest walker.new jumps.now
        ≡ walked frame.now.survey.now frame.now.caller
        (selecting frame.now.survey.now (Some value.now) place)
        (state_of frame.now nest walker.old jumps.now)) }
{
    let number = read_case(alloc, frame, walker, nest, value, place)?;
    let label = walker.passed;
    push_choice(&mut walker.cases, number, label)?;
    pass_label(walker)?;
    Ok(label)
}

/// A default: its label.
pub(crate) fn select_rest(
    frame: &Frame,
    walker: &mut Walker,
    jumps: &Jumps,
    nest: Nest,
    place: u32,
) -> Result<u32, AllocError>
    requires { IsTied frame.now walker.old jumps.now }
    ensures tied { OnOk result (IsTied frame.now walker.new jumps.now) }
    ensures names { OnOk result (walker.new.names ≡ walker.old.names) }
    ensures label { IfOk result (λ label. label ≡ walker.old.passed) }
    ensures state { OnOk result (state_of frame.now nest walker.new jumps.now
        ≡ walked frame.now.survey.now frame.now.caller
        (selecting frame.now.survey.now None place)
        (state_of frame.now nest walker.old jumps.now)) }
{
    note_entering(&walker.names, nest.switch, place, &mut walker.first);
    let is_second = walker.cases.otherwise.is_some();
    note_selected(nest.switch, is_second, place, &mut walker.first);
    let label = walker.passed;
    walker.cases.otherwise = Some(label);
    pass_label(walker)?;
    Ok(label)
}
