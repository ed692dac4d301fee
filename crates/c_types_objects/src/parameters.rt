//! What a parameter declares (`parameter_type`, `parameter_object` and `void_parameter` of
//! `c_types_rules`, `specs/Declarations.antt`). Proved by the checker alone.
ghost use Rattle.std.specs.Prelude.{◌≡◌, IfOk, OnOk, option_map};
ghost use Rattle.c_grammar_tree.specs.declared.name.Name.{Name as NameTree};
ghost use Rattle.c_lexer.specs.declared.fault.Rule.TheVariants as rule;
ghost use Rattle.c_types_rules.specs.First.{first_with};
ghost use Rattle.c_types_rules.specs.ExpressionRules.{broken, option_places};
ghost use Rattle.c_types_rules.specs.Declarations.{parameter_type, parameter_object, void_places};
ghost use Rattle.c_types_rules.specs.Declarations.{void_by, void_parameter};

use crate::specifiers::{is_void_word, kind_of, read_specifiers};
use c_grammar_tree::{Name, Parameter, Specifier};
use c_lexer::{Rule, TextFault};
use c_types_names::Survey;
use c_types_rules::{Kind, Object, ParameterType, note_place};
use std::alloc::{AllocError, Global};

/// The type of a parameter.
pub fn parameter_type(
    alloc: Global,
    survey: &Survey,
    parameter: &Parameter,
) -> Result<ParameterType, AllocError>
    ensures { IfOk result (λ r. r ≡ parameter_type survey.now parameter.now) }
{
    let kind = kind_of(alloc, survey, &parameter.specifiers)?;
    Ok(ParameterType {
        ty: kind.object_type(),
        is_pointer: parameter.is_pointer,
    })
}

/// The place of a parameter's name, where it has one.
fn name_place(name: &Option<Name>) -> Option<u32>
    ensures { result ≡ option_map (λ (one : NameTree). one.place) name.now }
{
    match name {
        Some(name) => Some(name.place),
        None => None,
    }
}

/// The object of this number that a parameter is.
pub fn parameter_object(
    alloc: Global,
    survey: &Survey,
    number: u32,
    parameter: &Parameter,
) -> Result<Object, AllocError>
    ensures { IfOk result (λ r. r ≡ parameter_object survey.now number parameter.now) }
{
    let qualified = read_specifiers(alloc, survey, &parameter.specifiers)?;
    Ok(Object {
        number,
        ty: qualified.kind.object_type(),
        length: None,
        is_const: qualified.is_const,
        place: name_place(&parameter.name),
    })
}

/// The place of the first word `void`.
fn void_place(words: &[Specifier]) -> Option<u32>
    ensures { option_places result ≡ void_places words.now }
{
    for word in words {
        if is_void_word(*word) {
            return Some(word.place);
        }
    }
    None
}

/// Where a parameter of this type is declared void.
fn void_by(kind: Kind, parameter: &Parameter) -> Option<u32>
    ensures { option_places result ≡ void_by kind parameter.now }
{
    match kind {
        Kind::Value(_) => None,
        Kind::Void => match &parameter.name {
            Some(name) => Some(name.place),
            None => void_place(parameter.specifiers.words.as_slice()),
        },
    }
}

/// Notes the fault of a parameter that is declared void.
pub fn note_void_parameter(
    alloc: Global,
    survey: &Survey,
    parameter: &Parameter,
    first: &mut Option<TextFault>,
) -> Result<(), AllocError>
    ensures { OnOk result (first.new
        ≡ first_with first.old (broken rule.N5 (void_parameter survey.now parameter.now))) }
{
    let kind = kind_of(alloc, survey, &parameter.specifiers)?;
    note_place(first, Rule::N5, void_by(kind, parameter));
    Ok(())
}
