//! Enumerated types in file scope (`enumeration_behind` and `enumeration_faults` of
//! `specs/Items.antt` of `c_types_rules`). Proved with `proofs/Forgetting`.
ghost use Rattle.std.specs.Prelude.{◌≡◌, OnOk};
ghost use Rattle.c_types_rules.specs.First.{first_with};
ghost use Rattle.c_types_rules.specs.Items.{enumeration_behind, enumeration_faults};
ghost use Rattle.c_types_objects.specs.Enumerations.{AddsNames};
ghost use Rattle.c_types_globals.specs.Scopes.{before_of, parameters_faults};

use crate::Scope;
use c_grammar_tree::{Parameter, Specifiers};
use c_lexer::TextFault;
use c_types_names::Survey;
use c_types_objects::read_enumeration;
use std::alloc::{AllocError, Global};

/// Declares what the enumerated type of specifiers declares: holds its first fault. Its expressions
/// stand in no body.
pub fn declare_enumeration(
    alloc: Global,
    survey: &Survey,
    scope: &mut Scope,
    specifiers: &Specifiers,
    first: &mut Option<TextFault>,
) -> Result<(), AllocError>
    ensures added { OnOk result (AddsNames scope.old.names scope.new.names) }
    ensures scope { OnOk result (before_of scope.new
        ≡ enumeration_behind survey.now specifiers.now (before_of scope.old)) }
    ensures first { OnOk result (first.new ≡ first_with first.old
        (enumeration_faults survey.now specifiers.now (before_of scope.old))) }
{
    let mut calls = Vec::new(alloc);
    let enumeration = &specifiers.enumeration;
    let names = &mut scope.names;
    read_enumeration(alloc, survey, names, 0, 0, enumeration, first, &mut calls)?;
    Ok(())
}

/// Notes the faults of the enumerated type of specifiers, of which no name is declared behind them.
pub(crate) fn note_enumeration(
    alloc: Global,
    survey: &Survey,
    scope: &mut Scope,
    specifiers: &Specifiers,
    first: &mut Option<TextFault>,
) -> Result<(), AllocError>
    ensures scope { OnOk result (before_of scope.new ≡ before_of scope.old) }
    ensures first { OnOk result (first.new ≡ first_with first.old
        (enumeration_faults survey.now specifiers.now (before_of scope.old))) }
{
    let count = scope.names.len();
    declare_enumeration(alloc, survey, scope, specifiers, first)?;
    scope.names.keep(count);
    Ok(())
}

/// Notes those of parameters.
pub(crate) fn note_enumerations(
    alloc: Global,
    survey: &Survey,
    scope: &mut Scope,
    all: &[Parameter],
    first: &mut Option<TextFault>,
) -> Result<(), AllocError>
    ensures scope { OnOk result (before_of scope.new ≡ before_of scope.old) }
    ensures first { OnOk result (first.new ≡ first_with first.old
        (parameters_faults survey.now all.now (before_of scope.old))) }
{
    for parameter in all {
        note_enumeration(alloc, survey, scope, &parameter.specifiers, first)?;
    }
    Ok(())
}
