//! The parameters of a declared function (`parameter_types`, `head_faults` of `specs/Items.antt` of
//! `c_types_rules`). Proved with `proofs/Faults`.
ghost use Rattle.std.specs.Prelude.{◌≡◌, map, IfOk, OnOk};
ghost use Rattle.std.specs.List.{flat_map};
ghost use Rattle.c_lexer.specs.declared.fault.Rule.TheVariants as rule;
ghost use Rattle.c_types_rules.specs.First.{first_with};
ghost use Rattle.c_types_rules.specs.ExpressionRules.{broken};
ghost use Rattle.c_types_rules.specs.Declarations.{parameter_type, void_parameter};
ghost use Rattle.c_types_rules.specs.Items.{listed, parameter_types};

use c_grammar_tree::{Parameter, Parameters};
use c_lexer::TextFault;
use c_types_names::Survey;
use c_types_objects::{note_void_parameter, parameter_type};
use c_types_rules::ParameterType;
use cpa_ints::Seq;
use std::alloc::{AllocError, Global};

/// The types of listed parameters.
fn listed_types(
    alloc: Global,
    survey: &Survey,
    all: &[Parameter],
) -> Result<Seq<ParameterType>, AllocError>
    ensures { IfOk result (λ types. types ≡ map (parameter_type survey.now) all.now) }
{
    let mut types = Vec::new(alloc);
    for parameter in all {
        types.push(parameter_type(alloc, survey, parameter)?)?;
    }
    Ok(Seq::from_vec(types))
}

/// The types of the parameters that a declaration gives its function, if it says which there are.
pub(crate) fn parameter_types(
    alloc: Global,
    survey: &Survey,
    defines: bool,
    parameters: &Parameters,
) -> Result<Option<Seq<ParameterType>>, AllocError>
    ensures { IfOk result (λ types. types ≡ parameter_types survey.now defines parameters.now) }
{
    match parameters {
        Parameters::Unspecified if !defines => Ok(None),
        Parameters::Unspecified | Parameters::Void => Ok(Some(Seq::new(alloc))),
        Parameters::Listed(all) => Ok(Some(listed_types(alloc, survey, all.as_slice())?)),
    }
}

/// The parameters that a declarator lists.
pub(crate) fn listed(parameters: &Parameters) -> &[Parameter]
    ensures { result.now ≡ listed parameters.now }
{
    match parameters {
        Parameters::Listed(all) => all.as_slice(),
        Parameters::Unspecified | Parameters::Void => &[],
    }
}

/// Notes the faults of parameters that are declared void.
pub(crate) fn note_void_parameters(
    alloc: Global,
    survey: &Survey,
    all: &[Parameter],
    first: &mut Option<TextFault>,
) -> Result<(), AllocError>
    ensures { OnOk result (first.new
        ≡ first_with first.old (broken rule.N5 (flat_map (void_parameter survey.now) all.now))) }
{
    for parameter in all {
        note_void_parameter(alloc, survey, parameter, first)?;
    }
    Ok(())
}
