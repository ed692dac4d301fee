//! Declarations of functions (`function_behind` and `head_faults` of `specs/Items.antt` of
//! `c_types_rules`). Proved with `proofs/Heads`.
ghost use Rattle.std.specs.Prelude.{◌≡◌, [], ◌∷◌, ◌++◌, OnOk};
ghost use Rattle.c_types_rules.specs.First.{first_with};
ghost use Rattle.c_types_rules.specs.Names.{declared_as};
ghost use Rattle.c_types_rules.specs.Items.{merged_function, function_behind, head_faults};
ghost use Rattle.c_types_globals.specs.Scopes.{before_of, taken_faults};

use crate::Scope;
use crate::enumerations::{note_enumeration, note_enumerations};
use crate::merging::{is_said, merged_function, redeclares_function};
use crate::parameters::{listed, note_void_parameters, parameter_types};
use c_grammar_tree::{FunctionDeclarator, Specifiers, Spelling};
use c_lexer::{Rule, TextFault};
use c_types_names::{Names, Survey};
use c_types_objects::{note_if, read_specifiers};
use c_types_rules::{Entry, Kind, ParameterType};
use cpa_ints::Seq;
use std::alloc::{AllocError, Global};

/// Declares the name of a function. Where that says nothing new, it shares what is known of it.
fn declare_name(
    alloc: Global,
    names: &mut Names,
    name: &[u8],
    kind: Kind,
    types: Option<Seq<ParameterType>>,
    defines: bool,
) -> Result<(), AllocError>
    ensures { OnOk result (names.new ≡ names.old ++ record {
      name = name.now;
      declared = merged_function (declared_as names.old name.now) kind types defines;
    } ∷ []) }
{
    if is_said(names.declared(name), &types, defines) {
        return names.declare_again(alloc, name);
    }
    let declared = merged_function(alloc, names.declared(name), kind, types, defines)?;
    let name = Spelling::new(alloc, name)?;
    names.declare(alloc, Entry { name, declared })
}

/// Notes the faults of a function's name and of the types of its parameters.
#[tactic(auto, using(c_types_rules::specs::First::first_append))]
fn note_head(
    alloc: Global,
    survey: &Survey,
    names: &Names,
    kind: Kind,
    types: &Option<Seq<ParameterType>>,
    defines: bool,
    declarator: &FunctionDeclarator,
    first: &mut Option<TextFault>,
) -> Result<(), AllocError>
    ensures { OnOk result (first.new ≡ first_with first.old
        (taken_faults survey.now names.now kind types.now defines declarator.now)) }
{
    let name = declarator.name.bytes.as_slice();
    let is_taken = redeclares_function(names.declared(name), kind, types, defines);
    note_if(first, Rule::N2, is_taken, declarator.name.place);
    note_void_parameters(alloc, survey, listed(&declarator.parameters), first)?;
    Ok(())
}

/// Declares a function, by a prototype or by a definition: holds the first fault of its head.
pub fn declare_function(
    alloc: Global,
    survey: &Survey,
    scope: &mut Scope,
    defines: bool,
    specifiers: &Specifiers,
    declarator: &FunctionDeclarator,
    first: &mut Option<TextFault>,
) -> Result<(), AllocError>
    ensures scope { OnOk result (before_of scope.new
        ≡ function_behind survey.now defines specifiers.now declarator.now (before_of scope.old)) }
    ensures first { OnOk result (first.new ≡ first_with first.old
        (head_faults survey.now (before_of scope.old) defines specifiers.now declarator.now)) }
{
    note_enumeration(alloc, survey, scope, specifiers, first)?;
    let kind = read_specifiers(alloc, survey, specifiers)?.kind;
    let types = parameter_types(alloc, survey, defines, &declarator.parameters)?;
    note_head(
        alloc,
        survey,
        &scope.names,
        kind,
        &types,
        defines,
        declarator,
        first,
    )?;
    let all = listed(&declarator.parameters);
    note_enumerations(alloc, survey, scope, all, first)?;
    let name = declarator.name.bytes.as_slice();
    declare_name(alloc, &mut scope.names, name, kind, types, defines)?;
    Ok(())
}
